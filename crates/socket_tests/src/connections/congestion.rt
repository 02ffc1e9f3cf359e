//! Congestion control.

use super::Act::*;
use super::Row;
use crate::segments::Line;
use sock_tcp::Shut;

/// The congestion window (RFC 5681).
pub const CONGESTION: [Row; 53] = [
    // Slow start: two segments for each acknowledgement; of two segments at once it counts one.
    Row(
        Connects(65_535),
        "16 101 301 65535 0, 0 Established 4380 65535",
    ),
    Row(
        Writes(14_600),
        "16 101 301 65535 1460, 16 1561 301 65535 1460, 16 3021 301 65535 1460, 1 Established 4380 65535",
    ),
    Row(
        Comes(Line(16, 301, 1_561, 65_535, 0)),
        "16 4481 301 65535 1460, 16 5941 301 65535 1460, 1 Established 5840 65535",
    ),
    Row(
        Comes(Line(16, 301, 3_021, 65_535, 0)),
        "16 7401 301 65535 1460, 16 8861 301 65535 1460, 1 Established 7300 65535",
    ),
    Row(
        Comes(Line(16, 301, 4_481, 65_535, 0)),
        "16 10321 301 65535 1460, 16 11781 301 65535 1460, 1 Established 8760 65535",
    ),
    Row(
        Comes(Line(16, 301, 7_401, 65_535, 0)),
        "16 13241 301 65535 1460, 1 Established 10220 65535",
    ),
    // An expiry with 4,380 bytes in flight, a second one, and congestion avoidance.
    Row(
        Connects(65_535),
        "16 101 301 65535 0, 0 Established 4380 65535",
    ),
    Row(
        Writes(14_600),
        "16 101 301 65535 1460, 16 1561 301 65535 1460, 16 3021 301 65535 1460, 1 Established 4380 65535",
    ),
    Row(Expires, "16 101 301 65535 1460, 2 Established 1460 2920"),
    Row(Expires, "16 101 301 65535 1460, 4 Established 1460 2920"),
    Row(
        Comes(Line(16, 301, 1_561, 65_535, 0)),
        "16 1561 301 65535 1460, 16 3021 301 65535 1460, 1 Established 2920 2920",
    ),
    Row(
        Comes(Line(16, 301, 4_481, 65_535, 0)),
        "16 4481 301 65535 1460, 16 5941 301 65535 1460, 16 7401 301 65535 730, 1 Established 3650 2920",
    ),
    Row(
        Comes(Line(16, 301, 5_941, 65_535, 0)),
        "16 8131 301 65535 1460, 16 9591 301 65535 584, 1 Established 4234 2920",
    ),
    // 40 acknowledgements after an expiry.
    Row(
        Connects(65_535),
        "16 101 301 65535 0, 0 Established 4380 65535",
    ),
    Row(
        Writes(65_535),
        "16 101 301 65535 1460, 16 1561 301 65535 1460, 16 3021 301 65535 1460, 1 Established 4380 65535",
    ),
    Row(Expires, "16 101 301 65535 1460, 2 Established 1460 2920"),
    Row(Acks(40), "1 Established 13334 2920"),
    // The third duplicate with ten segments in flight, and a fourth; text is no duplicate, nor is
    // another window. The third before all of them are acknowledged, and the third after.
    Row(
        Connects(65_535),
        "16 101 301 65535 0, 0 Established 4380 65535",
    ),
    Row(
        Writes(65_535),
        "16 101 301 65535 1460, 16 1561 301 65535 1460, 16 3021 301 65535 1460, 1 Established 4380 65535",
    ),
    Row(
        Acks(7),
        "16 22001 301 65535 1460, 16 23461 301 65535 1460, 1 Established 14600 65535",
    ),
    Row(
        Comes(Line(16, 301, 10_321, 65_535, 0)),
        "0 Established 14600 65535",
    ),
    Row(
        Comes(Line(16, 301, 10_321, 65_535, 4)),
        "16 24921 305 65531 0, 0 Established 14600 65535",
    ),
    Row(
        Comes(Line(16, 305, 10_321, 60_000, 0)),
        "0 Established 14600 65535",
    ),
    Row(
        Comes(Line(16, 305, 10_321, 65_535, 0)),
        "0 Established 14600 65535",
    ),
    Row(
        Comes(Line(16, 301, 10_321, 65_535, 0)),
        "16 24921 305 65531 0, 0 Established 14600 65535",
    ),
    Row(
        Comes(Line(16, 301, 10_321, 65_535, 0)),
        "16 10321 305 65531 1460, 16 11781 305 65531 0, 16 11781 305 65531 1460, 16 13241 305 65531 1460, 16 14701 305 65531 1460, 16 16161 305 65531 1460, 0 Established 7300 7300",
    ),
    Row(
        Comes(Line(16, 301, 10_321, 65_535, 0)),
        "16 17621 305 65531 0, 0 Established 7300 7300",
    ),
    Row(
        Comes(Line(16, 301, 11_781, 65_535, 0)),
        "16 17621 305 65531 0, 16 17621 305 65531 1460, 16 19081 305 65531 292, 1 Established 7592 7300",
    ),
    Row(
        Comes(Line(16, 301, 11_781, 65_535, 0)),
        "16 19373 305 65531 0, 0 Established 7592 7300",
    ),
    Row(
        Comes(Line(16, 301, 11_781, 65_535, 0)),
        "16 19373 305 65531 0, 0 Established 7592 7300",
    ),
    Row(
        Comes(Line(16, 301, 11_781, 65_535, 0)),
        "16 19373 305 65531 0, 0 Established 7592 7300",
    ),
    Row(
        Comes(Line(16, 301, 24_921, 65_535, 0)),
        "16 24921 305 65531 0, 16 24921 305 65531 1460, 16 26381 305 65531 1460, 16 27841 305 65531 1460, 16 29301 305 65531 1460, 16 30761 305 65531 1460, 16 32221 305 65531 572, 1 Established 7872 7300",
    ),
    Row(
        Comes(Line(16, 301, 24_921, 65_535, 0)),
        "16 32793 305 65531 0, 0 Established 7872 7300",
    ),
    Row(
        Comes(Line(16, 301, 24_921, 65_535, 0)),
        "16 32793 305 65531 0, 0 Established 7872 7300",
    ),
    Row(
        Comes(Line(16, 301, 24_921, 65_535, 0)),
        "16 24921 305 65531 1460, 16 26381 305 65531 0, 16 26381 305 65531 1460, 16 27841 305 65531 1016, 0 Established 3936 3936",
    ),
    // The peer's window below the congestion window.
    Row(
        Connects(2_000),
        "16 101 301 65535 0, 0 Established 4380 65535",
    ),
    Row(
        Writes(5_000),
        "16 101 301 65535 1460, 16 1561 301 65535 540, 1 Established 4380 65535",
    ),
    // A closed window: what goes again, a probe, and its expiry.
    Row(
        Connects(5_000),
        "16 101 301 65535 0, 0 Established 4380 65535",
    ),
    Row(
        Writes(3_000),
        "16 101 301 65535 1460, 16 1561 301 65535 1460, 16 3021 301 65535 80, 1 Established 4380 65535",
    ),
    Row(Expires, "16 101 301 65535 1460, 2 Established 1460 2920"),
    Row(Comes(Line(16, 301, 3_101, 0, 0)), "0 Established 2920 2920"),
    Row(Writes(100), "1 Established 2920 2920"),
    Row(Expires, "16 3101 301 65535 1, 2 Established 2920 2920"),
    Row(Expires, "16 3101 301 65535 1, 4 Established 1460 2920"),
    Row(Comes(Line(16, 301, 3_101, 0, 0)), "1 Established 1460 2920"),
    // The SYN was lost once; its acknowledgement lets no window grow.
    Row(Opens(100), "2 100 0 65535 0, 1 SynSent 4380 65535"),
    Row(Expires, "2 100 0 65535 0, 2 SynSent 4380 65535"),
    Row(
        Comes(Line(18, 300, 101, 65_535, 0)),
        "16 101 301 65535 0, 0 Established 1460 65535",
    ),
    Row(
        Writes(5_000),
        "16 101 301 65535 1460, 1 Established 1460 65535",
    ),
    Row(
        Comes(Line(16, 301, 1_561, 65_535, 0)),
        "16 1561 301 65535 1460, 16 3021 301 65535 1460, 1 Established 2920 65535",
    ),
    // A FIN waits for no window.
    Row(
        Connects(65_535),
        "16 101 301 65535 0, 0 Established 4380 65535",
    ),
    Row(
        Writes(4_380),
        "16 101 301 65535 1460, 16 1561 301 65535 1460, 16 3021 301 65535 1460, 1 Established 4380 65535",
    ),
    Row(
        Shuts(Shut::Writing),
        "17 4481 301 65535 0, 0 FinWait1 4380 65535",
    ),
];
