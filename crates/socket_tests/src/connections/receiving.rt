//! Receiving and reading.

use super::Act::*;
use super::Row;
use crate::segments::Line;
use sock_tcp::Shut;

/// Text that comes, and reads.
pub const RECEIVING: [Row; 37] = [
    // In place, beyond, and again with two bytes more.
    Row(
        Connects(1_000),
        "16 101 301 65535 0, 0 Established 4380 65535",
    ),
    Row(
        Comes(Line(16, 301, 101, 1_000, 3)),
        "16 101 304 65532 0, 0 Established 4380 65535",
    ),
    Row(
        Comes(Line(16, 305, 101, 1_000, 3)),
        "16 101 304 65532 0, 0 Established 4380 65535",
    ),
    Row(
        Comes(Line(16, 302, 101, 1_000, 4)),
        "16 101 306 65530 0, 0 Established 4380 65535",
    ),
    Row(Asks, "5 65535 false"),
    Row(Reads(9), "0 Established 4380 65535"),
    // The peer's numbers wrap: beyond, in place, and again with two bytes more.
    Row(Opens(100), "2 100 0 65535 0, 1 SynSent 4380 65535"),
    Row(
        Comes(Line(18, 4_294_967_294, 101, 1_000, 0)),
        "16 101 4294967295 65535 0, 0 Established 4380 65535",
    ),
    Row(
        Comes(Line(16, 4, 101, 1_000, 9)),
        "16 101 4294967295 65535 0, 0 Established 4380 65535",
    ),
    Row(
        Comes(Line(16, 4_294_967_295, 101, 1_000, 5)),
        "16 101 4 65530 0, 0 Established 4380 65535",
    ),
    Row(
        Comes(Line(16, 4_294_967_295, 101, 1_000, 7)),
        "16 101 6 65528 0, 0 Established 4380 65535",
    ),
    Row(Asks, "7 65535 false"),
    // It comes again, then some beyond it, an ACK and a FIN beyond it, some without ACK, and a
    // SYN.
    Row(
        Connects(1_000),
        "16 101 301 65535 0, 0 Established 4380 65535",
    ),
    Row(
        Comes(Line(16, 301, 101, 1_000, 100)),
        "16 101 401 65435 0, 0 Established 4380 65535",
    ),
    Row(
        Comes(Line(16, 301, 101, 1_000, 100)),
        "16 101 401 65435 0, 0 Established 4380 65535",
    ),
    Row(
        Comes(Line(16, 501, 101, 1_000, 100)),
        "16 101 401 65435 0, 0 Established 4380 65535",
    ),
    Row(
        Comes(Line(16, 501, 101, 1_000, 0)),
        "16 101 401 65435 0, 0 Established 4380 65535",
    ),
    Row(
        Comes(Line(17, 501, 101, 1_000, 0)),
        "16 101 401 65435 0, 0 Established 4380 65535",
    ),
    Row(
        Comes(Line(0, 401, 0, 1_000, 100)),
        "0 Established 4380 65535",
    ),
    Row(
        Comes(Line(2, 401, 0, 1_000, 0)),
        "16 101 401 65435 0, 0 Established 4380 65535",
    ),
    Row(
        Comes(Line(16, 401, 101, 1_000, 0)),
        "0 Established 4380 65535",
    ),
    // The buffer is full, a FIN stands behind a byte that doesn't fit, and a read of enough tells
    // of the room.
    Row(
        Connects(1_000),
        "16 101 301 65535 0, 0 Established 4380 65535",
    ),
    Row(
        Comes(Line(16, 301, 101, 1_000, 66_000)),
        "16 101 65836 0 0, 0 Established 4380 65535",
    ),
    Row(
        Comes(Line(17, 65_836, 101, 1_000, 1)),
        "16 101 65836 0 0, 0 Established 4380 65535",
    ),
    Row(Reads(1_459), "0 Established 4380 65535"),
    Row(Reads(1), "16 101 65836 1460 0, 0 Established 4380 65535"),
    Row(
        Comes(Line(17, 65_836, 101, 1_000, 1)),
        "16 101 65838 1459 0, 0 CloseWait 4380 65535",
    ),
    Row(
        Reads(70_000),
        "16 101 65838 65535 0, 0 CloseWait 4380 65535",
    ),
    Row(Asks, "0 65535 false"),
    Row(Reads(1), "0 CloseWait 4380 65535"),
    Row(Asks, "0 65535 true"),
    // Once reading has ended text is thrown away; once the socket is closed it is refused.
    Row(
        Connects(1_000),
        "16 101 301 65535 0, 0 Established 4380 65535",
    ),
    Row(Shuts(Shut::Reading), "0 Established 4380 65535"),
    Row(
        Comes(Line(16, 301, 101, 1_000, 9)),
        "16 101 310 65535 0, 0 Established 4380 65535",
    ),
    Row(Closes, "17 101 310 65535 0, 1 FinWait1 4380 65535"),
    Row(
        Comes(Line(16, 310, 101, 1_000, 1)),
        "4 102 0 65535 0, 0 Vanished 4380 65535",
    ),
    Row(Comes(Line(16, 310, 101, 1_000, 1)), "0 Vanished 4380 65535"),
];
