//! Opening, sending and the timer.

use super::Act::*;
use super::Row;
use crate::segments::Line;
use sock_tcp::Shut;

/// The handshake, text that is sent, and the timer.
pub const OPENING: [Row; 59] = [
    // Numbers wrap. Before the SYN and ACK come an ACK of what was never sent, a RST beside it,
    // and a SYN alone, which would be a simultaneous open.
    Row(
        Opens(4_294_967_295),
        "2 4294967295 0 65535 0, 1 SynSent 4380 65535",
    ),
    Row(
        Comes(Line(16, 300, 7, 1_000, 0)),
        "4 7 0 65535 0, 0 SynSent 4380 65535",
    ),
    Row(Comes(Line(20, 300, 7, 1_000, 0)), "0 SynSent 4380 65535"),
    Row(Comes(Line(2, 300, 0, 1_000, 0)), "0 SynSent 4380 65535"),
    Row(
        Comes(Line(18, 300, 0, 1_000, 0)),
        "16 0 301 65535 0, 0 Established 4380 65535",
    ),
    Row(Writes(3), "16 0 301 65535 3, 1 Established 4380 65535"),
    Row(
        Comes(Line(16, 301, 3, 1_000, 0)),
        "0 Established 4383 65535",
    ),
    // Nobody answers: seven SYNs, and the end, whose error is taken once.
    Row(Opens(100), "2 100 0 65535 0, 1 SynSent 4380 65535"),
    Row(Expires, "2 100 0 65535 0, 2 SynSent 4380 65535"),
    Row(Expires, "2 100 0 65535 0, 4 SynSent 4380 65535"),
    Row(Expires, "2 100 0 65535 0, 8 SynSent 4380 65535"),
    Row(Expires, "2 100 0 65535 0, 16 SynSent 4380 65535"),
    Row(Expires, "2 100 0 65535 0, 32 SynSent 4380 65535"),
    Row(Expires, "2 100 0 65535 0, 60 SynSent 4380 65535"),
    Row(Expires, "0 Ended 4380 65535"),
    Row(Expires, "0 Ended 4380 65535"),
    Row(TakesError, "110"),
    Row(TakesError, "0"),
    // A RST alone, and one with the acknowledgement of the SYN; the error, and a socket that is
    // closed.
    Row(Opens(100), "2 100 0 65535 0, 1 SynSent 4380 65535"),
    Row(Comes(Line(4, 0, 0, 0, 0)), "0 SynSent 4380 65535"),
    Row(Comes(Line(20, 0, 101, 0, 0)), "0 Ended 4380 65535"),
    Row(TakesError, "111"),
    Row(Closes, "0 Vanished 4380 65535"),
    // Text goes in pieces.
    Row(
        Connects(2_000),
        "16 101 301 65535 0, 0 Established 4380 65535",
    ),
    Row(
        Writes(3_000),
        "16 101 301 65535 1460, 16 1561 301 65535 540, 1 Established 4380 65535",
    ),
    Row(Asks, "0 62535 false"),
    // 65,535 bytes fill the send buffer; there is room for as many as are acknowledged.
    Row(
        Connects(65_535),
        "16 101 301 65535 0, 0 Established 4380 65535",
    ),
    Row(
        Writes(70_000),
        "16 101 301 65535 1460, 16 1561 301 65535 1460, 16 3021 301 65535 1460, 1 Established 4380 65535",
    ),
    Row(Asks, "0 0 false"),
    Row(Writes(1), "0 Established 4380 65535"),
    Row(
        Comes(Line(16, 301, 4_481, 65_535, 0)),
        "16 4481 301 65535 1460, 16 5941 301 65535 1460, 16 7401 301 65535 1460, 16 8861 301 65535 1460, 1 Established 5840 65535",
    ),
    Row(Asks, "0 4380 false"),
    // Both segments are lost: one goes again, and what follows it with its acknowledgement.
    Row(
        Connects(5_000),
        "16 101 301 65535 0, 0 Established 4380 65535",
    ),
    Row(
        Writes(1_000),
        "16 101 301 65535 1000, 1 Established 4380 65535",
    ),
    Row(
        Writes(500),
        "16 1101 301 65535 500, 0 Established 4380 65535",
    ),
    Row(Expires, "16 101 301 65535 1460, 2 Established 1460 2920"),
    Row(
        Comes(Line(16, 301, 1_561, 5_000, 0)),
        "16 1561 301 65535 40, 1 Established 2920 2920",
    ),
    Row(
        Comes(Line(16, 301, 1_601, 5_000, 0)),
        "0 Established 3650 2920",
    ),
    Row(Expires, "0 Established 3650 2920"),
    // Two segments come, and their acknowledgement after the first went again. What was never sent
    // is answered; what was acknowledged before sets no window.
    Row(
        Connects(5_000),
        "16 101 301 65535 0, 0 Established 4380 65535",
    ),
    Row(
        Writes(1_460),
        "16 101 301 65535 1460, 1 Established 4380 65535",
    ),
    Row(
        Writes(1_460),
        "16 1561 301 65535 1460, 0 Established 4380 65535",
    ),
    Row(Expires, "16 101 301 65535 1460, 2 Established 1460 2920"),
    Row(
        Comes(Line(16, 301, 3_021, 5_000, 0)),
        "0 Established 2920 2920",
    ),
    Row(Writes(10), "16 3021 301 65535 10, 1 Established 2920 2920"),
    Row(
        Comes(Line(16, 301, 3_032, 0, 0)),
        "16 3031 301 65535 0, 0 Established 2920 2920",
    ),
    Row(Comes(Line(16, 301, 3_020, 0, 0)), "0 Established 2920 2920"),
    Row(Writes(10), "16 3031 301 65535 10, 0 Established 2920 2920"),
    // A closed window is probed by one byte; once it opens the rest and the FIN go out.
    Row(Connects(0), "16 101 301 65535 0, 0 Established 4380 65535"),
    Row(Writes(1_000), "1 Established 4380 65535"),
    Row(Shuts(Shut::Writing), "0 FinWait1 4380 65535"),
    Row(Expires, "16 101 301 65535 1, 2 FinWait1 4380 65535"),
    Row(Expires, "16 101 301 65535 1, 4 FinWait1 1460 65535"),
    Row(Comes(Line(16, 301, 101, 0, 0)), "1 FinWait1 1460 65535"),
    Row(Expires, "16 101 301 65535 1, 2 FinWait1 1460 2920"),
    Row(Comes(Line(16, 301, 102, 0, 0)), "1 FinWait1 1461 2920"),
    Row(Expires, "16 102 301 65535 1, 2 FinWait1 1461 2920"),
    Row(
        Comes(Line(16, 301, 103, 8, 0)),
        "16 103 301 65535 8, 1 FinWait1 1462 2920",
    ),
    Row(
        Comes(Line(16, 301, 111, 5_000, 0)),
        "16 111 301 65535 990, 17 1101 301 65535 0, 1 FinWait1 1470 2920",
    ),
];
