//! Closing and resets.

use super::Act::*;
use super::Row;
use crate::segments::Line;
use sock_tcp::Shut;

/// The end of a connection.
pub const CLOSING: [Row; 61] = [
    // Both FINs cross.
    Row(
        Connects(5_000),
        "16 101 301 65535 0, 0 Established 4380 65535",
    ),
    Row(
        Shuts(Shut::Both),
        "17 101 301 65535 0, 1 FinWait1 4380 65535",
    ),
    Row(
        Comes(Line(17, 301, 101, 5_000, 0)),
        "16 102 302 65535 0, 0 Closing 4380 65535",
    ),
    Row(Expires, "17 101 302 65535 0, 2 Closing 1460 2920"),
    Row(Comes(Line(16, 302, 102, 5_000, 0)), "60 TimeWait 1461 2920"),
    Row(Expires, "0 Vanished 1461 2920"),
    // The own FIN is first: text still comes, and the peer's FIN twice.
    Row(
        Connects(5_000),
        "16 101 301 65535 0, 0 Established 4380 65535",
    ),
    Row(
        Shuts(Shut::Writing),
        "17 101 301 65535 0, 1 FinWait1 4380 65535",
    ),
    Row(Writes(10), "0 FinWait1 4380 65535"),
    Row(Comes(Line(16, 301, 102, 5_000, 0)), "0 FinWait2 4381 65535"),
    Row(
        Comes(Line(16, 301, 102, 5_000, 10)),
        "16 102 311 65525 0, 0 FinWait2 4381 65535",
    ),
    Row(
        Comes(Line(17, 311, 102, 5_000, 0)),
        "16 102 312 65525 0, 60 TimeWait 4381 65535",
    ),
    Row(
        Comes(Line(17, 311, 102, 5_000, 0)),
        "16 102 312 65525 0, 60 TimeWait 4381 65535",
    ),
    Row(Comes(Line(16, 312, 102, 0, 0)), "0 TimeWait 4381 65535"),
    Row(Expires, "0 Vanished 4381 65535"),
    Row(Comes(Line(17, 311, 102, 5_000, 0)), "0 Vanished 4381 65535"),
    // The peer's FIN is first: text still goes, and both it and the own FIN go again.
    Row(
        Connects(5_000),
        "16 101 301 65535 0, 0 Established 4380 65535",
    ),
    Row(
        Comes(Line(17, 301, 101, 5_000, 0)),
        "16 101 302 65535 0, 0 CloseWait 4380 65535",
    ),
    Row(Writes(10), "16 101 302 65535 10, 1 CloseWait 4380 65535"),
    Row(
        Shuts(Shut::Writing),
        "17 111 302 65535 0, 0 LastAck 4380 65535",
    ),
    Row(Closes, "0 LastAck 4380 65535"),
    Row(Expires, "16 101 302 65535 10, 2 LastAck 1460 2920"),
    Row(
        Comes(Line(16, 302, 111, 5_000, 0)),
        "17 111 302 65535 0, 1 LastAck 1470 2920",
    ),
    Row(Comes(Line(16, 302, 112, 5_000, 0)), "0 Vanished 1471 2920"),
    // Unread bytes reset.
    Row(
        Connects(1_000),
        "16 101 301 65535 0, 0 Established 4380 65535",
    ),
    Row(
        Comes(Line(16, 301, 101, 1_000, 2)),
        "16 101 303 65533 0, 0 Established 4380 65535",
    ),
    Row(Reads(1), "0 Established 4380 65535"),
    Row(Closes, "4 101 0 65535 0, 0 Vanished 4380 65535"),
    // A RST beside what is expected, and there: in ESTABLISHED,
    Row(
        Connects(1_000),
        "16 101 301 65535 0, 0 Established 4380 65535",
    ),
    Row(Comes(Line(4, 303, 0, 0, 0)), "0 Established 4380 65535"),
    Row(Comes(Line(4, 301, 0, 0, 0)), "0 Ended 4380 65535"),
    Row(TakesError, "104"),
    // FIN-WAIT-1,
    Row(
        Connects(1_000),
        "16 101 301 65535 0, 0 Established 4380 65535",
    ),
    Row(
        Shuts(Shut::Writing),
        "17 101 301 65535 0, 1 FinWait1 4380 65535",
    ),
    Row(Comes(Line(4, 303, 0, 0, 0)), "0 FinWait1 4380 65535"),
    Row(Comes(Line(4, 301, 0, 0, 0)), "0 Ended 4380 65535"),
    // FIN-WAIT-2,
    Row(
        Connects(1_000),
        "16 101 301 65535 0, 0 Established 4380 65535",
    ),
    Row(
        Shuts(Shut::Writing),
        "17 101 301 65535 0, 1 FinWait1 4380 65535",
    ),
    Row(Comes(Line(16, 301, 102, 1_000, 0)), "0 FinWait2 4381 65535"),
    Row(Comes(Line(4, 303, 0, 0, 0)), "0 FinWait2 4381 65535"),
    Row(Comes(Line(4, 301, 0, 0, 0)), "0 Ended 4381 65535"),
    // CLOSE-WAIT,
    Row(
        Connects(1_000),
        "16 101 301 65535 0, 0 Established 4380 65535",
    ),
    Row(
        Comes(Line(17, 301, 101, 1_000, 0)),
        "16 101 302 65535 0, 0 CloseWait 4380 65535",
    ),
    Row(Comes(Line(4, 303, 0, 0, 0)), "0 CloseWait 4380 65535"),
    Row(Comes(Line(4, 302, 0, 0, 0)), "0 Ended 4380 65535"),
    // CLOSING,
    Row(
        Connects(1_000),
        "16 101 301 65535 0, 0 Established 4380 65535",
    ),
    Row(
        Shuts(Shut::Writing),
        "17 101 301 65535 0, 1 FinWait1 4380 65535",
    ),
    Row(
        Comes(Line(17, 301, 101, 1_000, 0)),
        "16 102 302 65535 0, 0 Closing 4380 65535",
    ),
    Row(Comes(Line(4, 303, 0, 0, 0)), "0 Closing 4380 65535"),
    Row(Comes(Line(4, 302, 0, 0, 0)), "0 Ended 4380 65535"),
    // LAST-ACK,
    Row(
        Connects(1_000),
        "16 101 301 65535 0, 0 Established 4380 65535",
    ),
    Row(
        Comes(Line(17, 301, 101, 1_000, 0)),
        "16 101 302 65535 0, 0 CloseWait 4380 65535",
    ),
    Row(
        Shuts(Shut::Writing),
        "17 101 302 65535 0, 1 LastAck 4380 65535",
    ),
    Row(Comes(Line(4, 303, 0, 0, 0)), "0 LastAck 4380 65535"),
    Row(Comes(Line(4, 302, 0, 0, 0)), "0 Ended 4380 65535"),
    // and TIME-WAIT.
    Row(
        Connects(1_000),
        "16 101 301 65535 0, 0 Established 4380 65535",
    ),
    Row(
        Shuts(Shut::Writing),
        "17 101 301 65535 0, 1 FinWait1 4380 65535",
    ),
    Row(Comes(Line(16, 301, 102, 1_000, 0)), "0 FinWait2 4381 65535"),
    Row(
        Comes(Line(17, 301, 101, 1_000, 0)),
        "16 102 302 65535 0, 60 TimeWait 4381 65535",
    ),
    Row(Comes(Line(4, 303, 0, 0, 0)), "0 TimeWait 4381 65535"),
    Row(Comes(Line(4, 302, 0, 0, 0)), "0 Vanished 4381 65535"),
];
