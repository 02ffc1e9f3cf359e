//! Listening.

use super::Act::*;
use super::Row;
use crate::segments::Line;

/// A listener, and segments of no connection.
pub const LISTENING: [Row; 39] = [
    // A queue of one, and then of two. A RST in SYN-RECEIVED makes room; text comes before the
    // connection is accepted.
    Row(Begins(-1), "0 0"),
    Row(
        Comes(80, Line(2, 300, 0, 1_000, 0)),
        "18 2984901263 301 65535 0, 1 0",
    ),
    Row(
        Comes(80, Line(2, 300, 0, 1_000, 0)),
        "18 2984901263 301 65535 0, 0 0",
    ),
    Row(Comes(81, Line(2, 300, 0, 1_000, 0)), "0 0"),
    Row(
        Comes(80, Line(16, 301, 2_984_901_268, 9, 0)),
        "4 2984901268 0 65535 0, 0 0",
    ),
    Row(Comes(80, Line(4, 301, 0, 0, 0)), "0 0"),
    Row(
        Comes(81, Line(2, 300, 0, 1_000, 0)),
        "18 663272398 301 65535 0, 1 0",
    ),
    Row(
        Comes(81, Line(16, 301, 663_272_399, 9, 3)),
        "16 663272399 304 65532 0, 0 1",
    ),
    Row(Comes(80, Line(2, 300, 0, 1_000, 0)), "0 1"),
    Row(Keeps(80), "false"),
    Row(Keeps(81), "true"),
    Row(Holds(2), "0 1"),
    Row(
        Comes(80, Line(2, 300, 0, 1_000, 0)),
        "18 2180045567 301 65535 0, 1 1",
    ),
    Row(Closes, "4 663272399 0 65535 0, 4 2180045568 0 65535 0, 0 0"),
    Row(Accepts, "none"),
    // The SYN and ACK goes out seven times, and nothing is left of the record.
    Row(Begins(5), "0 0"),
    Row(
        Comes(80, Line(2, 300, 0, 1_000, 0)),
        "18 2984901263 301 65535 0, 1 0",
    ),
    Row(Expires(80), "18 2984901263 301 65535 0, 2 0"),
    Row(Expires(80), "18 2984901263 301 65535 0, 4 0"),
    Row(Expires(80), "18 2984901263 301 65535 0, 8 0"),
    Row(Expires(80), "18 2984901263 301 65535 0, 16 0"),
    Row(Expires(80), "18 2984901263 301 65535 0, 32 0"),
    Row(Expires(80), "18 2984901263 301 65535 0, 60 0"),
    Row(Expires(80), "0 0"),
    Row(Keeps(80), "false"),
    // The connection that became ESTABLISHED first is accepted first, whenever its SYN came, and
    // also where it has ended since.
    Row(Begins(128), "0 0"),
    Row(
        Comes(80, Line(2, 300, 0, 1_000, 0)),
        "18 2984901263 301 65535 0, 1 0",
    ),
    Row(
        Comes(81, Line(2, 300, 0, 1_000, 0)),
        "18 663272398 301 65535 0, 1 0",
    ),
    Row(Comes(81, Line(16, 301, 663_272_399, 9, 0)), "0 1"),
    Row(Comes(80, Line(16, 301, 2_984_901_264, 9, 0)), "0 2"),
    Row(Comes(81, Line(4, 301, 0, 0, 0)), "0 2"),
    Row(Accepts, "81 Ended"),
    Row(Accepts, "80 Established"),
    Row(Accepts, "none"),
    // Segments of no connection.
    Row(Meets(Line(4, 9, 0, 0, 0)), "0 0"),
    Row(Meets(Line(16, 9, 70, 0, 0)), "4 70 0 65535 0, 0 0"),
    Row(Meets(Line(17, 9, 70, 5, 0)), "4 70 0 65535 0, 0 0"),
    Row(Meets(Line(2, 9, 0, 0, 0)), "20 0 10 65535 0, 0 0"),
    Row(
        Meets(Line(1, 4_294_967_295, 0, 0, 3)),
        "20 0 3 65535 0, 0 0",
    ),
];
