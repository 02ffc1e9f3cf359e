//! The pairs of an outline that are asked for: the others are read and not kept.

ghost use Rattle.std.specs.Prelude.{◌≡◌, ◌≤◌};
ghost use Rattle.gml_graph.specs.inside.Asked.{is_attribute, is_asked, is_kept, reach_behind};

use crate::block::{Part, is_named};
use crate::outline::OutlineRow;
use crate::token::Key;

/// A key that a node or an edge may have.
fn is_attribute(key: Key) -> bool
    ensures { result ≡ is_attribute key }
{
    !matches!(
        key,
        Key::Graph | Key::Directed | Key::Node | Key::Edge | Key::Other
    )
}

fn is_asked(depth: u8, key: Key) -> bool
    ensures { result ≡ is_asked depth key }
{
    match depth {
        0 => is_named(Part::Graph, key),
        1 => {
            is_named(Part::Directed, key) || is_named(Part::Node, key) || is_named(Part::Edge, key)
        }
        2 => is_attribute(key),
        _ => false,
    }
}

/// Whether a pair is asked for, and every list around it too.
pub fn is_kept(reach: u8, row: &OutlineRow) -> bool
    ensures { result ≡ is_kept reach row.now }
{
    row.depth <= reach && is_asked(row.depth, row.key)
}

/// How deep a pair behind this one may lie that is kept.
pub fn reach_behind(reach: u8, row: &OutlineRow) -> u8
    requires { row.now.depth ≤ 16 }
    ensures { result ≡ reach_behind reach row.now }
{
    if is_kept(reach, row) {
        row.depth + 1
    } else {
        reach.min(row.depth)
    }
}
