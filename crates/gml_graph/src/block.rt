//! Blocks: pairs with the rows that lie in them.

ghost use Rattle.std.specs.Prelude.{◌≡◌, ◌<◌, ◌∷◌, [], length, MatchOption};
ghost use Rattle.gml_graph.specs.Graph.{names, depth_of, is_block, inside, block, blocks, only, graph_rows, is_directed};
ghost use Rattle.gml_graph.specs.Steps.{Sees};

use crate::fault::{GmlFault, GmlKind};
use crate::outline::OutlineRow;
use crate::token::Key;
use crate::value::{check_list, truth};

/// The pairs that a graph is made of.
#[derive(Clone, Copy)]
pub enum Part {
    Graph,
    Directed,
    Node,
    Edge,
}

pub fn is_named(part: Part, key: Key) -> bool
    ensures { result ≡ names part key }
{
    match part {
        Part::Graph => matches!(key, Key::Graph),
        Part::Directed => matches!(key, Key::Directed),
        Part::Node => matches!(key, Key::Node),
        Part::Edge => matches!(key, Key::Edge),
    }
}

fn depth(part: Part) -> u8
    ensures { result ≡ depth_of part }
{
    match part {
        Part::Graph => 0,
        Part::Directed | Part::Node | Part::Edge => 1,
    }
}

fn is_part_of(part: Part, row: &OutlineRow) -> bool
    ensures { result ≡ is_block part row.now }
{
    row.depth == depth(part) && is_named(part, row.key)
}

/// The first of the blocks, and the rows behind its row.
pub fn next_block(part: Part, rows: &[OutlineRow]) -> Option<(&OutlineRow, &[OutlineRow])>
    ensures { MatchOption result (blocks part rows.now ≡ [])
        (λ x. (blocks part rows.now ≡ block x.0.now x.1.now ∷ blocks part x.1.now) × (length x.1.now < length rows.now)) }
{
    let mut rest = rows;
    while let [row, behind @ ..] = rest {
        if is_part_of(part, row) {
            return Some((row, behind));
        }
        rest = behind;
    }
    None
}

/// The rows at the front that lie deeper.
pub fn rows_inside(depth: u8, rows: &[OutlineRow]) -> &[OutlineRow]
    ensures { result.now ≡ inside depth rows.now }
{
    let mut count = 0;
    while count < rows.len() && depth < rows[count].depth {
        count += 1;
    }
    &rows[..count]
}

/// No block follows.
fn check_last(part: Part, rows: &[OutlineRow]) -> Result<(), GmlFault>
    ensures { result ≡ only tt (blocks part rows.now) }
{
    match next_block(part, rows) {
        None => Ok(()),
        Some((row, _)) => Err(GmlFault {
            line: row.line,
            kind: GmlKind::Duplicate,
        }),
    }
}

/// The rows in the one graph.
#[tactic(auto, unfolding(crate::specs::Graph::graph_rows))]
pub fn read_graph_rows(rows: &[OutlineRow]) -> Result<&[OutlineRow], GmlFault>
    ensures { Sees (λ found. found.now) result (graph_rows rows.now) }
{
    match next_block(Part::Graph, rows) {
        None => Err(GmlFault {
            line: 1,
            kind: GmlKind::Missing,
        }),
        Some((row, behind)) => {
            check_list(row.value, row.line)?;
            check_last(Part::Graph, behind)?;
            Ok(rows_inside(row.depth, behind))
        }
    }
}

/// Whether edges go one way alone.
#[tactic(auto, unfolding(crate::specs::Graph::is_directed))]
pub fn read_directed(rows: &[OutlineRow]) -> Result<bool, GmlFault>
    ensures { result ≡ is_directed rows.now }
{
    match next_block(Part::Directed, rows) {
        None => Ok(false),
        Some((row, behind)) => {
            let directed = truth(row.value, row.line)?;
            check_last(Part::Directed, behind)?;
            Ok(directed)
        }
    }
}
