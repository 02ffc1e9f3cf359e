//! The nodes of a graph.

ghost use Rattle.std.specs.Prelude.{◌≡◌, ◌++◌, ◌∷◌, [], List, IfOk, IfErr, length};
ghost use Rattle.gml_graph.specs.declared.graph.Node.{Node};
ghost use Rattle.gml_graph.specs.Steps.{Gives, through};
ghost use Rattle.gml_graph.specs.Graph.{Block, block, inside, knows, needed, within, node_attribute, node_row, new_node, finished_node, node_of, nodes_of};

use crate::block::{Part, next_block, rows_inside};
use crate::fault::{GmlError, GmlFault};
use crate::graph::{Node, Nodes};
use crate::outline::OutlineRow;
use crate::token::Key;
use crate::value::{bandwidth, check_list, check_once, check_room, id, required};
use std::alloc::Global;
use std::collections::BTreeSet;
use std::marker::Model;

/// The most nodes of a graph.
const MOST_NODES: usize = 4096;

/// What was read of a node.
#[derive(Clone, Copy)]
pub struct NodeDraft {
    pub id: Option<u32>,
    pub bandwidth_up: Option<u64>,
    pub bandwidth_down: Option<u64>,
    pub labelled: bool,
}

/// Nodes with the set of their ids.
#[derive(Drop)]
pub struct NodeTable {
    nodes: Vec<Node>,
    ids: BTreeSet<u32>,
}

impl Model for NodeTable {
    ghost use Rattle.std.specs.Prelude.{◌≡◌, ℕ, List};
    ghost use Rattle.std.specs.Ordering.{nat_cmp};
    ghost use Rattle.std.specs.BTreeSet.{contains};
    ghost use Rattle.gml_graph.specs.declared.graph.Node.{Node};

    ghost Value = { List Node };

    ghost use Rattle.gml_graph.specs.Graph.{knows};

    ghost view = { λ t. t.nodes.items };

    ghost invariant = { λ t. (id : ℕ) → contains nat_cmp t.ids id ≡ knows t.nodes.items id };
}

impl NodeTable {
    pub fn new(alloc: Global) -> Self
        ensures { result ≡ [] }
    {
        NodeTable {
            nodes: Vec::new(alloc),
            ids: BTreeSet::new(alloc),
        }
    }

    pub fn len(&self) -> usize
        ensures { result ≡ length self.now }
    {
        self.nodes.len()
    }

    pub fn knows(&self, id: u32) -> bool
        ensures { result ≡ knows self.now id }
    {
        self.ids.contains(&id)
    }

    fn with(self, node: Node) -> Result<Self, GmlError>
        ensures ok { IfOk result (λ table. table ≡ self ++ node ∷ []) }
        ensures err { IfErr result (λ e. e ≡ GmlError.NoMemory) }
    {
        let NodeTable { mut nodes, mut ids } = self;
        nodes.push(node)?;
        ids.insert(node.id)?;
        Ok(NodeTable { nodes, ids })
    }

    pub fn into_nodes(self) -> Nodes
        ensures { result ≡ self }
    {
        let NodeTable { nodes, ids: _ } = self;
        Nodes::from(nodes)
    }

    fn read_attribute(&self, draft: NodeDraft, row: &OutlineRow) -> Result<NodeDraft, GmlFault>
        ensures { result ≡ node_attribute row.now.key self.now draft row.now }
    {
        let mut draft = draft;
        match row.key {
            Key::Id => {
                check_once(draft.id.is_some(), row.line)?;
                let id = id(row.value, row.line)?;
                check_once(self.knows(id), row.line)?;
                draft.id = Some(id);
            }
            Key::HostBandwidthUp => {
                check_once(draft.bandwidth_up.is_some(), row.line)?;
                draft.bandwidth_up = Some(bandwidth(row.value, row.line)?);
            }
            Key::HostBandwidthDown => {
                check_once(draft.bandwidth_down.is_some(), row.line)?;
                draft.bandwidth_down = Some(bandwidth(row.value, row.line)?);
            }
            Key::Label => {
                check_once(draft.labelled, row.line)?;
                draft.labelled = true;
            }
            _ => {}
        }
        Ok(draft)
    }

    #[tactic(auto, unfolding(crate::specs::Graph::node_row))]
    fn read_row(&self, draft: NodeDraft, row: &OutlineRow) -> Result<NodeDraft, GmlFault>
        ensures { result ≡ node_row self.now draft row.now }
    {
        if row.depth == 2 {
            return self.read_attribute(draft, row);
        }
        Ok(draft)
    }

    fn read_rows(&self, rows: &[OutlineRow]) -> Result<NodeDraft, GmlFault>
        ensures { result ≡ through (node_row self.now) new_node rows.now }
    {
        let mut draft = NodeDraft {
            id: None,
            bandwidth_up: None,
            bandwidth_down: None,
            labelled: false,
        };
        for row in rows {
            draft = self.read_row(draft, row)?;
        }
        Ok(draft)
    }

    /// Reads the node of a row and of the rows inside it.
    #[tactic(auto, unfolding(crate::specs::Graph::node_of))]
    fn read_node(&self, row: &OutlineRow, behind: &[OutlineRow]) -> Result<Node, GmlFault>
        ensures { result ≡ node_of self.now (block row.now behind.now) }
    {
        check_list(row.value, row.line)?;
        check_room(MOST_NODES, self.len(), row.line)?;
        let draft = self.read_rows(rows_inside(row.depth, behind))?;
        Ok(Node {
            id: required(draft.id, row.line)?,
            bandwidth_up: draft.bandwidth_up,
            bandwidth_down: draft.bandwidth_down,
        })
    }
}

/// Reads all nodes.
#[tactic(auto, unfolding(crate::specs::Graph::nodes_of, crate::specs::Graph::add_node))]
pub fn read_nodes(alloc: Global, rows: &[OutlineRow]) -> Result<NodeTable, GmlError>
    ensures { Gives (λ table. table) result (nodes_of rows.now) }
{
    let mut table = NodeTable::new(alloc);
    let mut rest = rows;
    while let Some((row, behind)) = next_block(Part::Node, rest) {
        let node = table.read_node(row, behind)?;
        table = table.with(node)?;
        rest = behind;
    }
    Ok(table)
}
