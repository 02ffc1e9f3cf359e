//! Nodes and edges.

ghost use Rattle.std.specs.Prelude.{◌≡◌, List};
ghost use Rattle.gml_graph.specs.declared.graph.Node.{Node};
ghost use Rattle.gml_graph.specs.Edges.{AreEdges};

use sim_base::Time;
use std::marker::Model;

/// A place of the network. The rates are in bits a second.
#[derive(Clone, Copy)]
pub struct Node {
    pub id: u32,
    pub bandwidth_up: Option<u64>,
    pub bandwidth_down: Option<u64>,
}

/// A way from one node to another. The reliability is in units of 10^-9: 10^9 loses nothing.
#[derive(Clone, Copy)]
pub struct Edge {
    pub source: u32,
    pub target: u32,
    pub latency: Time,
    pub reliability: u32,
}

/// Nodes, which contracts see as a list.
#[derive(Drop)]
pub struct Nodes {
    items: Vec<Node>,
}

impl Model for Nodes {
    ghost Value = { List Node };

    ghost view = { λ n. n.items.items };
}

impl Nodes {
    pub fn as_slice(&self) -> &[Node]
        ensures { result.now ≡ self.now }
    {
        self.items.as_slice()
    }

    /// Gives the nodes back without taking memory.
    pub fn into_vec(self) -> Vec<Node>
        ensures { result.items ≡ self }
    {
        let Nodes { items } = self;
        items
    }
}

impl From<Vec<Node>> for Nodes {
    ghost from_gives = { λ v n. n ≡ v.items };

    fn from(items: Vec<Node>) -> Nodes {
        Nodes { items }
    }
}

/// Edges, which contracts see as a list: at most 65,536, of 1 ns to 1 h and at most all that is sent each.
#[derive(Drop)]
pub struct Edges {
    items: Vec<Edge>,
}

impl Model for Edges {
    ghost use Rattle.std.specs.Prelude.{List};
    ghost use Rattle.gml_graph.specs.declared.graph.Edge.{Edge};
    ghost use Rattle.gml_graph.specs.Edges.{AreEdges};

    ghost Value = { List Edge };

    ghost view = { λ e. e.items.items };

    ghost invariant = { λ e. AreEdges e.items.items };
}

impl Edges {
    pub fn new(items: Vec<Edge>) -> Self
        requires { AreEdges items.items }
        ensures { result ≡ items.items }
    {
        Edges { items }
    }

    pub fn as_slice(&self) -> &[Edge]
        ensures items { result.now ≡ self.now }
        ensures edges { AreEdges self.now }
    {
        self.items.as_slice()
    }

    /// Gives the edges back without taking memory.
    pub fn into_vec(self) -> Vec<Edge>
        ensures { result.items ≡ self }
    {
        let Edges { items } = self;
        items
    }
}

/// The graph of a network. Where it isn't directed each edge goes both ways.
#[derive(Drop)]
pub struct Graph {
    pub directed: bool,
    pub nodes: Nodes,
    pub edges: Edges,
}
