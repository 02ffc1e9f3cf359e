//! What walks cost.

ghost use Rattle.std.specs.Prelude.{◌≡◌, ◌+◌, ◌<◌, ◌≤◌, ◌^◌, ◌⊎◌};
ghost use Rattle.gml_graph.specs.Edges.{lossless};
ghost use Rattle.net_routes.specs.Cost.{nothing, and_then, IsAsGood};

/// What a walk costs: the sum of its latencies in nanoseconds, and what arrives of 10^9 that are
/// sent.
#[derive(Clone, Copy, PartialEq, Eq, Hash)]
pub struct Cost {
    pub latency: u64,
    pub reliability: u32,
}

/// The cost of no hop.
pub fn no_cost() -> Cost
    ensures { result ≡ nothing }
{
    Cost {
        latency: 0,
        reliability: 1_000_000_000,
    }
}

/// The cost of a walk and then of a hop.
pub fn extended(cost: Cost, hop: Cost) -> Cost
    requires room { cost.latency + hop.latency < 2 ^ 64 }
    requires before { cost.reliability ≤ lossless }
    requires part { hop.reliability ≤ lossless }
    ensures { result ≡ and_then cost hop }
{
    let arrived = u64::from(cost.reliability) * u64::from(hop.reliability) / 1_000_000_000;
    Cost {
        latency: cost.latency + hop.latency,
        reliability: arrived as u32,
    }
}

/// The better of two costs: that of less latency, or else that with which more arrives.
pub fn better(a: Cost, b: Cost) -> Cost
    ensures either { (result ≡ a) ⊎ (result ≡ b) }
    ensures first { IsAsGood result a }
    ensures second { IsAsGood result b }
{
    if a.latency < b.latency {
        return a;
    }
    if b.latency < a.latency {
        return b;
    }
    if a.reliability < b.reliability {
        return b;
    }
    a
}
