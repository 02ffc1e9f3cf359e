//! What a run begins with: the rows of hosts and the net of its plan, and what is asked of the run.

ghost use Rattle.std.specs.Prelude.{◌≡◌, IfOk};
ghost use Rattle.run_plan.specs.Limits.{KeepsToLimits};
ghost use Rattle.run_plan.specs.Names.{AreRowsApart};
ghost use Rattle.run_plan.specs.Routed.{IsRouted};
ghost use Rattle.opened_run.specs.Opened.{Opens, HasOpened};

use base_texts::Name;
use host_link::{Images, Net, Nodes};
use host_rows::Row;
use plan_rows::{cut_lookahead, known_of, nodes_of, rows_of};
use run_plan::{Plan, Run, Settings};
use shd_values::Texts;
use sim_base::{NoMemory, Time};
use std::alloc::Global;

/// A run before its first event.
#[derive(Drop)]
pub struct Opened {
    /// The directory that it writes to.
    pub directory: Name,
    /// The paths of the keys of its configuration that have no effect.
    pub notes: Texts,
    /// Whether the counts of packets are told at the end.
    pub is_self_load: bool,
    /// Whether what became of each connection is told at the end.
    pub streams: bool,
    /// How many workers are asked for; 0 stands for as many as there are cores.
    pub parallelism: u32,
    /// No packet from one host to another takes less time. With one host there is none.
    pub lookahead: Option<Time>,
    /// The hosts in their order.
    pub rows: Vec<Row>,
    pub net: Net,
}

/// What a run begins with.
pub fn open(alloc: Global, run: Run) -> Result<Opened, NoMemory>
    requires limits { KeepsToLimits run.plan }
    requires routed { IsRouted run.plan }
    requires apart { AreRowsApart run.plan }
    ensures opens { IfOk result (Opens run) }
    ensures opened { IfOk result HasOpened }
{
    let Run {
        plan,
        budget,
        is_self_load,
        streams,
    } = run;
    let Plan {
        settings,
        rows: hosts,
        routes,
        lookahead,
        images,
        hosts_text,
    } = plan;
    let rows = rows_of(alloc, &settings, hosts.as_slice())?;
    let nodes = nodes_of(alloc, hosts.as_slice())?;
    let known = known_of(alloc, hosts.as_slice(), hosts_text)?;
    let Settings {
        stop_time,
        bootstrap_end_time,
        data_directory,
        notes,
        parallelism,
        seed: _,
        router_queue: _,
    } = settings;
    let net = Net {
        routes,
        known,
        nodes: Nodes::from(nodes),
        bootstrap_end: bootstrap_end_time,
        stop: stop_time,
        budget: u64::from(budget),
        images: Images::from(images.into_vec()),
    };
    Ok(Opened {
        directory: data_directory,
        notes,
        is_self_load,
        streams,
        parallelism,
        lookahead: cut_lookahead(lookahead),
        rows,
        net,
    })
}

/// What a run begins with, and the name of its directory.
pub fn prepare(alloc: Global, run: Run) -> Result<(Opened, Name), NoMemory>
    requires limits { KeepsToLimits run.plan }
    requires routed { IsRouted run.plan }
    requires apart { AreRowsApart run.plan }
    ensures opens { IfOk result (λ p. Opens run p.0) }
    ensures opened { IfOk result (λ p. HasOpened p.0) }
    ensures directory { IfOk result (λ p. p.1 ≡ p.0.directory) }
{
    let opened = open(alloc, run)?;
    let directory = Name::from_str(alloc, opened.directory.as_str())?;
    Ok((opened, directory))
}
