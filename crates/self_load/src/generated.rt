//! A self-load as a text of a configuration and files.

ghost use Rattle.std.specs.Prelude.{◌≡◌, ◌≤◌, Ok, IfOk};
ghost use Rattle.sim_base.specs.Limits.{most_ring_hosts};
ghost use Rattle.gml_graph.specs.Gml.{graph};
ghost use Rattle.run_plan.specs.SelfLoad.{self_load_graph};
ghost use Rattle.self_load.specs.Means.{AreFilesOf, Means};

use crate::config_text::config_text;
use crate::files::{File, Files};
use crate::graph_text::graph_file;
use base_texts::{Name, Text};
use run_plan::ring_bytes;
use sim_base::{Bytes, NoMemory};
use std::alloc::Global;

/// A configuration and the files that it names.
#[derive(Drop)]
pub struct SelfLoad {
    /// The text of the configuration.
    pub config: Text,
    /// `graph.gml`, the graph, and `ring`, the guest.
    pub files: Files,
}

/// The files of a self-load.
fn files_of(alloc: Global, hosts: u32) -> Result<Files, NoMemory>
    requires some { 2 ≤ hosts }
    requires few { hosts ≤ most_ring_hosts }
    ensures { IfOk result (AreFilesOf hosts) }
{
    let graph = graph_file(alloc, hosts)?;
    let mut files = Vec::new(alloc);
    files.push(File {
        name: Name::from_str(alloc, "graph.gml")?,
        bytes: Bytes::from_slice(alloc, graph.as_bytes())?,
    })?;
    files.push(File {
        name: Name::from_str(alloc, "ring")?,
        bytes: Bytes::from(ring_bytes(alloc)?),
    })?;
    Ok(Files::from(files))
}

/// The experiment of `--self-load`, with this number of hosts.
pub fn generate(alloc: Global, hosts: u32) -> Result<SelfLoad, NoMemory>
    requires some { 2 ≤ hosts }
    requires few { hosts ≤ most_ring_hosts }
    ensures { IfOk result (Means hosts) }
{
    Ok(SelfLoad {
        config: config_text(alloc, hosts)?,
        files: files_of(alloc, hosts)?,
    })
}
