//! The text that shows a configuration.

ghost use Rattle.std.specs.Prelude.{◌≡◌, ◌++◌, codes, string_bytes, IfOk, OnOk, OnErr};
ghost use Rattle.config_lines.specs.Shown.{shown_general, shown_file, shown_graph, shown_truth, shown_rule, shown_network, shown};

mod host;
mod process;
mod quoted;
mod value;

use base_texts::Text;
use host::hosts_string;
use net_iface::QueueRule;
use quoted::quoted;
use shd_config::{Config, GraphSource};
use sim_base::NoMemory;
use std::alloc::{AllocError, Global};
use value::time_string;

fn general_string(alloc: Global, config: &Config) -> Result<String, AllocError>
    ensures { IfOk result (λ s. string_bytes s ≡ shown_general config.now) }
{
    let stop = time_string(alloc, config.stop_time)?;
    let (seed, parallelism) = (config.seed, config.parallelism);
    let bootstrap = time_string(alloc, config.bootstrap_end_time)?;
    let directory = quoted(alloc, config.data_directory.as_str())?;
    format!(in alloc;
        "general:\n  stop_time: {stop}\n  seed: {seed}\n  parallelism: {parallelism}\n  bootstrap_end_time: {bootstrap}\n  data_directory: {directory}\n"
    )
}

/// A file, in flow form.
fn file_string(alloc: Global, name: &str) -> Result<String, AllocError>
    ensures { IfOk result (λ s. string_bytes s ≡ shown_file name.now) }
{
    let name = quoted(alloc, name)?;
    format!(in alloc; "{{path: {name}}}")
}

fn graph_string(alloc: Global, graph: &GraphSource) -> Result<String, AllocError>
    ensures { IfOk result (λ s. string_bytes s ≡ shown_graph graph.now) }
{
    match graph {
        GraphSource::OneGbitSwitch => String::from_str(alloc, "    type: 1_gbit_switch\n"),
        GraphSource::Inline(text) => {
            let text = quoted(alloc, text.as_str())?;
            format!(in alloc; "    type: gml\n    inline: {text}\n")
        }
        GraphSource::File(name) => {
            let file = file_string(alloc, name.as_str())?;
            format!(in alloc; "    type: gml\n    file: {file}\n")
        }
    }
}

fn truth_word(truth: bool) -> &'static str
    ensures { result.now ≡ shown_truth truth }
{
    if truth { "true" } else { "false" }
}

fn rule_word(rule: QueueRule) -> &'static str
    ensures { result.now ≡ shown_rule rule }
{
    match rule {
        QueueRule::Fifo => "fifo",
        QueueRule::Codel => "codel",
    }
}

fn network_string(alloc: Global, config: &Config) -> Result<String, AllocError>
    ensures { IfOk result (λ s. string_bytes s ≡ shown_network config.now) }
{
    let graph = graph_string(alloc, &config.graph)?;
    let shortest = truth_word(config.use_shortest_path);
    let queue = rule_word(config.router_queue);
    format!(in alloc;
        "network:\n  graph:\n{graph}  use_shortest_path: {shortest}\n  router_queue: {queue}\n"
    )
}

#[tactic(auto, unfolding(crate::specs::Shown::shown))]
fn config_string(alloc: Global, config: &Config) -> Result<String, AllocError>
    ensures { IfOk result (λ s. string_bytes s ≡ shown config.now) }
{
    let general = general_string(alloc, config)?;
    let network = network_string(alloc, config)?;
    let hosts = hosts_string(alloc, config.hosts.as_slice())?;
    format!(in alloc; "{general}{network}hosts:\n{hosts}")
}

/// Adds the text that shows a configuration: every key that has an effect, with the defaults worked in. On want of memory the text
/// is as it was.
pub fn show_into(config: &Config, into: &mut Text) -> Result<(), NoMemory>
    ensures ok { OnOk result (into.new ≡ into.old ++ shown config.now) }
    ensures err { OnErr result (into.new ≡ into.old) }
{
    let text = config_string(config.hosts.allocator(), config)?;
    into.push_str(text.as_str())
}
