//! The line of each fault.

ghost use Rattle.std.specs.Prelude.{◌≡◌, ◌++◌, Some, OnOk, OnErr, IfOk, codes, string_bytes};
ghost use Rattle.elf_load.specs.Fault as elf;
ghost use Rattle.gml_graph.specs.Fault as graph;
ghost use Rattle.yaml_tree.specs.Fault as tree;
ghost use Rattle.shd_config.specs.Fault as config;
ghost use Rattle.run_plan.specs.Fault as host_fault;
ghost use Rattle.out_text.specs.Faults.{at_line, text_name, told_at, file_line};
ghost use Rattle.run_plan.specs.Line.{words_line, capture_text, line_of};

use crate::fault::{Fault, HostFault};
use base_texts::{Name, Text};
use command_line::WordsFault;
use elf_load::ElfFault;
use gml_graph::GmlFault;
use out_text::{FaultText, fault_line};
use pcap_text::PcapFault;
use shd_config::ConfigFault;
use sim_base::NoMemory;
use std::alloc::{AllocError, Global};
use yaml_tree::YamlFault;

/// The kind of fault of a program's file, behind its format.
fn elf_text(alloc: Global, fault: ElfFault) -> Result<String, AllocError>
    ensures { IfOk result (λ text. string_bytes text ≡ codes "ELF " ++ elf.word_of fault) }
{
    let word = fault.word();
    format!(in alloc; "ELF {word}")
}

/// The kind of fault of a capture, and where it stands.
fn capture_text(alloc: Global, fault: PcapFault) -> Result<String, AllocError>
    ensures { IfOk result (λ text. string_bytes text ≡ capture_text fault) }
{
    let (kind, at) = (fault.kind.word(), fault.at);
    format!(in alloc; "capture {kind} at {at}")
}

/// The key of a host.
fn host_path(alloc: Global, host: &Name) -> Result<String, AllocError>
    ensures { IfOk result (λ path. string_bytes path ≡ codes "hosts." ++ host.now) }
{
    let host = host.as_str();
    format!(in alloc; "hosts.{host}")
}

fn words_line(alloc: Global, into: &mut Text, fault: WordsFault) -> Result<(), NoMemory>
    ensures ok { OnOk result (into.new ≡ into.old ++ words_line fault) }
    ensures err { OnErr result (into.new ≡ into.old) }
{
    match fault {
        WordsFault::Usage => fault_line(alloc, into, &FaultText::Usage),
        WordsFault::BadOption(name) => fault_line(alloc, into, &FaultText::BadOption(name.text())),
    }
}

fn whole_file_line(alloc: Global, into: &mut Text, file: &Name, what: &str) -> Result<(), NoMemory>
    ensures ok { OnOk result (into.new ≡ into.old ++ file_line file.now what.now) }
    ensures err { OnErr result (into.new ≡ into.old) }
{
    let file = file.as_str();
    fault_line(alloc, into, &FaultText::File { file, what })
}

fn tree_line(alloc: Global, into: &mut Text, file: &Name, fault: YamlFault) -> Result<(), NoMemory>
    ensures ok { OnOk result (into.new ≡ into.old ++ at_line file.now fault.line (tree.word_of fault.kind)) }
    ensures err { OnErr result (into.new ≡ into.old) }
{
    let text = FaultText::At {
        file: file.as_str(),
        inline: false,
        line: fault.line as u64,
        path: None,
        what: fault.kind.word(),
    };
    fault_line(alloc, into, &text)
}

/// The line of a fault at a key.
fn key_line<'a>(
    alloc: Global,
    into: &mut Text,
    file: &'a str,
    line: usize,
    key: &'a str,
    what: &'a str,
) -> Result<(), NoMemory>
    ensures ok { OnOk result (into.new ≡ into.old ++ at_line file.now line (told_at (Some key.now) what.now)) }
    ensures err { OnErr result (into.new ≡ into.old) }
{
    let line = line as u64;
    let path = Some(key);
    let text = FaultText::At {
        file,
        inline: false,
        line,
        path,
        what,
    };
    fault_line(alloc, into, &text)
}

fn config_line(
    alloc: Global,
    into: &mut Text,
    file: &Name,
    fault: &ConfigFault,
) -> Result<(), NoMemory>
    ensures ok { OnOk result (into.new ≡ into.old ++ at_line file.now fault.now.line (told_at (Some fault.now.path) (config.word_of fault.now.kind))) }
    ensures err { OnErr result (into.new ≡ into.old) }
{
    key_line(
        alloc,
        into,
        file.as_str(),
        fault.line,
        fault.path.as_str(),
        fault.kind.word(),
    )
}

fn graph_line(
    alloc: Global,
    into: &mut Text,
    file: &Name,
    inline: bool,
    fault: GmlFault,
) -> Result<(), NoMemory>
    ensures ok { OnOk result (into.new ≡ into.old ++ at_line (text_name file.now inline) fault.line (graph.word_of fault.kind)) }
    ensures err { OnErr result (into.new ≡ into.old) }
{
    let text = FaultText::At {
        file: file.as_str(),
        inline,
        line: fault.line,
        path: None,
        what: fault.kind.word(),
    };
    fault_line(alloc, into, &text)
}

fn host_line(
    alloc: Global,
    into: &mut Text,
    file: &Name,
    line: usize,
    host: &Name,
    kind: HostFault,
) -> Result<(), NoMemory>
    ensures ok { OnOk result (into.new ≡ into.old ++ at_line file.now line (told_at (Some (codes "hosts." ++ host.now)) (host_fault.word_of kind))) }
    ensures err { OnErr result (into.new ≡ into.old) }
{
    let path = host_path(alloc, host)?;
    key_line(alloc, into, file.as_str(), line, path.as_str(), kind.word())
}

/// Adds the line of a fault, or leaves the text as it was.
pub fn tell(alloc: Global, into: &mut Text, fault: &Fault) -> Result<(), NoMemory>
    ensures ok { OnOk result (into.new ≡ into.old ++ line_of fault.now) }
    ensures err { OnErr result (into.new ≡ into.old) }
{
    match fault {
        Fault::Words(fault) => words_line(alloc, into, *fault),
        Fault::NotFound(file) => whole_file_line(alloc, into, file, "not found"),
        Fault::TooLong(file) => whole_file_line(alloc, into, file, "too long"),
        Fault::Tree { file, fault } => tree_line(alloc, into, file, *fault),
        Fault::Config { file, fault } => config_line(alloc, into, file, fault),
        Fault::Graph {
            file,
            inline,
            fault,
        } => graph_line(alloc, into, file, *inline, *fault),
        Fault::Host {
            file,
            line,
            host,
            kind,
        } => host_line(alloc, into, file, *line, host, *kind),
        Fault::NoRoute { from, to } => {
            let (from, to) = (*from, *to);
            fault_line(alloc, into, &FaultText::NoRoute { from, to })
        }
        Fault::Elf(path, fault) => {
            let what = elf_text(alloc, *fault)?;
            whole_file_line(alloc, into, path, what.as_str())
        }
        Fault::Exists(directory) => whole_file_line(alloc, into, directory, "exists"),
        Fault::Capture(file, fault) => {
            let what = capture_text(alloc, *fault)?;
            whole_file_line(alloc, into, file, what.as_str())
        }
    }
}
