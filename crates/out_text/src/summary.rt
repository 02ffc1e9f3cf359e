//! What a run sent, lost and received.

ghost use Rattle.std.specs.Prelude.{◌≡◌, ◌++◌, OnOk, OnErr};
ghost use Rattle.out_text.specs.Summary.{summary_line};

use base_texts::Text;
use sim_base::NoMemory;
use std::alloc::Global;

/// How many hosts a run had, and how many lines of its log tell `send`, `lost` and `recv`. A count
/// stands still at 2^64 - 1.
#[derive(Clone, Copy)]
pub struct Summary {
    pub hosts: u32,
    pub sent: u64,
    pub lost: u64,
    pub received: u64,
}

/// Adds the line of a summary, or leaves the text as it was.
pub fn summary_line(alloc: Global, into: &mut Text, summary: &Summary) -> Result<(), NoMemory>
    ensures ok { OnOk result (into.new ≡ into.old ++ summary_line summary.now) }
    ensures err { OnErr result (into.new ≡ into.old) }
{
    let (hosts, sent) = (summary.hosts, summary.sent);
    let (lost, received) = (summary.lost, summary.received);
    let line = format!(in alloc; "hosts {hosts} sent {sent} lost {lost} received {received}\n")?;
    into.push_str(line.as_str())
}
