//! What a capture tells.

ghost use Rattle.std.specs.Prelude.{◌≡◌, ◌++◌, OnOk, OnErr};
ghost use Rattle.out_text.specs.Captured.{packet_line, cut_line};

use crate::log::push_packet;
use crate::pushed::push_number;
use base_texts::Text;
use sim_base::{NoMemory, Packet, Time};
use std::alloc::Global;

/// Adds the line of a packet that was captured whole, or leaves the text as it was.
pub fn packet_line(
    alloc: Global,
    into: &mut Text,
    time: Time,
    packet: &Packet,
) -> Result<(), NoMemory>
    ensures ok { OnOk result (into.new ≡ into.old ++ packet_line time packet.now) }
    ensures err { OnErr result (into.new ≡ into.old) }
{
    let mut line = Text::new(alloc);
    push_number(&mut line, time.nanos)?;
    line.push_str(" ")?;
    push_packet(&mut line, packet)?;
    line.push_str("\n")?;
    into.push_str(line.as_str())
}

/// Adds the line of a packet of which `kept` of its `whole` bytes were captured, or leaves the text as
/// it was.
pub fn cut_line(
    alloc: Global,
    into: &mut Text,
    time: Time,
    kept: u64,
    whole: u32,
) -> Result<(), NoMemory>
    ensures ok { OnOk result (into.new ≡ into.old ++ cut_line time kept whole) }
    ensures err { OnErr result (into.new ≡ into.old) }
{
    let time = time.nanos;
    let line = format!(in alloc; "{time} cut {kept} {whole}\n")?;
    into.push_str(line.as_str())
}
