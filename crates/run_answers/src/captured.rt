//! The records of a capture as lines.

ghost use Rattle.std.specs.Prelude.{◌≡◌, ◌++◌, Option, IfSome, IfOk, OnOk};
ghost use Rattle.run_outside.specs.Tally.{CountsWrites};
ghost use Rattle.sim_base.specs.declared.packet.Packet.{Packet};
ghost use Rattle.pcap_text.specs.Packets.{IsPacketIn};
ghost use Rattle.run_answers.specs.Answers.{IsSmall};
ghost use Rattle.run_answers.specs.Captured.{line_with, AreLinesOf};
ghost use Rattle.run_answers.specs.Puts.{ListsCapture};

use crate::answer::Answer;
use base_texts::Text;
use out_text::{cut_line, packet_line};
use pcap_text::{Capture, Record};
use run_outside::{Sink, SinkTarget, WriteError, put_all};
use sim_base::NoMemory;
use std::alloc::Global;

/// Adds the line of a record.
fn record_line(alloc: Global, into: &mut Text, taken: &Record) -> Result<(), NoMemory>
    ensures { OnOk result ((found : Option Packet) × IsPacketIn taken.now found × (into.new ≡ into.old ++ line_with taken.now found)) }
{
    match taken.packet(alloc)? {
        Some(packet) => packet_line(alloc, into, taken.time, &packet),
        None => {
            let kept = taken.kept.len() as u64;
            cut_line(alloc, into, taken.time, kept, taken.whole)
        }
    }
}

fn capture_text(alloc: Global, capture: &Capture) -> Result<Text, NoMemory>
    ensures { IfOk result (λ lines. AreLinesOf capture.now.records lines) }
{
    let mut lines = Text::new(alloc);
    for taken in capture.records.as_slice() {
        record_line(alloc, &mut lines, taken)?;
    }
    Ok(lines)
}

/// Puts the lines of a capture on the output.
pub fn list_capture<K: Sink>(
    alloc: Global,
    sink: &mut K,
    capture: &Capture,
) -> Result<Answer, WriteError>
    ensures told { IfSome (K.content sink.old) (λ c. ListsCapture capture.now c (K.content sink.new) result) }
    ensures status { IfOk result IsSmall }
    ensures count { CountsWrites result (K.tally sink.old) (K.tally sink.new) }
{
    let lines = capture_text(alloc, capture)?;
    put_all(sink, &SinkTarget::Out, lines.as_bytes())?;
    Ok(Answer::Status(0))
}
