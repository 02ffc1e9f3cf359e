//! Why a run stops, as a line on the error stream.

ghost use Rattle.std.specs.Prelude.{◌≡◌, IfOk};
ghost use Rattle.run_plan.specs.Line.{line_of};
ghost use Rattle.run_answers.specs.Puts.{TellsLine, Tells};
ghost use Rattle.run_answers.specs.ReadFailed.{read_failed_line};

use crate::answer::Stop;
use base_texts::{Name, Text};
use out_text::FaultText;
use run_outside::{Sink, SinkTarget, WriteError, put_all};
use run_plan::{Fault, tell};
use sim_base::NoMemory;
use std::alloc::Global;

/// Adds a line to the error stream.
fn put_line<K: Sink>(sink: &mut K, line: &Text, status: u8) -> u8
    ensures { TellsLine line.now status (K.content sink.old) (K.content sink.new) (K.tally sink.old) (K.tally sink.new) result }
{
    match put_all(sink, &SinkTarget::Err, line.as_bytes()) {
        Ok(()) => status,
        Err(WriteError::Failed) => 4,
        Err(WriteError::NoMemory) => 5,
    }
}

fn fault_text(alloc: Global, fault: &Fault) -> Result<Text, NoMemory>
    ensures { IfOk result (λ line. line ≡ line_of fault.now) }
{
    let mut line = Text::new(alloc);
    tell(alloc, &mut line, fault)?;
    Ok(line)
}

fn read_failed_text(alloc: Global, file: &Name) -> Result<Text, NoMemory>
    ensures { IfOk result (λ line. line ≡ read_failed_line file.now) }
{
    let mut line = Text::new(alloc);
    let text = FaultText::File {
        file: file.as_str(),
        what: "read failed",
    };
    out_text::fault_line(alloc, &mut line, &text)?;
    Ok(line)
}

/// Tells why a run stopped before its end, and gives the status.
pub fn tell_stop<K: Sink>(alloc: Global, sink: &mut K, stop: &Stop) -> u8
    ensures { Tells stop.now (K.content sink.old) (K.content sink.new) (K.tally sink.old) (K.tally sink.new) result }
{
    match stop {
        Stop::Refused(fault) => match fault_text(alloc, fault) {
            Ok(line) => put_line(sink, &line, 2),
            Err(NoMemory) => 5,
        },
        Stop::ReadFailed(file) => match read_failed_text(alloc, file) {
            Ok(line) => put_line(sink, &line, 3),
            Err(NoMemory) => 5,
        },
        Stop::WriteFailed => 4,
        Stop::NoMemory => 5,
    }
}
