//! What a plan comes to, and why a run stops before its end.

ghost use Rattle.std.specs.Prelude.{◌≡◌};
ghost use Rattle.run_answers.specs.Answers.{ended};

use base_texts::Name;
use run_outside::WriteError;
use run_plan::{Fault, ReadStop};

/// What a plan comes to, where no write fails and memory suffices.
#[derive(Drop)]
pub enum Answer {
    /// It was carried out, and this is the status.
    Status(u8),
    /// Its data directory is there, and is this.
    Exists(Name),
}

/// Why a run stops before its end.
#[derive(Drop)]
pub enum Stop {
    Refused(Fault),
    /// A read of this file failed.
    ReadFailed(Name),
    WriteFailed,
    NoMemory,
}

impl From<ReadStop> for Stop {
    ghost use Rattle.run_answers.specs.Answers.{of_reading};

    ghost from_gives = { λ read s. s ≡ of_reading read };

    fn from(stop: ReadStop) -> Stop {
        match stop {
            ReadStop::Refused(fault) => Stop::Refused(fault),
            ReadStop::ReadFailed(file) => Stop::ReadFailed(file),
            ReadStop::NoMemory => Stop::NoMemory,
        }
    }
}

/// The status of a plan that was carried out, or why it stopped.
pub fn ended(answer: Result<Answer, WriteError>) -> Result<u8, Stop>
    ensures { result ≡ ended answer }
{
    match answer {
        Ok(Answer::Status(status)) => Ok(status),
        Ok(Answer::Exists(directory)) => Err(Stop::Refused(Fault::Exists(directory))),
        Err(WriteError::Failed) => Err(Stop::WriteFailed),
        Err(WriteError::NoMemory) => Err(Stop::NoMemory),
    }
}
