//! What calls of a sink have answered.

ghost use Rattle.std.specs.Prelude.{◌≡◌};
ghost use Rattle.run_outside.specs.Tally.{no_calls_yet, CountsCall, EndsByError, one_more};

use crate::sink::WriteError;

/// Counts of a sink's calls. Each stays where it is at the end of its 64 bits.
#[derive(Clone, Copy)]
pub struct Tally {
    /// How often the outside has failed.
    pub faults: u64,
    /// How many calls have answered an error, want of memory among them.
    pub errors: u64,
    /// How many calls were made since the last that answered an error.
    pub since: u64,
}

impl Tally {
    pub fn new() -> Tally
        ensures { result ≡ no_calls_yet }
    {
        Tally {
            faults: 0,
            errors: 0,
            since: 0,
        }
    }

    /// Counts a call that answered this.
    pub fn count<T>(&mut self, answer: &Result<T, WriteError>)
        ensures { CountsCall answer.now self.old self.new }
    {
        match answer {
            Ok(_) => self.since = self.since.saturating_add(1),
            Err(WriteError::Failed) => {
                self.faults = self.faults.saturating_add(1);
                self.count_error();
            }
            Err(WriteError::NoMemory) => self.count_error(),
        }
    }

    fn count_error(&mut self)
        ensures faults { self.new.faults ≡ self.old.faults }
        ensures errors { EndsByError self.old.errors self.new }
    {
        self.errors = self.errors.saturating_add(1);
        self.since = 0;
    }
}
