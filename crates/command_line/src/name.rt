//! The options that take a value.

ghost use Rattle.std.specs.Prelude.{◌≡◌};
ghost use Rattle.command_line.specs.Command.{name_text};

/// An option that takes a value.
#[derive(Clone, Copy)]
pub enum OptionName {
    Seed,
    Parallelism,
    DataDirectory,
    StopTime,
    Budget,
    SelfLoad,
    ReadCapture,
}

impl OptionName {
    /// The name as it stands behind the two hyphens.
    pub fn text(self) -> &'static str
        ensures { result.now ≡ name_text self }
    {
        match self {
            OptionName::Seed => "seed",
            OptionName::Parallelism => "parallelism",
            OptionName::DataDirectory => "data-directory",
            OptionName::StopTime => "stop-time",
            OptionName::Budget => "budget",
            OptionName::SelfLoad => "self-load",
            OptionName::ReadCapture => "read-capture",
        }
    }
}
