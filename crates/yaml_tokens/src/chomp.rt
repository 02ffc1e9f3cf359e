//! The line ends that a literal block keeps.

/// Which of the line ends at a block's end are kept.
#[derive(Clone, Copy)]
pub enum Chomp {
    /// `|`: one.
    Clip,
    /// `|-`: none.
    Strip,
    /// `|+`: all.
    Keep,
}
