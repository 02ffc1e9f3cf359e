//! What the hosts gain in a round.
ghost use Rattle.std.specs.Prelude.{◌≡◌, ◌++◌, List};
ghost use Rattle.host_link.specs.declared.line.Line.{Line as LineRecord};
ghost use Rattle.host_link.specs.Logs.{kept_lines};
ghost use Rattle.round_parts.specs.Counts.{counts_of};

use crate::world::took::Took;
use host_link::Logged;
use round_parts::Counts;
use run_files::Written;

/// What each host's processes wrote, by the host's number, in order; the lines of the packet log, in
/// the order of the events that they are from; and the hosts that each worker took, in order.
#[derive(Drop)]
pub(crate) struct Gained {
    pub(crate) outputs: Written,
    pub(crate) lines: Vec<Logged>,
    pub(crate) took: Took,
}

impl Gained {
    /// Counts the lines that the round gained.
    pub(crate) fn count_into(&self, counts: &mut Counts)
        ensures { (log : List LineRecord) → counts.old ≡ counts_of log → counts.new ≡ counts_of (log ++ kept_lines self.now.lines.items) }
    {
        counts.count_all(self.lines.as_slice());
    }
}
