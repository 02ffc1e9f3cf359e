//! What the packet log comes to.
ghost use Rattle.std.specs.Prelude.{◌≡◌, ◌++◌, ◌∷◌, [], List};
ghost use Rattle.host_link.specs.declared.line.Line.{Line as LineRecord};
ghost use Rattle.host_link.specs.Logs.{kept_lines};
ghost use Rattle.round_parts.specs.Counts.{counts_of};

use host_link::Logged;
use sim_base::Act;

/// How many lines of the packet log tell `send`, `lost` and `recv`. A count stands still at
/// 2^64 - 1.
#[derive(Clone, Copy)]
pub struct Counts {
    pub sent: u64,
    pub lost: u64,
    pub received: u64,
}

impl Counts {
    /// The counts of an empty log.
    pub fn new() -> Counts
        ensures { result ≡ counts_of [] }
    {
        Counts {
            sent: 0,
            lost: 0,
            received: 0,
        }
    }

    /// Counts one more line of a log.
    fn count(&mut self, line: &Logged)
        ensures { (log : List LineRecord) → self.old ≡ counts_of log → self.new ≡ counts_of (log ++ line.now.line ∷ []) }
    {
        match line.line.act {
            Act::Send => self.sent = self.sent.saturating_add(1),
            Act::Lost => self.lost = self.lost.saturating_add(1),
            Act::Recv => self.received = self.received.saturating_add(1),
            _ => {}
        }
    }

    /// Counts more lines of a log.
    pub fn count_all(&mut self, lines: &[Logged])
        ensures { (log : List LineRecord) → self.old ≡ counts_of log → self.new ≡ counts_of (log ++ kept_lines lines.now) }
    {
        for line in lines {
            self.count(line);
        }
    }
}
