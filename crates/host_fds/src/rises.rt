//! How often objects became ready.

ghost use Rattle.std.specs.Prelude.{◌≡◌};
ghost use Rattle.host_fds.specs.Rises as spec;

use sim_base::{POLLERR, POLLHUP, POLLIN, POLLOUT, POLLRDHUP};

/// How often each bit of `poll(2)` came to hold for an object, `POLLRDHUP` (`peer_end`) among them. A count stands
/// still at its greatest value.
#[derive(Clone, Copy)]
pub struct Rises {
    pub input: u64,
    pub output: u64,
    pub error: u64,
    pub hangup: u64,
    pub peer_end: u64,
}

/// Whether a bit is among some.
pub(crate) fn has_bit(bit: u16, bits: u16) -> bool
    ensures { result ≡ spec.has_bit bit bits }
{
    bits & bit != 0
}

fn rose(bit: u16, before: u16, after: u16) -> bool
    ensures { result ≡ spec.rose bit before after }
{
    has_bit(bit, after) && !has_bit(bit, before)
}

fn counted(rose: bool, count: u64) -> u64
    ensures { result ≡ spec.counted rose count }
{
    if rose { count.saturating_add(1) } else { count }
}

impl Rises {
    /// Those of an object that was made.
    pub fn none() -> Rises
        ensures { result ≡ spec.no_rises }
    {
        Rises {
            input: 0,
            output: 0,
            error: 0,
            hangup: 0,
            peer_end: 0,
        }
    }

    /// Those after an act, by the bits that held before and after it. `POLLIN` rises also where the act put
    /// something in.
    pub fn moved(self, before: u16, after: u16, put_in: bool) -> Rises
        ensures { result ≡ spec.moved before after put_in self }
    {
        Rises {
            input: counted(put_in || rose(POLLIN, before, after), self.input),
            output: counted(rose(POLLOUT, before, after), self.output),
            error: counted(rose(POLLERR, before, after), self.error),
            hangup: counted(rose(POLLHUP, before, after), self.hangup),
            peer_end: counted(rose(POLLRDHUP, before, after), self.peer_end),
        }
    }
}
