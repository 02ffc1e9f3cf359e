//! Duplicate acknowledgements and what they tell (RFC 5681, sections 2 and 3.2).

use crate::connection::conn::Conn;
use crate::connection::effects::Draft;
use crate::segment::{Congestion, Header};
use sim_base::NoMemory;

impl Conn {
    ghost use Rattle.std.specs.Prelude.{◌≡◌, ◌-◌, length, OnOk};
    ghost use Rattle.sock_tcp.specs.connection.Tcb.{Tcb};
    ghost use Rattle.sock_tcp.specs.connection.Congestion.{flight_of, tells_loss, after_duplicate, is_duplicate};
    ghost use Rattle.sock_tcp.specs.connection.Arrival.{duplicate_heard, notices};
    ghost use Rattle.sock_tcp.specs.connection.StandsFor.{StandsFor, Does};

    /// Whether a segment that acknowledges as many more as `by` is a duplicate acknowledgement.
    #[tactic(auto, unfolding(crate::specs::connection::Congestion::is_duplicate))]
    pub(crate) fn is_duplicate(&self, by: u32, header: Header, text: &[u8]) -> bool
        ensures { (r : Tcb) → StandsFor self.now r → result ≡ is_duplicate by header (length text.now) r }
    {
        by == 0
            && self.highest > 0
            && text.is_empty()
            && !header.syn
            && !header.fin
            && header.window == self.control.window
    }

    /// Whether the next duplicate is the third, and tells of a loss that wasn't noticed yet.
    fn tells_loss(&self) -> bool
        ensures { (r : Tcb) → StandsFor self.now r → result ≡ tells_loss r.una (flight_of r) }
    {
        self.duplicates == 2 && self.recover == 0
    }

    /// The window after a duplicate, which tells of a loss or doesn't.
    fn congestion_after(&self, lost: bool) -> Congestion
        ensures { (r : Tcb) → StandsFor self.now r → lost ≡ tells_loss r.una (flight_of r)
            → result ≡ (after_duplicate r.una r.highest (flight_of r)).congestion }
    {
        if lost {
            Congestion::halved(self.highest)
        } else {
            self.control.congestion
        }
    }

    /// How far the highest number is once a duplicate came, where it tells of a loss.
    fn recover_after(&self, lost: bool) -> usize
        ensures { (r : Tcb) → StandsFor self.now r → lost ≡ tells_loss r.una (flight_of r)
            → result ≡ (after_duplicate r.una r.highest (flight_of r)).recover - r.una }
    {
        if lost { self.highest } else { self.recover }
    }

    /// A duplicate is counted, and where it tells of a loss the window is halved.
    fn count_duplicate(&mut self, lost: bool)
        ensures { (r : Tcb) → StandsFor self.old r → lost ≡ tells_loss r.una (flight_of r)
            → StandsFor self.new (duplicate_heard r) }
    {
        let congestion = self.congestion_after(lost);
        let recover = self.recover_after(lost);
        self.control.congestion = congestion;
        self.duplicates = self.duplicates.saturating_add(1);
        self.recover = recover;
    }

    /// Hears a duplicate acknowledgement, if it is one.
    #[tactic(auto, unfolding(crate::specs::connection::Arrival::notices, crate::specs::connection::Arrival::hears_duplicate))]
    pub(crate) fn notice(&mut self, draft: &mut Draft, duplicate: bool) -> Result<(), NoMemory>
        ensures { OnOk result (Does (notices duplicate) self.old draft.old self.new draft.new) }
    {
        if duplicate {
            let lost = self.tells_loss();
            self.count_duplicate(lost);
            if lost {
                self.send_one(draft)?;
            }
        }
        Ok(())
    }
}
