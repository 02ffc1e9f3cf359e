//! What a process and the timer do to a connection (RFC 9293, sections 3.10.2 to 3.10.4 and
//! 3.10.8).

ghost use Rattle.std.specs.Prelude.{◌≡◌};
ghost use Rattle.sock_tcp.specs.connection.Process.{raises_window};

use crate::connection::conn::Conn;
use crate::connection::effects::{Draft, Shut};
use sim_base::{MAX_SEGMENT, NoMemory};

fn raises_window(before: u16, after: u16) -> bool
    ensures { result ≡ raises_window before after }
{
    usize::from(before) < MAX_SEGMENT && MAX_SEGMENT <= usize::from(after)
}

impl Conn {
    ghost use Rattle.std.specs.Prelude.{◌≡◌, ◌++◌, length, drop, false, nat_lt, OnOk};
    ghost use Rattle.sock_tcp.specs.connection.Tcb.{Tcb, unread, with_control};
    ghost use Rattle.sock_tcp.specs.segment.State.{is_opening};
    ghost use Rattle.sock_tcp.specs.connection.Process.{bytes_taken, writes, bytes_read, reads, pays_ack, flows, ends_writing, shuts_end, shuts, closes_socket, closes};
    ghost use Rattle.sock_tcp.specs.segment.Control.{writing_ended};
    ghost use Rattle.sock_tcp.specs.connection.StandsFor.{StandsFor, Does};

    /// Takes bytes from the process, as many as there is room for, and none once writing has ended.
    /// `flow` gives the effects.
    pub fn app_write(&mut self, bytes: &[u8]) -> usize
        ensures count { (r : Tcb) → StandsFor self.old r → result ≡ length (bytes_taken bytes.now r) }
        ensures stands { (r : Tcb) → StandsFor self.old r → StandsFor self.new (writes bytes.now r) }
    {
        if self.control.takes_bytes() {
            let count = self.send.fill_from_slice(bytes);
            self.counts = self.counts.wrote(count);
            count
        } else {
            0
        }
    }

    /// Gives the process bytes that wait, as many as it asks for. `flow` gives the effects.
    pub fn app_read(&mut self, into: &mut [u8]) -> usize
        ensures count { (r : Tcb) → StandsFor self.old r → result ≡ length (bytes_read (length into.old) r) }
        ensures given { (r : Tcb) → StandsFor self.old r
            → into.new ≡ bytes_read (length into.old) r ++ drop result into.old }
        ensures stands { (r : Tcb) → StandsFor self.old r → StandsFor self.new (reads (length into.old) r) }
    {
        let before = self.own_window();
        let found = self.control.finds_end(into.len(), self.receive.len());
        let count = self.receive.read_into(into);
        let owes = raises_window(before, self.own_window());
        self.control = self.control.after_read(owes, found);
        self.counts = self.counts.was_read(count);
        count
    }

    /// Sends the ACK that a read owes.
    #[tactic(auto, unfolding(crate::specs::connection::Process::pays_ack))]
    fn pay_ack(&mut self, draft: &mut Draft) -> Result<(), NoMemory>
        ensures { OnOk result (Does pays_ack self.old draft.old self.new draft.new) }
    {
        if self.control.owes_ack {
            self.send_ack(draft)?;
            self.control.owes_ack = false;
        }
        Ok(())
    }

    #[tactic(auto, unfolding(crate::specs::connection::Process::flows, crate::specs::connection::Arrival::unless_over))]
    pub(crate) fn flow_on(&mut self, draft: &mut Draft) -> Result<(), NoMemory>
        ensures { OnOk result (Does flows self.old draft.old self.new draft.new) }
    {
        if !self.control.state.is_over() {
            self.pay_ack(draft)?;
            self.output(draft)?;
        }
        self.judge(draft);
        Ok(())
    }

    /// Marks the end of writing.
    fn want_fin(&mut self)
        requires { is_opening self.old.control.state ≡ false }
        ensures { (r : Tcb) → StandsFor self.old r → StandsFor self.new (with_control writing_ended r) }
    {
        self.control = self.control.after_writing();
    }

    #[tactic(auto, unfolding(crate::specs::connection::Process::ends_writing))]
    fn end_writing(&mut self, draft: &mut Draft) -> Result<(), NoMemory>
        ensures { OnOk result (Does ends_writing self.old draft.old self.new draft.new) }
    {
        if !self.control.state.is_opening() {
            self.want_fin();
            self.output(draft)?;
        }
        Ok(())
    }

    #[tactic(auto, unfolding(crate::specs::connection::Process::ends_reading))]
    fn shut_end(&mut self, draft: &mut Draft, end: Shut) -> Result<(), NoMemory>
        ensures { OnOk result (Does (shuts_end end) self.old draft.old self.new draft.new) }
    {
        match end {
            Shut::Reading => {
                self.control.reading_ended = true;
                Ok(())
            }
            Shut::Writing => self.end_writing(draft),
            Shut::Both => {
                self.control.reading_ended = true;
                self.end_writing(draft)
            }
        }
    }

    #[tactic(auto, unfolding(crate::specs::connection::Process::shuts))]
    pub(crate) fn shut(&mut self, draft: &mut Draft, end: Shut) -> Result<(), NoMemory>
        ensures { OnOk result (Does (shuts end) self.old draft.old self.new draft.new) }
    {
        self.shut_end(draft, end)?;
        self.judge(draft);
        Ok(())
    }

    /// Whether bytes wait that nobody read.
    fn has_unread(&self) -> bool
        ensures { (r : Tcb) → StandsFor self.now r → result ≡ nat_lt 0 (unread r) }
    {
        !self.receive.is_empty()
    }

    #[tactic(auto, unfolding(crate::specs::connection::Process::closes_socket))]
    fn close_socket(&mut self, draft: &mut Draft) -> Result<(), NoMemory>
        ensures { OnOk result (Does closes_socket self.old draft.old self.new draft.new) }
    {
        if self.control.state.is_syn_sent() || self.control.state.is_over() {
            self.vanish(draft);
            return Ok(());
        }
        if self.has_unread() {
            self.send_reset(draft)?;
            self.vanish(draft);
            return Ok(());
        }
        self.end_writing(draft)
    }

    #[tactic(auto, unfolding(crate::specs::connection::Process::closes))]
    pub(crate) fn close(&mut self, draft: &mut Draft) -> Result<(), NoMemory>
        ensures { OnOk result (Does closes self.old draft.old self.new draft.new) }
    {
        self.control.closed = true;
        self.close_socket(draft)?;
        self.judge(draft);
        Ok(())
    }
}
