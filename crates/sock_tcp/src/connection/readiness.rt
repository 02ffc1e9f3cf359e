//! What the socket of a connection is ready for, by the bits of `poll(2)`.

ghost use Rattle.std.specs.Prelude.{◌≡◌};
ghost use Rattle.sock_tcp.specs.connection.Ready.{reading_is_over, is_hung_up, bit_if};

use crate::connection::conn::Conn;
use crate::segment::Control;
use sim_base::{POLLERR, POLLHUP, POLLIN, POLLOUT};

pub fn bit_if(holds: bool, bit: u16) -> u16
    ensures { result ≡ bit_if holds bit }
{
    if holds { bit } else { 0 }
}

fn reading_is_over(control: Control) -> bool
    ensures { result ≡ reading_is_over control }
{
    control.fin_taken || control.reading_ended
}

fn is_hung_up(control: Control) -> bool
    ensures { result ≡ is_hung_up control }
{
    (reading_is_over(control) && control.fin_wanted) || control.state.is_over()
}

impl Conn {
    ghost use Rattle.sock_tcp.specs.connection.Tcb.{Tcb};
    ghost use Rattle.sock_tcp.specs.connection.StandsFor.{StandsFor};
    ghost use Rattle.sock_tcp.specs.connection.Ready.{can_read, can_write, connected_readiness, readiness};

    fn can_read(&self) -> bool
        ensures { (r : Tcb) → StandsFor self.now r → result ≡ can_read r }
    {
        self.unread() > 0 || reading_is_over(self.control) || self.control.error.is_some()
    }

    fn can_write(&self) -> bool
        ensures { (r : Tcb) → StandsFor self.now r → result ≡ can_write r }
    {
        self.room() > 0 || self.control.fin_wanted || self.control.error.is_some()
    }

    fn connected_readiness(&self) -> u16
        ensures { (r : Tcb) → StandsFor self.now r → result ≡ connected_readiness r }
    {
        let reading = bit_if(self.can_read(), POLLIN);
        let writing = bit_if(self.can_write(), POLLOUT);
        let error = bit_if(self.control.error.is_some(), POLLERR);
        let hangup = bit_if(is_hung_up(self.control), POLLHUP);
        (reading | writing) | (error | hangup)
    }

    /// What its socket is ready for: `POLLIN` where bytes wait, none come any more, or an error
    /// waits; `POLLOUT` where there is room for bytes, the process has ended its writing, or an error
    /// waits; `POLLERR` where an error waits; `POLLHUP` where both directions have ended or the
    /// connection is over; nothing before it is ESTABLISHED or over.
    #[tactic(auto, unfolding(crate::specs::connection::Ready::readiness))]
    pub fn ready(&self) -> u16
        ensures { (r : Tcb) → StandsFor self.now r → result ≡ readiness r }
    {
        if self.control.state.is_opening() {
            0
        } else {
            self.connected_readiness()
        }
    }
}
