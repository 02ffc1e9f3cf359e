//! How a connection ends (RFC 9293, section 3.10).

use crate::connection::conn::Conn;
use crate::connection::effects::Draft;
use crate::segment::TcpState;
use sim_base::Errno;

impl Conn {
    ghost use Rattle.std.specs.Prelude.{◌≡◌};
    ghost use Rattle.sock_tcp.specs.connection.StandsFor.{Does};
    ghost use Rattle.sock_tcp.specs.connection.Ending.{ends, vanishes};

    /// Ends it by an error, which it keeps.
    #[tactic(auto, unfolding(crate::specs::connection::Ending::ends, crate::specs::connection::Ending::ended))]
    pub(crate) fn end(&mut self, draft: &Draft, error: Errno)
        ensures { Does (ends error) self.old draft.now self.new draft.now }
    {
        self.control.state = TcpState::Ended;
        self.control.error = Some(error);
        self.control.had_error = true;
        self.control.timer = false;
    }

    /// Ends it without a trace.
    #[tactic(auto, unfolding(crate::specs::connection::Ending::vanishes, crate::specs::connection::Ending::vanished))]
    pub(crate) fn vanish(&mut self, draft: &Draft)
        ensures { Does vanishes self.old draft.now self.new draft.now }
    {
        self.control.state = TcpState::Vanished;
        self.control.timer = false;
    }
}
