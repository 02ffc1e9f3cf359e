//! The states of a record (RFC 9293, section 3.3.2).

ghost use Rattle.std.specs.Prelude.{◌≡◌};
ghost use Rattle.sock_tcp.specs.segment.State.{phase_of, after_writing, after_own_fin, after_peer_fin, takes_text, is_over, is_time_wait, is_sending, is_synchronized, is_opening, is_syn_sent, is_syn_received};

/// The state of a connection. LISTEN is a `Listener`'s, and CLOSED is split by how a record came
/// there.
#[derive(Clone, Copy)]
pub enum TcpState {
    SynSent,
    SynReceived,
    Established,
    FinWait1,
    FinWait2,
    CloseWait,
    Closing,
    LastAck,
    TimeWait,
    /// The connection ended by an error.
    Ended,
    /// Nothing of the connection is left.
    Vanished,
}

/// How far a record has come.
#[derive(Clone, Copy)]
pub enum Phase {
    /// Before ESTABLISHED.
    Opening,
    /// The process may write.
    Open,
    /// Writing has ended, and the own FIN isn't acknowledged yet.
    Ending,
    /// The own FIN was acknowledged.
    Finished,
    /// Nothing is sent or received any more.
    Over,
}

impl TcpState {
    pub(crate) fn phase(self) -> Phase
        ensures { result ≡ phase_of self }
    {
        match self {
            TcpState::SynSent | TcpState::SynReceived => Phase::Opening,
            TcpState::Established | TcpState::CloseWait => Phase::Open,
            TcpState::FinWait1 | TcpState::Closing | TcpState::LastAck => Phase::Ending,
            TcpState::FinWait2 | TcpState::TimeWait => Phase::Finished,
            TcpState::Ended | TcpState::Vanished => Phase::Over,
        }
    }

    /// The state once writing has ended.
    pub(crate) fn after_writing(self) -> TcpState
        ensures { result ≡ after_writing self }
    {
        match self {
            TcpState::Established => TcpState::FinWait1,
            TcpState::CloseWait => TcpState::LastAck,
            state => state,
        }
    }

    /// The state once the own FIN is acknowledged.
    pub(crate) fn after_own_fin(self) -> TcpState
        ensures { result ≡ after_own_fin self }
    {
        match self {
            TcpState::FinWait1 => TcpState::FinWait2,
            TcpState::Closing => TcpState::TimeWait,
            TcpState::LastAck => TcpState::Vanished,
            state => state,
        }
    }

    /// The state once the peer's FIN is taken.
    pub(crate) fn after_peer_fin(self) -> TcpState
        ensures { result ≡ after_peer_fin self }
    {
        match self {
            TcpState::Established => TcpState::CloseWait,
            TcpState::FinWait1 => TcpState::Closing,
            TcpState::FinWait2 => TcpState::TimeWait,
            state => state,
        }
    }

    /// Whether text and a FIN are taken in this state.
    pub(crate) fn takes_text(self) -> bool
        ensures { result ≡ takes_text self }
    {
        matches!(
            self,
            TcpState::Established | TcpState::FinWait1 | TcpState::FinWait2
        )
    }

    /// Whether nothing is sent or received any more.
    pub fn is_over(self) -> bool
        ensures { result ≡ is_over self }
    {
        matches!(self, TcpState::Ended | TcpState::Vanished)
    }

    pub(crate) fn is_time_wait(self) -> bool
        ensures { result ≡ is_time_wait self }
    {
        matches!(self, TcpState::TimeWait)
    }

    pub(crate) fn is_sending(self) -> bool
        ensures { result ≡ is_sending self }
    {
        matches!(self.phase(), Phase::Open | Phase::Ending)
    }

    pub(crate) fn is_synchronized(self) -> bool
        ensures { result ≡ is_synchronized self }
    {
        matches!(self.phase(), Phase::Open | Phase::Ending | Phase::Finished)
    }

    pub(crate) fn is_opening(self) -> bool
        ensures { result ≡ is_opening self }
    {
        matches!(self, TcpState::SynSent | TcpState::SynReceived)
    }

    pub fn is_syn_sent(self) -> bool
        ensures { result ≡ is_syn_sent self }
    {
        matches!(self, TcpState::SynSent)
    }

    pub(crate) fn is_syn_received(self) -> bool
        ensures { result ≡ is_syn_received self }
    {
        matches!(self, TcpState::SynReceived)
    }
}
