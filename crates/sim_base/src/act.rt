//! What happens to packets.

/// What happens to a packet, as the packet log tells it.
#[derive(Clone, Copy, PartialEq, Eq)]
pub enum Act {
    /// It is sent on its way.
    Send,
    /// It is lost on its way.
    Lost,
    /// The queue to the network is full.
    FullUp,
    /// The queue from the network is full.
    FullDown,
    /// It comes to its socket.
    Recv,
    /// The queue of its socket is full.
    SockFull,
    /// No socket takes it.
    NoPort,
    /// It is dropped since packets wait too long (CoDel, RFC 8289).
    Codel,
}
