//! What calls on TCP sockets answer.

use sim_base::{Addr, Errno};

/// What a call on a TCP socket answers that may meet the error of a connection.
#[derive(Clone, Copy)]
pub enum Reply<T> {
    /// It did what it was asked for.
    Done(T),
    /// It answers the error that the connection kept, and has taken it.
    Failed(Errno),
}

/// A connection that was accepted.
#[derive(Clone, Copy)]
pub struct Accepted {
    /// The number of the new socket.
    pub socket: usize,
    /// The other end of the connection.
    pub peer: Addr,
}
