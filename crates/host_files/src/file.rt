//! Open files.

/// What an open file is an end of, or reads from.
#[derive(Clone, Copy, PartialEq, Eq)]
pub enum Object {
    /// Standard input, which is empty.
    Input,
    /// Standard output.
    Output,
    /// Standard error.
    Errors,
    /// The text of `/etc/hosts`, and how many of its bytes were read.
    Hosts(u64),
    /// The reading end of the pipe with this number.
    ReadEnd(usize),
    /// The writing end of the pipe with this number.
    WriteEnd(usize),
    /// The timer with this number.
    Timer(usize),
    /// The eventfd with this number.
    Eventfd(usize),
    /// The epoll with this number, of the process that the file is open in.
    Epoll(usize),
    /// The UDP socket with this number.
    Udp(usize),
    /// The TCP socket with this number.
    Tcp(usize),
}

/// An open file (`open(2)`): each has one descriptor, since there is neither `dup` nor `fork`.
#[derive(Clone, Copy, PartialEq, Eq)]
pub struct File {
    /// Whether calls that would wait answer EAGAIN (`O_NONBLOCK`).
    pub nonblocking: bool,
    pub object: Object,
}
