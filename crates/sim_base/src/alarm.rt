//! What an alarm is of.

/// What an alarm is of, by its number at its host: the call of a process that waits until a
/// deadline, a timer, or a TCP socket.
#[derive(Clone, Copy)]
pub enum AlarmTarget {
    Process(u32),
    Timer(usize),
    Socket(usize),
}
