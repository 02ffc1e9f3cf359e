//! The numbers of system calls.

ghost use Rattle.std.specs.Prelude.{◌≡◌};
ghost use Rattle.call_parts.specs.Call as spec;

/// A system call by its name.
#[derive(Clone, Copy)]
pub enum Call {
    /// One that needs no sockets.
    Plain(PlainCall),
    /// One on sockets alone.
    Network(NetworkCall),
    /// One that may wait.
    Waiting(WaitingCall),
    Close,
    Exit,
}

/// A call that needs no sockets and never waits.
#[derive(Clone, Copy)]
pub enum PlainCall {
    Eventfd2,
    EpollCreate,
    EpollCtl,
    Fcntl,
    Openat,
    Pipe2,
    TimerfdCreate,
    Getpid,
    Setsockopt,
    Brk,
    Getrandom,
    ClockGettime,
    TimerfdSettime,
}

/// A call on sockets alone that never waits.
#[derive(Clone, Copy)]
pub enum NetworkCall {
    Socket,
    Bind,
    Listen,
    Getsockname,
    Getpeername,
    Getsockopt,
    Shutdown,
}

/// A call that may wait.
#[derive(Clone, Copy)]
pub enum WaitingCall {
    Read,
    Write,
    Accept,
    Connect,
    Sendto,
    Recvfrom,
    ClockNanosleep,
    Ppoll,
    EpollWait,
}

impl PlainCall {
    fn of(number: u32) -> Option<PlainCall>
        ensures { result ≡ spec.plain_of number }
    {
        match number {
            19 => Some(PlainCall::Eventfd2),
            20 => Some(PlainCall::EpollCreate),
            21 => Some(PlainCall::EpollCtl),
            25 => Some(PlainCall::Fcntl),
            56 => Some(PlainCall::Openat),
            59 => Some(PlainCall::Pipe2),
            85 => Some(PlainCall::TimerfdCreate),
            172 => Some(PlainCall::Getpid),
            208 => Some(PlainCall::Setsockopt),
            214 => Some(PlainCall::Brk),
            278 => Some(PlainCall::Getrandom),
            403 => Some(PlainCall::ClockGettime),
            411 => Some(PlainCall::TimerfdSettime),
            _ => None,
        }
    }
}

impl NetworkCall {
    fn of(number: u32) -> Option<NetworkCall>
        ensures { result ≡ spec.network_of number }
    {
        match number {
            198 => Some(NetworkCall::Socket),
            200 => Some(NetworkCall::Bind),
            201 => Some(NetworkCall::Listen),
            204 => Some(NetworkCall::Getsockname),
            205 => Some(NetworkCall::Getpeername),
            209 => Some(NetworkCall::Getsockopt),
            210 => Some(NetworkCall::Shutdown),
            _ => None,
        }
    }
}

impl WaitingCall {
    fn of(number: u32) -> Option<WaitingCall>
        ensures { result ≡ spec.waiting_of number }
    {
        match number {
            22 => Some(WaitingCall::EpollWait),
            63 => Some(WaitingCall::Read),
            64 => Some(WaitingCall::Write),
            202 => Some(WaitingCall::Accept),
            203 => Some(WaitingCall::Connect),
            206 => Some(WaitingCall::Sendto),
            207 => Some(WaitingCall::Recvfrom),
            407 => Some(WaitingCall::ClockNanosleep),
            414 => Some(WaitingCall::Ppoll),
            _ => None,
        }
    }
}

fn other_of(number: u32) -> Option<Call>
    ensures { result ≡ spec.other_of number }
{
    match number {
        57 => Some(Call::Close),
        93 => Some(Call::Exit),
        94 => Some(Call::Exit),
        _ => None,
    }
}

impl Call {
    /// The call with a number, as 32-bit RISC-V Linux has them.
    pub fn of(number: u32) -> Option<Call>
        ensures { result ≡ spec.call_of number }
    {
        if let Some(call) = PlainCall::of(number) {
            return Some(Call::Plain(call));
        }
        if let Some(call) = NetworkCall::of(number) {
            return Some(Call::Network(call));
        }
        if let Some(call) = WaitingCall::of(number) {
            return Some(Call::Waiting(call));
        }
        other_of(number)
    }
}
