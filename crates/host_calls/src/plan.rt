//! What a call that may wait would do.

use crate::accepting::AcceptPlan;
use crate::connecting::ConnectPlan;
use crate::polling::PollPlan;
use crate::receiving::RecvPlan;
use crate::sending::SendPlan;
use call_parts::WaitPlan;
use file_calls::Transfer;

/// What a call that may wait would do: it isn't refused, and doesn't wait.
#[derive(Clone, Copy)]
pub enum Plan {
    /// It reads what is no socket.
    Read(Transfer),
    /// It writes to what is no socket.
    Write(Transfer),
    Accept(AcceptPlan),
    Connect(ConnectPlan),
    Send(SendPlan),
    Receive(RecvPlan),
    /// It has slept.
    Sleep,
    Poll(PollPlan),
    EpollWait(WaitPlan),
}
