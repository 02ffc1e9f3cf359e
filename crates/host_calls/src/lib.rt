//! The system calls of guests: each row of the table, and what a host does with a packet that
//! arrives, an alarm, and the end of a process.
#![tactic(auto)]

mod accepting;
mod acting;
mod all;
mod asking;
mod binding;
mod calling;
mod closing;
mod connecting;
mod epoll;
mod events;
mod naming;
mod options;
mod parts;
mod plan;
mod polling;
mod ready;
mod receiving;
mod sending;
mod stage;
mod starting;
mod waiting;

pub use all::Parts;
pub use calling::do_call;
pub use events::{alarm, close_all, deliver};
pub use parts::Answer;
pub use starting::start_task;
pub use waiting::answers_now;
