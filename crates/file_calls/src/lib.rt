//! The system calls of guests that need no sockets: files, pipes, timers, eventfds, the entries of
//! epolls, random bytes and the break, the process that calls act on, and what all hosts know.
#![tactic(auto)]

mod again;
mod controlling;
mod descriptors;
mod eventfd;
mod files;
mod flags;
mod guest;
mod known;
mod outputs;
pub mod reading;
mod task;
mod times;
mod transfer;
pub mod writing;

pub use again::{kept_answers, negative, or_again};
pub use controlling::{Change, Control, Operation, epoll_create, epoll_ctl, epoll_number};
pub use descriptors::{Descriptor, look_up, lowest_free, open};
pub use eventfd::eventfd2;
pub use files::{Ends, fcntl, openat, pipe2};
pub use flags::{MSG_DONTWAIT, MSG_NOSIGNAL, O_NONBLOCK, beside_message, beside_open, has};
pub use guest::{FIRST_ID, brk, getpid, getrandom};
pub use known::Known;
pub use outputs::Outputs;
pub use task::{Output, Shared, Task, Why};
pub use times::{
    OldTimer, Setting, clock_gettime, kept_or, ring, sleep_asked, timerfd_create, timerfd_settime,
};
pub use transfer::Transfer;
