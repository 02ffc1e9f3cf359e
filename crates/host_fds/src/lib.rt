//! The descriptors of a process, pipes, eventfds and epolls, and how often objects became ready.
#![tactic(auto)]

mod epoll;
mod eventfd;
mod file_id;
mod pipe;
mod rises;
mod table;

pub use epoll::{Entry, Epoll, Seen, Watch};
pub use eventfd::Eventfd;
pub use file_id::FileId;
pub use pipe::{End, Pipe};
pub use rises::Rises;
pub use table::Table;
