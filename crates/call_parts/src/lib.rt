//! The numbers of system calls, the rows of those that need no sockets, and such parts of the others: what calls on sockets
//! ask of descriptors and memory, waits and their deadlines, and what pipes, timers and eventfds are ready for.
#![tactic(auto)]

mod call;
mod epoll;
mod making;
mod messages;
mod options;
mod plain;
mod polling;
mod ready;
mod sockets;
mod starting;

pub use call::{Call, NetworkCall, PlainCall, WaitingCall};
pub use epoll::{WaitPlan, is_any_seen, put_seen, tell, wait_deadline, wait_place, waits_unless};
pub use making::{NewSocket, socket_asked};
pub use messages::{Message, Room, is_quick, recv_place, refuse_flags};
pub use options::{Asked, getsockopt_asked, number_of, tell_option, type_of};
pub use plain::plain_row;
pub use polling::{
    asked_events, asked_fd, count_one, entry_at, has_come, poll_deadline, poll_entries, with_events,
};
pub use ready::{eventfd_ready, eventfd_rises, pipe_ready, pipe_rises, timer_ready, timer_rises};
pub use sockets::{
    OpenSocket, SocketNumber, address, address_bytes, given_address, inet_address, open_socket,
    result_address, socket_number, tcp_number,
};
pub use starting::start;
