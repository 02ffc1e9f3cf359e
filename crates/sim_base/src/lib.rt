//! What every crate of the simulator shares: times, hosts, addresses, signals and error numbers,
//! event keys with their order, events and packets.
#![tactic(auto)]

mod act;
mod address;
mod alarm;
mod around;
mod book;
mod bytes;
mod ends;
mod errno;
mod event;
mod host;
mod key;
mod limits;
mod memory;
mod packet;
mod poll;
mod ports;
mod signal;
mod size;
mod state;
mod time;

pub use act::Act;
pub use address::{Addr, Ip};
pub use alarm::AlarmTarget;
pub use around::Around;
pub use book::Book;
pub use bytes::Bytes;
pub use ends::{source_ip, stays_inside};
pub use errno::Errno;
pub use event::{Event, Parcel, What};
pub use host::HostId;
pub use key::{Key, Kind};
pub use limits::MOST_PROCESSES;
pub use memory::NoMemory;
pub use packet::{ACK, FIN, Load, Packet, RST, SYN};
pub use poll::{POLLERR, POLLHUP, POLLIN, POLLNVAL, POLLOUT, POLLRDHUP};
pub use ports::{at_free_port, is_taken, least_free_port, with_port};
pub use signal::Signal;
pub use size::{IPV4_HEADER, MAX_DATAGRAM, MAX_PACKET, MAX_SEGMENT, TCP_HEADER, UDP_HEADER};
pub use state::State;
pub use time::Time;
