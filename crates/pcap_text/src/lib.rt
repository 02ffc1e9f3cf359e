//! Captures of packets as bytes, in the pcap format with LINKTYPE_RAW, and their reader.
#![tactic(auto)]

mod capture;
mod checksum;
mod datagram;
mod fault;
mod laws;
mod packets;
mod reading;
mod writing;

pub use capture::{Capture, Record, Records};
pub use fault::{PcapError, PcapFault, PcapKind};
pub use laws::{checksums_verify, one_datagram, reads_back};
pub use packets::packet_of;
pub use reading::read_pcap;
pub use writing::{head, record};
