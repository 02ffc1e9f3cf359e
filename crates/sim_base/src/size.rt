//! Sizes of packets, in bytes.

/// The header of IPv4 without options (RFC 791, section 3.1).
pub const IPV4_HEADER: usize = 20;

/// The header of a datagram (RFC 768).
pub const UDP_HEADER: usize = 8;

/// The header of a segment without options (RFC 9293, section 3.1).
pub const TCP_HEADER: usize = 20;

/// The most bytes of a packet with its headers, as Ethernet carries them (RFC 894).
pub const MAX_PACKET: usize = 1_500;

/// The most bytes of a datagram's text, with which its packet has 1,500.
pub const MAX_DATAGRAM: usize = 1_472;

/// The most bytes of a segment's text, with which its packet has 1,500.
pub const MAX_SEGMENT: usize = 1_460;
