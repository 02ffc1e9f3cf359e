//! The header of a segment (RFC 9293, section 3.1).

ghost use Rattle.std.specs.Prelude.{◌≡◌};
ghost use Rattle.sock_tcp.specs.segment.Header.{header_of, has_flag};

use sim_base::{ACK, FIN, RST, SYN};

/// What a segment's header says beside its ports.
#[derive(Clone, Copy)]
pub struct Header {
    pub fin: bool,
    pub syn: bool,
    pub rst: bool,
    pub has_ack: bool,
    pub seq: u32,
    pub ack: u32,
    pub window: u16,
}

fn has_flag(flags: u8, flag: u8) -> bool
    ensures { result ≡ has_flag flags flag }
{
    flags & flag != 0
}

impl Header {
    pub fn new(flags: u8, seq: u32, ack: u32, window: u16) -> Header
        ensures { result ≡ header_of flags seq ack window }
    {
        Header {
            fin: has_flag(flags, FIN),
            syn: has_flag(flags, SYN),
            rst: has_flag(flags, RST),
            has_ack: has_flag(flags, ACK),
            seq,
            ack,
            window,
        }
    }
}
