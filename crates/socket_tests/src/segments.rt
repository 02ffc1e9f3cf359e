//! Segments of TCP as they are written in tables. The own host is 0.0.0.1, the peer's 0.0.0.2.

use sim_base::{Addr, Bytes, Ip, Load, Packet};
use sock_tcp::{Effects, TcpState};
use std::alloc::Global;
use std::test::Fail;

/// Flags, seq, ack, window and the length of the text.
#[derive(Clone, Copy)]
pub struct Line(pub u8, pub u32, pub u32, pub u16, pub usize);

/// A port of a host.
pub fn end(bits: u32, port: u16) -> Addr {
    Addr {
        ip: Ip { bits },
        port,
    }
}

/// A segment from a port of the peer, with zeros as its text.
pub fn segment(alloc: Global, port: u16, line: Line) -> Result<Packet, Fail> {
    let Line(flags, seq, ack, window, count) = line;
    let zeros = vec![in alloc; 0u8; count]?;
    Ok(Packet {
        from: end(2, port),
        to: end(1, 10_000),
        load: Load::Tcp {
            flags,
            seq,
            ack,
            window,
            text: Bytes::from_slice(alloc, zeros.as_slice())?,
        },
    })
}

/// The segments of effects, with a comma behind each, and the seconds of the timer that was started,
/// 0 for none.
pub fn told(alloc: Global, effects: &Effects) -> Result<String, Fail> {
    let mut out = String::new(alloc);
    for packet in &effects.segments {
        if let Load::Tcp {
            flags,
            seq,
            ack,
            window,
            text,
        } = &packet.load
        {
            let count = text.len();
            write!(out, "{flags} {seq} {ack} {window} {count}, ")?;
        }
    }
    let seconds = match effects.timer {
        Some(time) => time.nanos / 1_000_000_000,
        None => 0,
    };
    write!(out, "{seconds}")?;
    Ok(out)
}

/// The name of a state.
pub fn name(state: TcpState) -> &'static str {
    match state {
        TcpState::SynSent => "SynSent",
        TcpState::SynReceived => "SynReceived",
        TcpState::Established => "Established",
        TcpState::FinWait1 => "FinWait1",
        TcpState::FinWait2 => "FinWait2",
        TcpState::CloseWait => "CloseWait",
        TcpState::Closing => "Closing",
        TcpState::LastAck => "LastAck",
        TcpState::TimeWait => "TimeWait",
        TcpState::Ended => "Ended",
        TcpState::Vanished => "Vanished",
    }
}
