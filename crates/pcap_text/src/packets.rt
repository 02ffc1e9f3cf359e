//! The packet whose datagram some bytes are.

ghost use Rattle.std.specs.Prelude.{◌≡◌, ◌≤◌, ◌+◌, ◌↔◌, length, drop, Some, IfOk, IfSome, IsTrue};
ghost use Rattle.sim_base.specs.Packet.{packet_size};
ghost use Rattle.pcap_text.specs.Datagram.{datagram, datagram_bytes, longest};
ghost use Rattle.pcap_text.specs.Packets as spec;

use crate::datagram::{LONGEST, datagram};
use sim_base::{Addr, Bytes, IPV4_HEADER, Ip, Load, NoMemory, Packet, TCP_HEADER, UDP_HEADER};
use std::alloc::Global;

/// The number of UDP and of TCP in an IPv4 header.
const UDP: u8 = 17;

const TCP: u8 = 6;

/// The two-byte number at a place.
fn half(bytes: &[u8], at: usize) -> u16
    requires { at + 2 ≤ length bytes.now }
    ensures { result ≡ spec.half bytes.now at }
{
    u16::from_be_bytes([bytes[at], bytes[at + 1]])
}

/// The four-byte number at a place.
fn word(bytes: &[u8], at: usize) -> u32
    requires { at + 4 ≤ length bytes.now }
    ensures { result ≡ spec.word bytes.now at }
{
    u32::from_be_bytes([bytes[at], bytes[at + 1], bytes[at + 2], bytes[at + 3]])
}

/// The end that has its address and its port at these places.
fn end_at(bytes: &[u8], ip: usize, port: usize) -> Addr
    requires ip { ip + 4 ≤ length bytes.now }
    requires port { port + 2 ≤ length bytes.now }
    ensures value { result ≡ spec.end_at bytes.now ip port }
    ensures fits { spec.FitsAddr result }
{
    Addr {
        ip: Ip {
            bits: word(bytes, ip),
        },
        port: half(bytes, port),
    }
}

/// The packet with these headers that carries a load.
fn packet_with(bytes: &[u8], load: Load) -> Packet
    requires length { spec.udp_headers ≤ length bytes.now }
    requires load { spec.FitsLoad load }
    ensures value { result ≡ spec.packet_with bytes.now load }
    ensures fits { spec.Fits result }
{
    Packet {
        from: end_at(bytes, 12, 20),
        to: end_at(bytes, 16, 22),
        load,
    }
}

/// The bytes behind the headers.
fn text_at(alloc: Global, bytes: &[u8], at: usize) -> Result<Bytes, NoMemory>
    requires { at ≤ length bytes.now }
    ensures { IfOk result (λ text. text ≡ drop at bytes.now) }
{
    let (_, text) = bytes.split_at(at);
    Bytes::from_slice(alloc, text)
}

fn udp_at(alloc: Global, bytes: &[u8]) -> Result<Load, NoMemory>
    requires { spec.udp_headers ≤ length bytes.now }
    ensures value { IfOk result (λ load. load ≡ spec.udp_at bytes.now) }
    ensures fits { IfOk result spec.FitsLoad }
{
    let text = text_at(alloc, bytes, IPV4_HEADER + UDP_HEADER)?;
    Ok(Load::Udp(text))
}

fn tcp_at(alloc: Global, bytes: &[u8]) -> Result<Load, NoMemory>
    requires { spec.tcp_headers ≤ length bytes.now }
    ensures value { IfOk result (λ load. load ≡ spec.tcp_at bytes.now) }
    ensures fits { IfOk result spec.FitsLoad }
{
    let text = text_at(alloc, bytes, IPV4_HEADER + TCP_HEADER)?;
    Ok(Load::Tcp {
        flags: bytes[33],
        seq: word(bytes, 24),
        ack: word(bytes, 28),
        window: half(bytes, 34),
        text,
    })
}

/// The packet that the fields of a datagram tell.
#[tactic(auto, unfolding(crate::specs::Packets::fields))]
fn fields(alloc: Global, bytes: &[u8]) -> Result<Option<Packet>, NoMemory>
    ensures value { IfOk result (λ found. found ≡ spec.fields bytes.now) }
    ensures fits { IfOk result (λ found. IfSome found spec.Fits) }
{
    if bytes.len() >= IPV4_HEADER + UDP_HEADER && bytes[9] == UDP {
        let load = udp_at(alloc, bytes)?;
        return Ok(Some(packet_with(bytes, load)));
    }
    if bytes.len() >= IPV4_HEADER + TCP_HEADER && bytes[9] == TCP {
        let load = tcp_at(alloc, bytes)?;
        return Ok(Some(packet_with(bytes, load)));
    }
    Ok(None)
}

/// Whether the bytes are the datagram of a packet.
fn is_datagram_of(alloc: Global, bytes: &[u8], packet: &Packet) -> Result<bool, NoMemory>
    requires { packet_size packet.now ≤ longest }
    ensures { IfOk result (λ same. IsTrue same ↔ (datagram_bytes packet.now ≡ bytes.now)) }
{
    let whole = datagram(alloc, packet)?;
    Ok(whole.as_slice() == bytes)
}

/// The packet whose datagram the bytes are, if they are one.
pub fn packet_of(alloc: Global, bytes: &[u8]) -> Result<Option<Packet>, NoMemory>
    ensures found { IfOk result (λ found. IfSome found (λ p. datagram p ≡ Some bytes.now)) }
    ensures fits { IfOk result (λ found. IfSome found spec.Fits) }
    ensures only { IfOk result (spec.IsEach bytes.now) }
{
    if bytes.len() > LONGEST {
        return Ok(None);
    }
    let Some(packet) = fields(alloc, bytes)? else {
        return Ok(None);
    };
    let same = is_datagram_of(alloc, bytes, &packet)?;
    if same { Ok(Some(packet)) } else { Ok(None) }
}
