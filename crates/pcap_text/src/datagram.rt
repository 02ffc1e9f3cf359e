//! A packet as the bytes of a datagram.

ghost use Rattle.std.specs.Prelude.{◌≡◌, ◌≤◌, ◌+◌, IfOk, length};
ghost use Rattle.sim_base.specs.Packet.{packet_size, load_size, udp_header};
ghost use Rattle.sim_base.specs.declared.packet.Load.TheVariants.{Udp, Tcp};
ghost use Rattle.pcap_text.specs.Datagram as spec;

use crate::checksum::sum_on;
use sim_base::{Bytes, Load, NoMemory, Packet, TCP_HEADER, UDP_HEADER};
use std::alloc::Global;

/// The most bytes of a datagram, whose length has 16 bits (RFC 791, section 3.1).
pub(crate) const LONGEST: usize = 65_535;

/// The protocol's number in an IPv4 header.
fn protocol(load: &Load) -> u8
    ensures { result ≡ spec.protocol load.now }
{
    match load {
        Load::Udp(_) => 17,
        Load::Tcp { .. } => 6,
    }
}

/// The IPv4 header with a checksum.
fn ip_front(packet: &Packet, check: u16) -> [u8; 20]
    requires { packet_size packet.now ≤ spec.longest }
    ensures { result ≡ spec.ip_header check packet.now }
{
    let size = (packet.size() as u16).to_be_bytes();
    let protocol = protocol(&packet.load);
    let check = check.to_be_bytes();
    let from = packet.from.ip.bits.to_be_bytes();
    let to = packet.to.ip.bits.to_be_bytes();
    [
        0x45, 0, size[0], size[1], 0, 0, 0x40, 0, 64, protocol, check[0], check[1], from[0],
        from[1], from[2], from[3], to[0], to[1], to[2], to[3],
    ]
}

/// The IPv4 header of a packet.
fn ip_header(packet: &Packet) -> [u8; 20]
    requires { packet_size packet.now ≤ spec.longest }
    ensures { result ≡ spec.ip_header (spec.ip_check packet.now) packet.now }
{
    let sum = sum_on(0, &ip_front(packet, 0));
    ip_front(packet, u16::MAX - sum)
}

/// The header of UDP with a checksum.
fn udp_front(packet: &Packet, text: &Bytes, check: u16) -> [u8; 8]
    requires { udp_header + length text.now ≤ spec.longest }
    ensures { result ≡ spec.udp_front check packet.now.from.port packet.now.to.port text.now }
{
    let from = packet.from.port.to_be_bytes();
    let to = packet.to.port.to_be_bytes();
    let size = ((UDP_HEADER + text.len()) as u16).to_be_bytes();
    let check = check.to_be_bytes();
    [
        from[0], from[1], to[0], to[1], size[0], size[1], check[0], check[1],
    ]
}

/// What stands in the header of a segment beside ports and checksum.
#[derive(Clone, Copy)]
struct Control {
    flags: u8,
    seq: u32,
    ack: u32,
    window: u16,
}

/// The header of TCP with a checksum.
fn tcp_front(packet: &Packet, control: Control, check: u16) -> [u8; 20]
    ensures { result ≡ spec.tcp_front check packet.now.from.port packet.now.to.port control.flags control.seq control.ack control.window }
{
    let from = packet.from.port.to_be_bytes();
    let to = packet.to.port.to_be_bytes();
    let seq = control.seq.to_be_bytes();
    let ack = control.ack.to_be_bytes();
    let window = control.window.to_be_bytes();
    let check = check.to_be_bytes();
    [
        from[0],
        from[1],
        to[0],
        to[1],
        seq[0],
        seq[1],
        seq[2],
        seq[3],
        ack[0],
        ack[1],
        ack[2],
        ack[3],
        0x50,
        control.flags,
        window[0],
        window[1],
        check[0],
        check[1],
        0,
        0,
    ]
}

/// The bytes that stand behind the IPv4 header.
fn load_size(packet: &Packet) -> u16
    requires { packet_size packet.now ≤ spec.longest }
    ensures { result ≡ load_size packet.now.load }
{
    match &packet.load {
        Load::Udp(text) => (UDP_HEADER + text.len()) as u16,
        Load::Tcp { text, .. } => (TCP_HEADER + text.len()) as u16,
    }
}

/// What the checksum of UDP and of TCP speaks of beside their own bytes.
fn pseudo_header(packet: &Packet) -> [u8; 12]
    requires { packet_size packet.now ≤ spec.longest }
    ensures { result ≡ spec.pseudo_header packet.now }
{
    let from = packet.from.ip.bits.to_be_bytes();
    let to = packet.to.ip.bits.to_be_bytes();
    let protocol = protocol(&packet.load);
    let size = load_size(packet).to_be_bytes();
    [
        from[0], from[1], from[2], from[3], to[0], to[1], to[2], to[3], 0, protocol, size[0],
        size[1],
    ]
}

/// What UDP sends for a checksum.
fn udp_sent(check: u16) -> u16
    ensures { result ≡ spec.udp_sent check }
{
    if check == 0 { u16::MAX } else { check }
}

/// The checksum of a datagram's text with its header.
fn udp_check(packet: &Packet, text: &Bytes) -> u16
    requires size { packet_size packet.now ≤ spec.longest }
    requires load { packet.now.load ≡ Udp text.now }
    ensures { result ≡ spec.segment_check packet.now }
{
    let sum = sum_on(0, &pseudo_header(packet));
    let sum = sum_on(sum, &udp_front(packet, text, 0));
    udp_sent(u16::MAX - sum_on(sum, text.as_slice()))
}

/// The checksum of a segment's text with its header.
fn tcp_check(packet: &Packet, control: Control, text: &Bytes) -> u16
    requires size { packet_size packet.now ≤ spec.longest }
    requires load { packet.now.load ≡ Tcp control.flags control.seq control.ack control.window text.now }
    ensures { result ≡ spec.segment_check packet.now }
{
    let sum = sum_on(0, &pseudo_header(packet));
    let sum = sum_on(sum, &tcp_front(packet, control, 0));
    u16::MAX - sum_on(sum, text.as_slice())
}

/// The datagram of a packet.
#[tactic(auto, using(crate::proofs::Datagrams::datagram_size), unfolding(crate::specs::Datagram::datagram_bytes))]
pub(crate) fn datagram(alloc: Global, packet: &Packet) -> Result<Bytes, NoMemory>
    requires { packet_size packet.now ≤ spec.longest }
    ensures bytes { IfOk result (λ bytes. bytes ≡ spec.datagram_bytes packet.now) }
    ensures size { IfOk result (λ bytes. length bytes ≡ packet_size packet.now) }
{
    let mut bytes = Bytes::from(Vec::with_capacity(alloc, packet.size() as usize)?);
    bytes.extend_from_slice(&ip_header(packet))?;
    match &packet.load {
        Load::Udp(text) => {
            let check = udp_check(packet, text);
            bytes.extend_from_slice(&udp_front(packet, text, check))?;
            bytes.extend_from_slice(text.as_slice())?;
        }
        Load::Tcp {
            flags,
            seq,
            ack,
            window,
            text,
        } => {
            let control = Control {
                flags: *flags,
                seq: *seq,
                ack: *ack,
                window: *window,
            };
            let check = tcp_check(packet, control, text);
            bytes.extend_from_slice(&tcp_front(packet, control, check))?;
            bytes.extend_from_slice(text.as_slice())?;
        }
    }
    Ok(bytes)
}
