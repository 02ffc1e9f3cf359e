//! The acts of a process on the place of a UDP socket.

ghost use Rattle.std.specs.Prelude.{◌≡◌, ◌≤◌, length, IfOk};
ghost use Rattle.sock_udp.specs.Socket.{bound_at, connected, sent};
ghost use Rattle.host_wants.specs.Refusals.{by_errno};
ghost use Rattle.udp_slots.specs.Slots.{only_state, local_in, fits_in, recv_asked_in, oldest_datagram, slot_arrives, udp_name_in, udp_peer_in, udp_ready_in};
ghost use Rattle.udp_slots.specs.SlotActs.{SlotDoes, GivesOldest};
ghost use Rattle.udp_slots.specs.Bindings.{ends_of_slot};

use host_wants::{CallError, Refusal};
use sim_base::{Act, Addr, Around, Bytes, Errno, Ip, MAX_DATAGRAM, NoMemory, Packet};
use sock_udp::{Datagram, Received, UdpEnds, UdpError, UdpSock};
use std::alloc::Global;

/// The end of an unbound socket.
pub const NOWHERE: Addr = Addr {
    ip: Ip::ANY,
    port: 0,
};

/// What a socket is bound and connected to.
pub fn ends_of(sock: &UdpSock) -> UdpEnds
    ensures local { result.local ≡ sock.now.local }
    ensures peer { result.peer ≡ sock.now.peer }
{
    UdpEnds {
        local: sock.local(),
        peer: sock.peer(),
    }
}

/// The same of the socket at a place, if there is one.
pub fn ends(slot: &Option<UdpSock>) -> Option<UdpEnds>
    ensures { result ≡ ends_of_slot slot.now }
{
    match slot {
        Some(sock) => Some(ends_of(sock)),
        None => None,
    }
}

/// What a socket is bound to.
pub fn local(slot: &Option<UdpSock>) -> Option<Addr>
    ensures { result ≡ local_in slot.now }
{
    match slot {
        Some(sock) => sock.local(),
        None => None,
    }
}

/// `bind(2)` at an address of which this is left.
pub fn bind(
    slot: &mut Option<UdpSock>,
    around: &Around,
    ip: Ip,
    left: Result<Addr, Errno>,
) -> Result<(), CallError>
    ensures { SlotDoes (λ u. only_state (by_errno (bound_at around.now ip left u))) slot.old slot.new result }
{
    match slot {
        Some(sock) => {
            sock.bind_at(around, ip, left)?;
            Ok(())
        }
        None => Err(CallError::Refused(Refusal::Errno(Errno::Ebadf))),
    }
}

/// `connect(2)` of a socket that has this end, or would have it.
pub fn connect(
    slot: &mut Option<UdpSock>,
    around: &Around,
    own: Option<Addr>,
    to: Addr,
) -> Result<(), CallError>
    ensures { SlotDoes (λ u. only_state (by_errno (connected around.now to u own))) slot.old slot.new result }
{
    match slot {
        Some(sock) => {
            sock.connect_at(around, own, to)?;
            Ok(())
        }
        None => Err(CallError::Refused(Refusal::Errno(Errno::Ebadf))),
    }
}

/// `send(2)`, and `sendto(2)` where an address is given, of a socket that has this end, or would have
/// it.
pub fn send(
    slot: &mut Option<UdpSock>,
    around: &Around,
    own: Option<Addr>,
    bytes: &[u8],
    to: Option<Addr>,
) -> Result<Packet, CallError>
    ensures { SlotDoes (λ u. by_errno (sent around.now bytes.now to u own)) slot.old slot.new result }
{
    match slot {
        Some(sock) => match sock.send_at(around, own, bytes, to) {
            Ok(packet) => Ok(packet),
            Err(UdpError::Errno(errno)) => Err(CallError::Refused(Refusal::Errno(errno))),
            Err(UdpError::NoMemory) => Err(CallError::NoMemory),
        },
        None => Err(CallError::Refused(Refusal::Errno(Errno::Ebadf))),
    }
}

/// Takes the oldest datagram of a socket, cut at so many bytes; where none waits the call does.
fn take_oldest(sock: &mut UdpSock, alloc: Global, count: usize) -> Result<Datagram, CallError>
    ensures gives { GivesOldest count sock.old sock.new result }
    ensures at_most { IfOk result (λ datagram. length datagram.bytes ≤ count) }
{
    let mut into = vec![in alloc; 0u8; count]?;
    match sock.recv(into.as_mut_slice()) {
        Ok(received) => {
            let Received { bytes, from } = received;
            into.truncate(bytes);
            Ok(Datagram {
                from,
                bytes: Bytes::from(into),
            })
        }
        Err(_) => Err(CallError::Refused(Refusal::Wait(None))),
    }
}

/// `recv(2)` of so many bytes.
pub fn recv(slot: &mut Option<UdpSock>, alloc: Global, count: usize) -> Result<Datagram, CallError>
    ensures does { SlotDoes (λ u. oldest_datagram u u.waiting count) slot.old slot.new result }
    ensures at_most { IfOk result (λ datagram. length datagram.bytes ≤ count) }
{
    match slot {
        Some(sock) => take_oldest(sock, alloc, count),
        None => Err(CallError::Refused(Refusal::Errno(Errno::Ebadf))),
    }
}

/// A datagram arrives at a socket.
pub fn arrive(slot: &mut Option<UdpSock>, from: Addr, bytes: &[u8]) -> Result<Act, NoMemory>
    ensures { IfOk result (λ act. (act, slot.new) ≡ slot_arrives from bytes.now slot.old) }
{
    match slot {
        Some(sock) => {
            if sock.arrive(from, bytes)? {
                Ok(Act::Recv)
            } else {
                Ok(Act::SockFull)
            }
        }
        None => Ok(Act::NoPort),
    }
}

/// What refuses a send of so many bytes, before they and an address are read.
pub fn fits(slot: &Option<UdpSock>, count: usize, given: bool) -> Result<(), Refusal>
    ensures { result ≡ fits_in count given slot.now }
{
    match slot {
        Some(sock) => {
            if count > MAX_DATAGRAM {
                Err(Refusal::Errno(Errno::Emsgsize))
            } else if given || sock.peer().is_some() {
                Ok(())
            } else {
                Err(Refusal::Errno(Errno::Edestaddrreq))
            }
        }
        None => Err(Refusal::Errno(Errno::Ebadf)),
    }
}

/// What refuses a read.
pub fn recv_asked(slot: &Option<UdpSock>) -> Result<(), Refusal>
    ensures { result ≡ recv_asked_in slot.now }
{
    match slot {
        Some(sock) => {
            if sock.len() > 0 {
                Ok(())
            } else {
                Err(Refusal::Wait(None))
            }
        }
        None => Err(Refusal::Errno(Errno::Ebadf)),
    }
}

/// The own end of a socket.
pub fn name(slot: &Option<UdpSock>) -> Result<Addr, Refusal>
    ensures { result ≡ udp_name_in slot.now }
{
    match slot {
        Some(sock) => Ok(sock.local().unwrap_or(NOWHERE)),
        None => Err(Refusal::Errno(Errno::Ebadf)),
    }
}

/// The end that a socket is connected to.
pub fn peer(slot: &Option<UdpSock>) -> Result<Addr, Refusal>
    ensures { result ≡ udp_peer_in slot.now }
{
    match slot {
        Some(sock) => match sock.peer() {
            Some(peer) => Ok(peer),
            None => Err(Refusal::Errno(Errno::Enotconn)),
        },
        None => Err(Refusal::Errno(Errno::Ebadf)),
    }
}

/// What a socket is ready for.
pub fn ready(slot: &Option<UdpSock>) -> u16
    ensures { result ≡ udp_ready_in slot.now }
{
    match slot {
        Some(sock) => sock.ready(),
        None => 0,
    }
}
