//! How often sockets became ready, for each bit of `poll(2)`.

ghost use Rattle.std.specs.Prelude.{◌≡◌, OnOk};
ghost use Rattle.host_fds.specs.Rises.{no_rises};
ghost use Rattle.host_sockets.specs.Rises.{risen, rises_at, moved_at};
ghost use Rattle.host_sockets.specs.Sockets.{put_at};

use crate::glance::{Glance, slot_glance};
use crate::sockets::Sockets;
use host_fds::Rises;
use sim_base::NoMemory;

impl Glance {
    /// Rises after an act behind which this is seen. It put something in where more waits than
    /// before.
    fn risen(self, before: Glance, rises: Rises) -> Rises
        ensures { result ≡ risen before self rises }
    {
        rises.moved(before.bits, self.bits, before.waiting < self.waiting)
    }
}

/// The rises of the socket with a number.
fn rises_at(kept: &[Rises], k: usize) -> Rises
    ensures { result ≡ rises_at k kept.now }
{
    if k >= kept.len() {
        return Rises::none();
    }
    kept[k]
}

/// Those of the socket with a number move on.
fn move_at(kept: &mut [Rises], k: usize, before: Glance, after: Glance)
    ensures { kept.new ≡ moved_at k before after kept.old }
{
    if k >= kept.len() {
        return;
    }
    kept[k] = after.risen(before, kept[k]);
}

/// A socket at a place was made, which is no rise.
pub(crate) fn put_none(kept: &mut Vec<Rises>, place: usize) -> Result<(), NoMemory>
    ensures { OnOk result (kept.new.items ≡ put_at place no_rises kept.old.items) }
{
    if place < kept.len() {
        kept[place] = Rises::none();
        return Ok(());
    }
    kept.push(Rises::none())?;
    Ok(())
}

impl Sockets {
    ghost use Rattle.std.specs.Prelude.{◌≡◌, ◌<◌, length, slice_get, Option, Some};
    ghost use Rattle.sock_udp.specs.Socket.{UdpState};
    ghost use Rattle.host_sockets.specs.declared.tcp_sock.TcpSock.{TcpSock};
    ghost use Rattle.host_sockets.specs.TcpSocket.{TcpSocket};
    ghost use Rattle.host_sockets.specs.Rises.{slot_glance, tcp_glance, moved_at};
    ghost use Rattle.host_sockets.specs.Sockets.{SocketsRecord};
    ghost use Rattle.host_sockets.specs.Ready.{udp_rises, tcp_rises};
    ghost use Rattle.host_sockets.specs.StandsFor.{SocketStands, Stand};

    /// The TCP socket with a number acts from now on. Answers what is seen of it before.
    pub(crate) fn begin_act(&mut self, k: usize) -> Glance
        requires { k < length self.old.tcp.items }
        ensures own { self.new.own ≡ self.old.own }
        ensures udp { self.new.udp ≡ self.old.udp }
        ensures tcp { self.new.tcp ≡ self.old.tcp }
        ensures udp_risen { self.new.udp_risen ≡ self.old.udp_risen }
        ensures tcp_risen { self.new.tcp_risen ≡ self.old.tcp_risen }
        ensures gone { self.new.gone ≡ self.old.gone }
        ensures acts { self.new.index.last ≡ k }
        ensures stands { (t : SocketsRecord) → Stand self.old t → Stand self.new t }
        ensures seen { (t : SocketsRecord) (s : TcpSocket) → Stand self.old t → slice_get t.tcp k ≡ Some s → result ≡ tcp_glance s }
    {
        self.turn_to(k);
        self.tcp[k].glance()
    }

    /// An act on the TCP socket with a number ends: its rises move on.
    pub(crate) fn end_act(&mut self, k: usize, before: Glance)
        requires { k < length self.old.tcp.items }
        ensures own { self.new.own ≡ self.old.own }
        ensures udp { self.new.udp ≡ self.old.udp }
        ensures tcp { self.new.tcp ≡ self.old.tcp }
        ensures gone { self.new.gone ≡ self.old.gone }
        ensures index { self.new.index ≡ self.old.index }
        ensures udp_risen { self.new.udp_risen ≡ self.old.udp_risen }
        ensures tcp_risen { (c : TcpSock) (s : TcpSocket) → slice_get self.old.tcp.items k ≡ Some c → SocketStands c s
            → self.new.tcp_risen.items ≡ moved_at k before (tcp_glance s) self.old.tcp_risen.items }
    {
        let after = self.tcp[k].glance();
        move_at(self.tcp_risen.as_mut_slice(), k, before, after);
    }

    /// An act on the UDP socket with a number ends: its rises move on.
    pub(crate) fn end_udp_act(&mut self, k: usize, before: Glance)
        requires { k < length self.old.udp.slots.items }
        ensures own { self.new.own ≡ self.old.own }
        ensures udp { self.new.udp ≡ self.old.udp }
        ensures tcp { self.new.tcp ≡ self.old.tcp }
        ensures gone { self.new.gone ≡ self.old.gone }
        ensures tcp_risen { self.new.tcp_risen ≡ self.old.tcp_risen }
        ensures udp_risen { (slot : Option UdpState) → slice_get self.old.udp.slots.items k ≡ Some slot
            → self.new.udp_risen.items ≡ moved_at k before (slot_glance slot) self.old.udp_risen.items }
    {
        let after = slot_glance(&self.udp.slots[k]);
        move_at(self.udp_risen.as_mut_slice(), k, before, after);
    }

    /// How often each bit came to hold for the UDP socket with a number since it was made. `POLLIN`
    /// rises also with each datagram that it takes.
    pub fn udp_rises(&self, k: usize) -> Rises
        ensures { (t : SocketsRecord) → Stand self.now t → result ≡ udp_rises k t }
    {
        rises_at(self.udp_risen.as_slice(), k)
    }

    /// How often each bit came to hold for the TCP socket with a number since it was made. `POLLIN`
    /// rises also with each act that brings it bytes, or a listener a whole connection.
    pub fn tcp_rises(&self, k: usize) -> Rises
        ensures { (t : SocketsRecord) → Stand self.now t → result ≡ tcp_rises k t }
    {
        rises_at(self.tcp_risen.as_slice(), k)
    }
}
