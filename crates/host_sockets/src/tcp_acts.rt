//! The acts on the connection of a socket.

ghost use Rattle.std.specs.Prelude.{◌≡◌, ◌≤◌, length, OnOk, IfOk};
ghost use Rattle.sock_tcp.specs.connection.Process.{bytes_read, reads};
ghost use Rattle.sock_tcp.specs.connection.StandsFor.{StandsFor};
ghost use Rattle.sock_tcp.specs.connection.Tcb.{Tcb};

use crate::tcp_sock::TcpSock;
use host_wants::Outlet;
use sim_base::{Addr, Bytes, NoMemory, Packet, Time};
use sock_tcp::{Carried, Conn, Effects, Opened, Shut};
use std::alloc::Global;

impl TcpSock {
    ghost use Rattle.std.specs.Prelude.{◌≡◌, ◌≤◌, length, OnOk, IfOk};
    ghost use Rattle.sock_tcp.specs.connection.Begin.{begin};
    ghost use Rattle.sock_tcp.specs.connection.Process.{shuts, expires};
    ghost use Rattle.host_sockets.specs.TcpSocket.{TcpSocket};
    ghost use Rattle.host_sockets.specs.TcpActs.{record_acts};
    ghost use Rattle.host_sockets.specs.Connecting.{opens, error_takes};
    ghost use Rattle.host_sockets.specs.Moving.{count_taken, takes_written, bytes_given, gives_read};
    ghost use Rattle.host_sockets.specs.Arriving.{record_takes};
    ghost use Rattle.host_sockets.specs.StandsFor.{SocketStands};
    ghost use Rattle.host_sockets.specs.inside.StandsFor.{Brings};

    /// Its connection takes a segment.
    pub(crate) fn arrive(
        &mut self,
        outlet: &mut Outlet,
        now: Time,
        place: usize,
        packet: &Packet,
        gone: &mut Vec<Carried>,
    ) -> Result<(), NoMemory>
        ensures { OnOk result ((s : TcpSocket) → SocketStands self.old s
            → Brings self.new outlet.new gone.old.items gone.new.items (record_takes now packet.now place s outlet.old)) }
    {
        if let Some(conn) = &mut self.conn {
            let effects = conn.arrive(packet)?;
            return self.bring_about(outlet, now, place, effects, gone);
        }
        Ok(())
    }

    /// The timer of its connection expires.
    pub(crate) fn expire_conn(
        &mut self,
        outlet: &mut Outlet,
        now: Time,
        place: usize,
        gone: &mut Vec<Carried>,
    ) -> Result<(), NoMemory>
        ensures { OnOk result ((s : TcpSocket) → SocketStands self.old s
            → Brings self.new outlet.new gone.old.items gone.new.items (record_acts now place (λ r. expires (begin r)) s outlet.old)) }
    {
        if let Some(conn) = &mut self.conn {
            let effects = conn.timer()?;
            return self.bring_about(outlet, now, place, effects, gone);
        }
        Ok(())
    }

    /// Ends one direction of its connection or both.
    pub(crate) fn shut(
        &mut self,
        outlet: &mut Outlet,
        now: Time,
        place: usize,
        how: Shut,
        gone: &mut Vec<Carried>,
    ) -> Result<(), NoMemory>
        ensures { OnOk result ((s : TcpSocket) → SocketStands self.old s
            → Brings self.new outlet.new gone.old.items gone.new.items (record_acts now place (λ r. shuts how (begin r)) s outlet.old)) }
    {
        if let Some(conn) = &mut self.conn {
            let effects = conn.app_shut(how)?;
            return self.bring_about(outlet, now, place, effects, gone);
        }
        Ok(())
    }

    /// Its connection takes bytes of the process, as many as there is room for.
    pub(crate) fn write(
        &mut self,
        outlet: &mut Outlet,
        now: Time,
        place: usize,
        bytes: &[u8],
        gone: &mut Vec<Carried>,
    ) -> Result<usize, NoMemory>
        ensures count { IfOk result (λ count. (s : TcpSocket) → SocketStands self.old s → count ≡ count_taken bytes.now s.tcb) }
        ensures at_most { IfOk result (λ count. count ≤ length bytes.now) }
        ensures brings { OnOk result ((s : TcpSocket) → SocketStands self.old s
            → Brings self.new outlet.new gone.old.items gone.new.items (takes_written now place bytes.now s outlet.old)) }
    {
        if let Some(conn) = &mut self.conn {
            let count = conn.app_write(bytes).min(bytes.len());
            let effects = conn.flow()?;
            self.bring_about(outlet, now, place, effects, gone)?;
            return Ok(count);
        }
        Ok(0)
    }

    /// Its connection gives the process bytes that wait, at most so many.
    pub(crate) fn read(
        &mut self,
        outlet: &mut Outlet,
        now: Time,
        place: usize,
        count: usize,
        gone: &mut Vec<Carried>,
    ) -> Result<Bytes, NoMemory>
        ensures given { IfOk result (λ bytes. (s : TcpSocket) → SocketStands self.old s → bytes ≡ bytes_given count s.tcb) }
        ensures at_most { IfOk result (λ bytes. length bytes ≤ count) }
        ensures brings { OnOk result ((s : TcpSocket) → SocketStands self.old s
            → Brings self.new outlet.new gone.old.items gone.new.items (gives_read now place count s outlet.old)) }
    {
        let alloc = self.alloc();
        if let Some(conn) = &mut self.conn {
            let bytes = read_bytes(alloc, conn, count)?;
            let effects = conn.flow()?;
            self.bring_about(outlet, now, place, effects, gone)?;
            return Ok(bytes);
        }
        Ok(Bytes::new(alloc))
    }

    /// The error that its connection kept is taken.
    #[tactic(auto, unfolding(sock_tcp::specs::connection::Timer::timer_of))]
    pub(crate) fn take_error(
        &mut self,
        outlet: &mut Outlet,
        now: Time,
        place: usize,
        gone: &mut Vec<Carried>,
    ) -> Result<(), NoMemory>
        ensures { OnOk result ((s : TcpSocket) → SocketStands self.old s
            → Brings self.new outlet.new gone.old.items gone.new.items (error_takes now place s outlet.old)) }
    {
        let alloc = self.alloc();
        if let Some(conn) = &mut self.conn {
            conn.take_error();
            return self.bring_about(outlet, now, place, Effects::none(alloc), gone);
        }
        Ok(())
    }

    /// It opens a connection: the SYN is sent.
    pub(crate) fn open(
        &mut self,
        outlet: &mut Outlet,
        now: Time,
        place: usize,
        own: Addr,
        other: Addr,
        gone: &mut Vec<Carried>,
    ) -> Result<(), NoMemory>
        ensures { OnOk result ((s : TcpSocket) → SocketStands self.old s
            → Brings self.new outlet.new gone.old.items gone.new.items (opens now place own other s outlet.old)) }
    {
        let word = outlet.word();
        let first = (word % (1 << 32)) as u32;
        let Opened { conn, effects } = Conn::open(self.alloc(), own, other, first)?;
        self.conn = Some(conn);
        self.bring_about(outlet, now, place, effects, gone)
    }
}

/// Bytes that wait in a connection, at most so many, which it gives.
fn read_bytes(alloc: Global, conn: &mut Conn, count: usize) -> Result<Bytes, NoMemory>
    ensures given { IfOk result (λ bytes. (r : Tcb) → StandsFor conn.old r → bytes ≡ bytes_read count r) }
    ensures at_most { IfOk result (λ bytes. length bytes ≤ count) }
    ensures stands { OnOk result ((r : Tcb) → StandsFor conn.old r → StandsFor conn.new (reads count r)) }
{
    let mut into = vec![in alloc; 0u8; count]?;
    let given = conn.app_read(into.as_mut_slice());
    into.truncate(given);
    Ok(Bytes::from(into))
}
