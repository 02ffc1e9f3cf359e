//! What an act on a connection that a listener keeps brings about.

ghost use Rattle.std.specs.Prelude.{◌≡◌, IfOk, OnOk};
ghost use Rattle.sock_tcp.specs.connection.Arrival.{takes_packet};
ghost use Rattle.sock_tcp.specs.connection.Carried.{with_gone};
ghost use Rattle.sock_tcp.specs.listener.Dropped.{dropped};
ghost use Rattle.sock_tcp.specs.listener.Listen.{Listen, hears};
ghost use Rattle.sock_tcp.specs.listener.ListensFor.{ListensFor, Hears};
ghost use Rattle.host_wants.specs.Wanted.{draws_word};
ghost use Rattle.host_sockets.specs.ListenerActs.{is_timer_of, without_timer, with_timer};
ghost use Rattle.host_sockets.specs.Alarms.{kept_timer};
ghost use Rattle.host_sockets.specs.Arriving.{word_drawn};

use crate::tcp_sock::{KeptTimer, TcpSock};
use crate::turned::start;
use host_wants::Outlet;
use sim_base::{Addr, NoMemory, Packet, Time};
use sock_tcp::{Carried, Conn, Effects, Listener};

fn is_timer_of(timer: KeptTimer, own: Addr, other: Addr) -> bool
    ensures { result ≡ is_timer_of own other timer }
{
    timer.own == own && timer.other == other
}

/// Drops the timer of two ends.
fn drop_timer(timers: &mut Vec<KeptTimer>, own: Addr, other: Addr)
    ensures { timers.new.items ≡ without_timer own other timers.old.items }
{
    timers.retain(|timer| !is_timer_of(*timer, own, other));
}

/// Sets the timer of two ends.
fn set_timer(
    timers: &mut Vec<KeptTimer>,
    own: Addr,
    other: Addr,
    serial: u64,
) -> Result<(), NoMemory>
    ensures { OnOk result (timers.new.items ≡ with_timer own other serial timers.old.items) }
{
    drop_timer(timers, own, other);
    timers.push(KeptTimer { own, other, serial })?;
    Ok(())
}

/// The timer whose alarm has this serial.
fn kept_timer(timers: &[KeptTimer], serial: u64) -> Option<KeptTimer>
    ensures { result ≡ kept_timer serial timers.now }
{
    timers.iter().copied().find(|timer| timer.serial == serial)
}

/// A listener takes a segment, and draws the first number of a connection that it makes. What a
/// connection carried that it lets go is kept.
fn hear(
    outlet: &mut Outlet,
    listener: &mut Listener,
    packet: &Packet,
    gone: &mut Vec<Carried>,
) -> Result<Effects, NoMemory>
    ensures hears { IfOk result (Hears (hears packet.now (draws_word outlet.old).0) listener.old listener.new) }
    ensures wanted { OnOk result ((l : Listen) → ListensFor listener.old l → outlet.new ≡ word_drawn packet.now l outlet.old) }
    ensures gone { OnOk result ((l : Listen) → ListensFor listener.old l → gone.new.items ≡ with_gone (dropped (takes_packet packet.now) packet.now.to packet.now.from l) gone.old.items) }
{
    listener.arrive(packet, outlet.draws(), gone)
}

impl TcpSock {
    ghost use Rattle.std.specs.Prelude.{◌≡◌, List, Some, OnOk};
    ghost use Rattle.sock_tcp.specs.declared.connection.carried.Carried.{Carried};
    ghost use Rattle.sock_tcp.specs.connection.Carried.{with_gone};
    ghost use Rattle.sock_tcp.specs.connection.Tcb.{Tcb};
    ghost use Rattle.sock_tcp.specs.listener.Listen.{Listen, Heard};
    ghost use Rattle.host_sockets.specs.TcpSocket.{TcpSocket};
    ghost use Rattle.host_sockets.specs.ListenerActs.{with_listen, with_timers, timers_kept, timer_starts, heard};
    ghost use Rattle.host_sockets.specs.Accepting.{accepts_in};
    ghost use Rattle.host_sockets.specs.inside.Accepting.{TakesConn};
    ghost use Rattle.host_sockets.specs.Alarms.{kept_expires, socket_expires};
    ghost use Rattle.host_sockets.specs.Arriving.{listener_hears};
    ghost use Rattle.host_sockets.specs.StandsFor.{SocketStands};
    ghost use Rattle.host_sockets.specs.inside.StandsFor.{Brings};

    /// A timer that an act on the connection of two ends started, if it did, is an alarm of the
    /// socket from then on.
    fn start_kept(
        &mut self,
        outlet: &mut Outlet,
        now: Time,
        place: usize,
        own: Addr,
        other: Addr,
        timer: Option<Time>,
    ) -> Result<(), NoMemory>
        ensures socket { OnOk result ((s : TcpSocket) → SocketStands self.old s
            → SocketStands self.new (with_timers (timer_starts now place own other timer s.timers outlet.old).0 s)) }
        ensures wanted { OnOk result ((s : TcpSocket)
            → outlet.new ≡ (timer_starts now place own other timer s.timers outlet.old).1) }
    {
        if let Some(length) = timer {
            let serial = start(outlet, now, place, length)?;
            return set_timer(&mut self.timers, own, other, serial);
        }
        Ok(())
    }

    /// Keeps the timer of two ends only while the listener keeps their connection.
    fn keep_timer(&mut self, own: Addr, other: Addr)
        ensures { (s : TcpSocket) (l : Listen) → SocketStands self.old s → s.listen ≡ Some l
            → SocketStands self.new (with_timers (timers_kept own other l s.timers) s) }
    {
        if !self.keeps_record(own, other) {
            drop_timer(&mut self.timers, own, other);
        }
    }

    /// Brings about what an act on the connection of two ends does that its listener keeps: its
    /// segments are sent, then its timer starts.
    #[tactic(auto, unfolding(crate::specs::ListenerActs::heard))]
    fn bring_heard(
        &mut self,
        outlet: &mut Outlet,
        now: Time,
        place: usize,
        own: Addr,
        other: Addr,
        effects: Effects,
    ) -> Result<(), NoMemory>
        ensures { OnOk result ((s : TcpSocket) (h : Heard) (dropped : List Tcb) (before gone : List Carried) → SocketStands self.old (with_listen h.listen s)
            → effects.segments.items ≡ h.sent → effects.timer ≡ h.timer → gone ≡ with_gone dropped before
            → Brings self.new outlet.new before gone (heard now place own other h dropped s outlet.old)) }
    {
        let Effects { segments, timer } = effects;
        outlet.send_all(segments)?;
        self.start_kept(outlet, now, place, own, other, timer)?;
        self.keep_timer(own, other);
        Ok(())
    }

    /// Its listener takes a segment.
    pub(crate) fn hear(
        &mut self,
        outlet: &mut Outlet,
        now: Time,
        place: usize,
        packet: &Packet,
        gone: &mut Vec<Carried>,
    ) -> Result<(), NoMemory>
        ensures { OnOk result ((s : TcpSocket) → SocketStands self.old s
            → Brings self.new outlet.new gone.old.items gone.new.items (listener_hears now packet.now place s outlet.old)) }
    {
        if let Some(listener) = &mut self.listener {
            let effects = hear(outlet, listener, packet, gone)?;
            return self.bring_heard(outlet, now, place, packet.to, packet.from, effects);
        }
        Ok(())
    }

    /// The timer of a connection that its listener keeps expires.
    fn expire_kept(
        &mut self,
        outlet: &mut Outlet,
        now: Time,
        place: usize,
        timer: KeptTimer,
        gone: &mut Vec<Carried>,
    ) -> Result<(), NoMemory>
        ensures { OnOk result ((s : TcpSocket) → SocketStands self.old s
            → Brings self.new outlet.new gone.old.items gone.new.items (kept_expires now place timer s.listen s outlet.old)) }
    {
        if let Some(listener) = &mut self.listener {
            let effects = listener.timer(timer.own, timer.other, gone)?;
            return self.bring_heard(outlet, now, place, timer.own, timer.other, effects);
        }
        Ok(())
    }

    /// An alarm with a serial comes.
    pub(crate) fn expire(
        &mut self,
        outlet: &mut Outlet,
        now: Time,
        place: usize,
        serial: u64,
        gone: &mut Vec<Carried>,
    ) -> Result<(), NoMemory>
        ensures { OnOk result ((s : TcpSocket) → SocketStands self.old s
            → Brings self.new outlet.new gone.old.items gone.new.items (socket_expires now place serial s outlet.old)) }
    {
        if self.serial == serial {
            return self.expire_conn(outlet, now, place, gone);
        }
        if let Some(timer) = kept_timer(self.timers.as_slice(), serial) {
            return self.expire_kept(outlet, now, place, timer, gone);
        }
        Ok(())
    }

    /// Gives the oldest whole connection of its listener, which it keeps no more.
    pub(crate) fn take_conn(&mut self) -> Option<Conn>
        ensures { (s : TcpSocket) → SocketStands self.old s → TakesConn (accepts_in s.listen) s result self.new }
    {
        if let Some(listener) = &mut self.listener {
            if let Some(conn) = listener.accept() {
                let control = conn.control();
                self.keep_timer(control.local, control.peer);
                return Some(conn);
            }
        }
        None
    }
}
