//! The UDP sockets of a host by their numbers.

ghost use Rattle.std.proofs.Props.{props};
ghost use Rattle.std.specs.Prelude.{◌≡◌};
ghost use Rattle.udp_slots.specs.Bindings.{ends_of_slots};

use sim_base::{Addr, Errno, NoMemory};
use sock_udp::UdpSock;
use std::alloc::Global;
use udp_slots::slot as udp_slot;
use udp_table::UdpTable;

/// The sockets, and the table of what they are bound and connected to, by which they are found.
#[derive(Drop)]
pub struct UdpSocks {
    pub(crate) slots: Vec<Option<UdpSock>>,
    pub(crate) table: UdpTable,
    ghost told: { table ≡ ends_of_slots slots.items } by { Prim.hlevel props },
}

impl UdpSocks {
    ghost use Rattle.std.specs.Prelude.{◌≡◌, ◌<◌, ◌++◌, ◌∷◌, [], Some, None, slice_set, is_none, position, OnOk};
    ghost use Rattle.std.specs.List.{position_or_len, flat_map};
    ghost use Rattle.sim_base.specs.Addresses.{least_free_port};
    ghost use Rattle.sock_udp.specs.Socket.{end_left};
    ghost use Rattle.host_sockets.specs.Sockets.{put_at};
    ghost use Rattle.host_sockets.specs.Udp.{udp_end};
    ghost use Rattle.host_sockets.specs.Arriving.{takes_in};

    /// No sockets.
    pub(crate) fn new(alloc: Global) -> UdpSocks
        ensures { result.slots.items ≡ [] }
    {
        UdpSocks {
            slots: Vec::new(alloc),
            table: UdpTable::new(alloc),
        }
    }

    /// Puts a socket behind all. Where memory is wanting for it or for its row of the table, neither is
    /// there.
    fn push(&mut self, sock: UdpSock) -> Result<(), NoMemory>
        ensures { OnOk result (self.new.slots.items ≡ self.old.slots.items ++ Some sock ∷ []) }
    {
        let ends = udp_slot::ends_of(&sock);
        self.slots.push(Some(sock))?;
        if self.table.push(ends).is_err() {
            let _ = self.slots.pop();
            return Err(NoMemory);
        }
        Ok(())
    }

    /// Puts a socket at a place, or behind all.
    pub(crate) fn put(&mut self, place: usize, sock: UdpSock) -> Result<(), NoMemory>
        ensures { OnOk result (self.new.slots.items ≡ put_at place (Some sock) self.old.slots.items) }
    {
        if place < self.slots.len() {
            let ends = udp_slot::ends_of(&sock);
            self.slots[place] = Some(sock);
            self.table.set(place, Some(ends));
            return Ok(());
        }
        self.push(sock)
    }

    /// Lets the socket at a place go.
    pub(crate) fn close(&mut self, place: usize)
        ensures { self.new.slots.items ≡ slice_set self.old.slots.items place None }
    {
        if place >= self.slots.len() {
            return;
        }
        self.slots[place] = None;
        self.table.set(place, None);
    }

    /// The least number that a new socket may take.
    pub(crate) fn free_place(&self) -> usize
        ensures { result ≡ position_or_len is_none self.now.slots.items }
    {
        self.table.free_place()
    }

    /// The least port from 10000 up that no socket has, if there is one.
    pub(crate) fn free_port(&self) -> Option<u16>
        ensures { result ≡ least_free_port (flat_map udp_end self.now.slots.items) }
    {
        self.table.free_port()
    }

    /// What the sockets leave of an address that is asked for.
    pub(crate) fn end_left(&self, at: Addr) -> Result<Addr, Errno>
        ensures { result ≡ end_left (flat_map udp_end self.now.slots.items) at }
    {
        self.table.end_left(at)
    }

    /// The number of the first socket that takes a datagram from one end to another.
    pub(crate) fn taker(&self, from: Addr, to: Addr) -> Option<usize>
        ensures { result ≡ position (takes_in from to) self.now.slots.items }
    {
        self.table.taker(from, to)
    }
}
