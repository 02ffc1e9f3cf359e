//! What a host tells of its connections.

ghost use Rattle.std.specs.Prelude.{◌≡◌, [], fold, IfOk, OnOk};
ghost use Rattle.host_sockets.specs.Streams.{with_carried};
ghost use Rattle.host_sockets.specs.inside.Told.{told, all_told, unless};

use crate::sockets::Sockets;
use crate::tables::Ends;
use crate::tcp_sock::TcpSock;
use sim_base::{Addr, NoMemory};
use sock_tcp::Carried;
use std::alloc::Global;
use std::collections::BTreeMap;

/// What a host tells of the connections between two ends of which it had one.
#[derive(Clone, Copy)]
pub struct HostStream {
    pub own: Addr,
    pub peer: Addr,
    /// It had more than one. Nothing else is told then.
    pub reused: bool,
    /// How many bytes the connection took from its process, and how many the process read, each
    /// counted up to 2^30.
    pub written: u64,
    pub read: u64,
    /// The process saw the end of what the peer sent, and the connection never had an error.
    pub ended: bool,
}

/// What is told of two ends: what their only connection carried, or that they had more.
fn told(ends: Ends, carried: Option<Carried>) -> HostStream
    ensures { result ≡ told (ends, carried) }
{
    match carried {
        Some(carried) => HostStream {
            own: ends.own,
            peer: ends.other,
            reused: false,
            written: u64::from(carried.counts.written),
            read: u64::from(carried.counts.read),
            ended: carried.ended,
        },
        None => HostStream {
            own: ends.own,
            peer: ends.other,
            reused: true,
            written: 0,
            read: 0,
            ended: false,
        },
    }
}

/// What a connection carried, unless its ends had another one.
fn unless(again: bool, carried: Carried) -> Option<Carried>
    ensures { result ≡ unless again carried }
{
    if again { None } else { Some(carried) }
}

/// Enters what a connection carried at its ends, or that these had more than one.
fn enter(pairs: &mut BTreeMap<Ends, Option<Carried>>, carried: Carried) -> Result<(), NoMemory>
    ensures { OnOk result (all_told pairs.new.entries ≡ with_carried (all_told pairs.old.entries) carried) }
{
    let ends = Ends {
        own: carried.own,
        other: carried.peer,
    };
    let again = pairs.contains_key(&ends);
    let _ = pairs.insert(ends, unless(again, carried))?;
    Ok(())
}

/// What connections carried, by their ends.
fn paired(alloc: Global, all: &[Carried]) -> Result<BTreeMap<Ends, Option<Carried>>, NoMemory>
    ensures { IfOk result (λ pairs. all_told pairs.entries ≡ fold with_carried [] all.now) }
{
    let mut pairs = BTreeMap::new(alloc);
    for carried in all {
        enter(&mut pairs, *carried)?;
    }
    Ok(pairs)
}

/// What is told of all pairs of ends, in their order.
fn listed(
    alloc: Global,
    pairs: &BTreeMap<Ends, Option<Carried>>,
) -> Result<Vec<HostStream>, NoMemory>
    ensures { IfOk result (λ streams. streams.items ≡ all_told pairs.now.entries) }
{
    let mut streams = Vec::new(alloc);
    for (ends, carried) in pairs {
        streams.push(told(*ends, *carried))?;
    }
    Ok(streams)
}

impl TcpSock {
    ghost use Rattle.std.specs.Prelude.{◌≡◌, OnOk};
    ghost use Rattle.sock_tcp.specs.connection.Carried.{with_gone};
    ghost use Rattle.host_sockets.specs.Records.{own_record, kept_records, records_at};
    ghost use Rattle.host_sockets.specs.TcpSocket.{TcpSocket};
    ghost use Rattle.host_sockets.specs.StandsFor.{SocketStands};

    /// Adds what its connection carried so far, if it has one.
    fn add_own(&self, all: &mut Vec<Carried>) -> Result<(), NoMemory>
        ensures { OnOk result ((s : TcpSocket) → SocketStands self.now s → all.new.items ≡ with_gone (own_record s.tcb) all.old.items) }
    {
        if let Some(conn) = &self.conn {
            all.push(conn.carried())?;
        }
        Ok(())
    }

    /// Adds what those carried so far that its listener keeps, if it has one.
    fn add_kept(&self, all: &mut Vec<Carried>) -> Result<(), NoMemory>
        ensures { OnOk result ((s : TcpSocket) → SocketStands self.now s → all.new.items ≡ with_gone (kept_records s.listen) all.old.items) }
    {
        if let Some(listener) = &self.listener {
            return listener.add_carried(all);
        }
        Ok(())
    }

    /// Adds both.
    fn add_carried(&self, all: &mut Vec<Carried>) -> Result<(), NoMemory>
        ensures { OnOk result ((s : TcpSocket) → SocketStands self.now s → all.new.items ≡ with_gone (records_at s) all.old.items) }
    {
        self.add_own(all)?;
        self.add_kept(all)
    }
}

impl Sockets {
    ghost use Rattle.std.specs.Prelude.{◌≡◌, [], flat_map, OnOk, IfOk};
    ghost use Rattle.sock_tcp.specs.connection.Carried.{with_gone};
    ghost use Rattle.host_sockets.specs.Sockets.{SocketsRecord};
    ghost use Rattle.host_sockets.specs.Records.{records_at, records_of};
    ghost use Rattle.host_sockets.specs.Streams.{streams_of};
    ghost use Rattle.host_sockets.specs.StandsFor.{Stand};

    /// What the connections carried so far that sockets have and listeners keep.
    fn carried_there(&self, alloc: Global) -> Result<Vec<Carried>, NoMemory>
        ensures { IfOk result (λ all. (t : SocketsRecord) → Stand self.now t → all.items ≡ with_gone (flat_map records_at t.tcp) []) }
    {
        let mut all = Vec::new(alloc);
        for sock in &self.tcp {
            sock.add_carried(&mut all)?;
        }
        Ok(all)
    }

    /// What all connections carried, those that are gone among them.
    fn all_carried(&self, alloc: Global) -> Result<Vec<Carried>, NoMemory>
        ensures { IfOk result (λ all. (t : SocketsRecord) → Stand self.now t → all.items ≡ with_gone (records_of t) []) }
    {
        let mut all = self.carried_there(alloc)?;
        all.extend_from_slice(self.gone.as_slice())?;
        Ok(all)
    }

    /// What it tells of each pair of ends of which it ever had a connection, in the order of own and
    /// peer's ends, as numbers.
    #[tactic(auto, unfolding(crate::specs::Streams::streams_of))]
    pub fn streams(&self, alloc: Global) -> Result<Vec<HostStream>, NoMemory>
        ensures { IfOk result (λ streams. (t : SocketsRecord) → Stand self.now t → streams.items ≡ streams_of t) }
    {
        let all = self.all_carried(alloc)?;
        let pairs = paired(alloc, all.as_slice())?;
        listed(alloc, &pairs)
    }
}
