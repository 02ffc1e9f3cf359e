//! What a connection carried.

ghost use Rattle.std.specs.Prelude.{◌≡◌, ◌+◌, List, OnOk};
ghost use Rattle.sock_tcp.specs.connection.Carried.{counted, with_gone};
ghost use Rattle.sock_tcp.specs.connection.StandsFor.{StandsAll};
ghost use Rattle.sock_tcp.specs.connection.Tcb.{Tcb};

use crate::connection::conn::Conn;
use sim_base::{Addr, NoMemory};

/// Bytes are counted up to here.
const MOST_COUNTED: usize = 1 << 30;

/// How many bytes a connection took from its process, and how many the process read, each counted
/// up to 2^30.
#[derive(Clone, Copy)]
pub struct Counts {
    pub written: u32,
    pub read: u32,
}

/// What is kept of a connection once it is gone: its ends, its counts, and whether its process saw
/// the end of what the peer sent, without an error.
#[derive(Clone, Copy)]
pub struct Carried {
    pub own: Addr,
    pub peer: Addr,
    pub counts: Counts,
    pub ended: bool,
}

/// A count of some bytes more.
fn counted(count: u32, more: usize) -> u32
    ensures { result ≡ counted (count + more) }
{
    (count as usize).saturating_add(more).min(MOST_COUNTED) as u32
}

impl Counts {
    ghost use Rattle.std.specs.Prelude.{◌≡◌, ◌+◌};
    ghost use Rattle.sock_tcp.specs.connection.Carried.{counted};

    /// The process wrote some bytes more.
    pub(crate) fn wrote(self, more: usize) -> Counts
        ensures { result ≡ record self { written = counted (self.written + more) } }
    {
        Counts {
            written: counted(self.written, more),
            ..self
        }
    }

    /// The process read some bytes more.
    pub(crate) fn was_read(self, more: usize) -> Counts
        ensures { result ≡ record self { read = counted (self.read + more) } }
    {
        Counts {
            read: counted(self.read, more),
            ..self
        }
    }
}

impl Conn {
    ghost use Rattle.std.specs.Prelude.{◌≡◌};
    ghost use Rattle.sock_tcp.specs.connection.Carried.{carried_of};
    ghost use Rattle.sock_tcp.specs.connection.StandsFor.{StandsFor};
    ghost use Rattle.sock_tcp.specs.connection.Tcb.{Tcb};

    /// What it carried so far.
    pub fn carried(&self) -> Carried
        ensures { (r : Tcb) → StandsFor self.now r → result ≡ carried_of r }
    {
        Carried {
            own: self.control.local,
            peer: self.control.peer,
            counts: self.counts,
            ended: self.control.saw_end && !self.control.had_error,
        }
    }
}

/// Adds what each connection carried.
pub fn add_carried(conns: &[Conn], all: &mut Vec<Carried>) -> Result<(), NoMemory>
    ensures { OnOk result ((records : List Tcb) → StandsAll conns.now records → all.new.items ≡ with_gone records all.old.items) }
{
    for conn in conns {
        all.push(conn.carried())?;
    }
    Ok(())
}
