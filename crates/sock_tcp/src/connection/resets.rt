//! The resets of connections that a listener gives up (RFC 9293, section 3.10.4).

ghost use Rattle.std.specs.Prelude.{◌≡◌, ◌++◌, List, OnOk};
ghost use Rattle.sock_tcp.specs.connection.Tcb.{Tcb};
ghost use Rattle.sock_tcp.specs.connection.Resets.{reset_of, resets_of};
ghost use Rattle.sock_tcp.specs.connection.StandsFor.{StandsFor, StandsAll};

use crate::connection::conn::Conn;
use crate::connection::effects::Draft;
use sim_base::{NoMemory, RST};

/// Resets a connection, unless it is over.
fn reset(conn: &Conn, draft: &mut Draft) -> Result<(), NoMemory>
    ensures segments { OnOk result ((r : Tcb) → StandsFor conn.now r
        → draft.new.segments.items ≡ draft.old.segments.items ++ reset_of r) }
    ensures started { draft.new.started ≡ draft.old.started }
{
    if !conn.control.state.is_over() {
        let seq = conn.number(conn.sent);
        draft.send(conn.control.without_ack(conn.alloc(), RST, seq))?;
    }
    Ok(())
}

/// Resets each connection, unless it is over. It starts no timer.
pub fn reset_all(conns: &[Conn], draft: &mut Draft) -> Result<(), NoMemory>
    ensures segments { OnOk result ((records : List Tcb) → StandsAll conns.now records
        → draft.new.segments.items ≡ draft.old.segments.items ++ resets_of records) }
    ensures started { draft.new.started ≡ draft.old.started }
{
    for conn in conns {
        reset(conn, draft)?;
    }
    Ok(())
}
