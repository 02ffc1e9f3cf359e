//! What closing a socket does.

use crate::tcp_sock::TcpSock;
use host_wants::Outlet;
use sim_base::{NoMemory, Time};
use sock_tcp::{Carried, Effects};

impl TcpSock {
    ghost use Rattle.std.specs.Prelude.{◌≡◌, None, OnOk};
    ghost use Rattle.sock_tcp.specs.connection.Begin.{begin};
    ghost use Rattle.sock_tcp.specs.connection.Process.{closes};
    ghost use Rattle.host_sockets.specs.TcpSocket.{TcpSocket};
    ghost use Rattle.host_sockets.specs.TcpActs.{record_acts};
    ghost use Rattle.host_sockets.specs.Closing.{unheld, closed};
    ghost use Rattle.host_sockets.specs.StandsFor.{SocketStands};
    ghost use Rattle.host_sockets.specs.inside.StandsFor.{Brings};

    /// Its connection, if it has one, is closed.
    fn close_conn(
        &mut self,
        outlet: &mut Outlet,
        now: Time,
        place: usize,
        gone: &mut Vec<Carried>,
    ) -> Result<(), NoMemory>
        ensures { OnOk result ((s : TcpSocket) → SocketStands self.old s
            → Brings self.new outlet.new gone.old.items gone.new.items (record_acts now place (λ r. closes (begin r)) s outlet.old)) }
    {
        if let Some(conn) = &mut self.conn {
            let effects = conn.app_close()?;
            return self.bring_about(outlet, now, place, effects, gone);
        }
        Ok(())
    }

    /// No descriptor names it any more, and it is bound to nothing.
    fn release(&mut self)
        ensures { (s : TcpSocket) → SocketStands self.old s → s.listen ≡ None → SocketStands self.new (unheld s) }
    {
        self.held = false;
        self.bound = None;
        self.timers.clear();
    }

    /// It is closed: a listener resets each connection that wasn't accepted, and a connection is
    /// closed.
    pub(crate) fn close(
        &mut self,
        outlet: &mut Outlet,
        now: Time,
        place: usize,
        gone: &mut Vec<Carried>,
    ) -> Result<(), NoMemory>
        ensures { OnOk result ((s : TcpSocket) → SocketStands self.old s
            → Brings self.new outlet.new gone.old.items gone.new.items (closed now place s outlet.old)) }
    {
        if let Some(listener) = &mut self.listener {
            let Effects { segments, timer: _ } = listener.close(gone)?;
            outlet.send_all(segments)?;
            *self = TcpSock::fresh(self.alloc(), false);
            return Ok(());
        }
        self.release();
        self.close_conn(outlet, now, place, gone)
    }
}
