//! A listener and the connections that wait to be accepted.

ghost use Rattle.std.specs.Prelude.{◌≡◌};
ghost use Rattle.sock_tcp.specs.listener.Listen.{queue_limit};

mod asking;
mod hearing;
mod listening;
mod queue;

use crate::connection::Conn;
use sim_base::Addr;
use std::alloc::Global;

/// The most connections that a listener keeps.
const MAX_BACKLOG: usize = 128;

/// How many connections a listener keeps for what the process asked: at least 1 and at most 128.
fn queue_limit(backlog: i32) -> usize
    ensures { result ≡ queue_limit backlog }
{
    if backlog < 1 {
        1
    } else if backlog > 128 {
        MAX_BACKLOG
    } else {
        backlog as usize
    }
}

/// A listener. It keeps the connections that weren't accepted, in the order of their SYNs, and the
/// accept queue: the places of those that became ESTABLISHED, in this order. The others are the SYN
/// queue. After a call that answers want of memory nothing is known of it.
pub struct Listener {
    pub(crate) local: Addr,
    pub(crate) limit: usize,
    pub(crate) records: Vec<Conn>,
    pub(crate) accept_queue: Vec<usize>,
}

/// By hand: a derived one would be proved anew in each crate that drops such a value.
impl Drop for Listener {
    fn drop(self) {
        let Listener {
            local: _,
            limit: _,
            records,
            accept_queue,
        } = self;
        drop(records);
        drop(accept_queue);
    }
}

impl Listener {
    ghost use Rattle.std.specs.Prelude.{◌≡◌, length};
    ghost use Rattle.sock_tcp.specs.listener.Listen.{Listen, fresh_listen, queue_limit};
    ghost use Rattle.sock_tcp.specs.listener.ListensFor.{ListensFor};

    /// A listener on an end, which keeps as many connections as `backlog` asks for, at least 1 and
    /// at most 128.
    #[tactic(auto, unfolding(crate::specs::listener::Listen::fresh_listen))]
    pub fn new(alloc: Global, local: Addr, backlog: i32) -> Listener
        ensures { ListensFor result (fresh_listen local backlog) }
    {
        Listener {
            local,
            limit: queue_limit(backlog),
            records: Vec::new(alloc),
            accept_queue: Vec::new(alloc),
        }
    }

    /// It keeps as many as `backlog` asks for from now on.
    pub fn set_backlog(&mut self, backlog: i32)
        ensures { (l : Listen) → ListensFor self.old l
            → ListensFor self.new (record l { limit = queue_limit backlog }) }
    {
        self.limit = queue_limit(backlog);
    }

    /// The end that it listens on.
    pub fn local(&self) -> Addr
        ensures { (l : Listen) → ListensFor self.now l → result ≡ l.local }
    {
        self.local
    }

    /// How many connections wait to be accepted.
    pub fn waiting(&self) -> usize
        ensures { (l : Listen) → ListensFor self.now l → result ≡ length l.accept_queue }
    {
        self.accept_queue.len()
    }
}
