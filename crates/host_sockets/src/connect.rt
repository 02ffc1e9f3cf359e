//! Calls that connect TCP sockets, and errors of connections.

use crate::index::NO_PLACE;
use crate::reply::Reply;
use crate::sockets::Sockets;
use host_wants::{CallError, Outlet, Refusal};
use sim_base::{Addr, Book, Errno, NoMemory, Time, source_ip};

impl Sockets {
    ghost use Rattle.std.specs.Prelude.{◌≡◌, ◌<◌, Ok, Err, OnOk};
    ghost use Rattle.host_sockets.specs.Sockets.{SocketsRecord};
    ghost use Rattle.host_sockets.specs.TcpActs.{acts_at};
    ghost use Rattle.host_sockets.specs.Connecting.{connect_begun, connect_asked, opens, connects, connects_taking, error_takes, connect_waited, connect_answers};
    ghost use Rattle.host_sockets.specs.Names.{takes_error, error_asked};
    ghost use Rattle.host_sockets.specs.StandsFor.{Stand, Leaves, Answers};
    ghost use Rattle.host_sockets.specs.inside.StandsFor.{Asks};

    /// The error that the connection of the socket with a number kept is taken.
    pub(crate) fn take_error_at(
        &mut self,
        outlet: &mut Outlet,
        now: Time,
        k: usize,
    ) -> Result<(), NoMemory>
        ensures { OnOk result ((t : SocketsRecord) → Stand self.old t
            → Leaves self.new outlet.new (acts_at k (error_takes now k) t outlet.old)) }
    {
        if k >= self.tcp.len() {
            return Ok(());
        }
        let before = self.begin_act(k);
        let sock = &mut self.tcp[k];
        let answer = sock.take_error(outlet, now, k, &mut self.gone);
        self.end_act(k, before);
        answer
    }

    /// The error that the connection of the socket with a number keeps.
    fn error_asked(&self, k: usize) -> Result<Option<Errno>, Refusal>
        ensures { (t : SocketsRecord) → Stand self.now t → result ≡ error_asked k t }
    {
        if k >= self.tcp.len() {
            return Err(Refusal::Errno(Errno::Ebadf));
        }
        Ok(self.tcp[k].kept_error())
    }

    /// Takes the error that the connection of the TCP socket with a number kept (`SO_ERROR`).
    ///
    /// Refused by `Ebadf` where there is no such socket.
    #[tactic(auto, unfolding(crate::specs::Names::takes_error))]
    pub fn take_error(
        &mut self,
        outlet: &mut Outlet,
        now: Time,
        k: usize,
    ) -> Result<Option<Errno>, CallError>
        ensures { (t : SocketsRecord) → Stand self.old t
            → Answers (takes_error now k t outlet.old) t outlet.old self.new outlet.new result }
    {
        let error = self.error_asked(k)?;
        self.take_error_at(outlet, now, k)?;
        Ok(error)
    }

    /// What refuses the socket with a number before its ports are looked at.
    fn may_connect(&self, hosts: &Book, k: usize, to: Addr) -> Result<(), Refusal>
        ensures { (t : SocketsRecord) → Stand self.now t → result ≡ connect_begun hosts.now k to t }
    {
        if k >= self.tcp.len() {
            return Err(Refusal::Errno(Errno::Ebadf));
        }
        self.tcp[k].may_connect(hosts, to)
    }

    /// The own end of a connection of the socket with a number to another end.
    fn end_to_connect(&self, hosts: &Book, k: usize, to: Addr) -> Result<Addr, CallError>
        ensures { (t : SocketsRecord) → Stand self.now t → Asks (connect_asked hosts.now k to t) result }
    {
        self.may_connect(hosts, k, to)?;
        let bound = self.bound_or_free(k)?;
        let own = Addr {
            ip: source_ip(self.own, bound.ip, to.ip),
            port: bound.port,
        };
        if self.has_pair(own, to) {
            return Err(CallError::Refused(Refusal::Errno(Errno::Eaddrnotavail)));
        }
        Ok(own)
    }

    fn open_at(
        &mut self,
        outlet: &mut Outlet,
        now: Time,
        k: usize,
        own: Addr,
        other: Addr,
    ) -> Result<(), NoMemory>
        ensures { OnOk result ((t : SocketsRecord) → Stand self.old t
            → Leaves self.new outlet.new (acts_at k (opens now k own other) t outlet.old)) }
    {
        if k >= self.tcp.len() {
            return Ok(());
        }
        let before = self.begin_act(k);
        let sock = &mut self.tcp[k];
        let answer = sock.open(outlet, now, k, own, other, &mut self.gone);
        self.end_act(k, before);
        answer
    }

    /// `connect_tcp` but for the kept error, which it doesn't take.
    #[tactic(auto, unfolding(crate::specs::Connecting::connects))]
    fn try_connect(
        &mut self,
        hosts: &Book,
        outlet: &mut Outlet,
        now: Time,
        k: usize,
        to: Addr,
    ) -> Result<(), CallError>
        ensures { (t : SocketsRecord) → Stand self.old t
            → Answers (connects hosts.now now k to t outlet.old) t outlet.old self.new outlet.new result }
    {
        self.turn_to(NO_PLACE);
        let own = self.end_to_connect(hosts, k, to)?;
        self.make_room()?;
        self.open_at(outlet, now, k, own, to)?;
        Ok(())
    }

    /// Connects the TCP socket with a number to another end: the SYN is sent (`connect(2)`). Answers
    /// that it is, or the error of an earlier connect that failed.
    ///
    /// Refused in this order: `Ebadf`, there is no such socket; `Ealready`, it is connecting;
    /// `Eisconn`, it is connected; `Eopnotsupp`, it listens; `Enetunreach`, the address is neither
    /// 127.0.0.1 nor a host's; `Einval`, the socket is bound to 127.0.0.1 and the address is another;
    /// `Eaddrnotavail`, the port is 0, no port is free, or a live connection has the two ends.
    #[tactic(auto, unfolding(crate::specs::Connecting::connects_taking))]
    pub fn connect_tcp(
        &mut self,
        hosts: &Book,
        outlet: &mut Outlet,
        now: Time,
        k: usize,
        to: Addr,
    ) -> Result<Reply<()>, CallError>
        ensures { (t : SocketsRecord) → Stand self.old t
            → Answers (connects_taking hosts.now now k to t outlet.old) t outlet.old self.new outlet.new result }
    {
        match self.try_connect(hosts, outlet, now, k, to) {
            Ok(()) => Ok(Reply::Done(())),
            Err(CallError::Refused(Refusal::Kept(errno))) => {
                self.take_error_at(outlet, now, k)?;
                Ok(Reply::Failed(errno))
            }
            Err(CallError::Refused(Refusal::Errno(errno))) => {
                Err(CallError::Refused(Refusal::Errno(errno)))
            }
            Err(CallError::Refused(Refusal::Wait(until))) => {
                Err(CallError::Refused(Refusal::Wait(until)))
            }
            Err(CallError::Refused(Refusal::End(state))) => {
                Err(CallError::Refused(Refusal::End(state)))
            }
            Err(CallError::NoMemory) => Err(CallError::NoMemory),
        }
    }

    /// Whether a connect of the TCP socket with a number that waited would answer. It tries what
    /// `connect_answer` tries.
    pub fn connect_waited(&self, k: usize) -> Result<(), Refusal>
        ensures { (t : SocketsRecord) → Stand self.now t → result ≡ connect_waited k t }
    {
        if k >= self.tcp.len() {
            return Err(Refusal::Errno(Errno::Ebadf));
        }
        self.tcp[k].connect_ends()
    }

    /// The answer of a connect of the TCP socket with a number that waited: it is done once the
    /// connection was ESTABLISHED, also where it has ended since, or answers the error by which it
    /// failed.
    ///
    /// Refused in this order: `Ebadf`, there is no such socket; `Enotconn`, it never connected; it
    /// waits while it connects.
    #[tactic(auto, unfolding(crate::specs::Connecting::connect_answers))]
    pub fn connect_answer(
        &mut self,
        outlet: &mut Outlet,
        now: Time,
        k: usize,
    ) -> Result<Reply<()>, CallError>
        ensures { (t : SocketsRecord) → Stand self.old t
            → Answers (connect_answers now k t outlet.old) t outlet.old self.new outlet.new result }
    {
        match self.connect_waited(k) {
            Ok(()) => Ok(Reply::Done(())),
            Err(Refusal::Kept(errno)) => {
                self.take_error_at(outlet, now, k)?;
                Ok(Reply::Failed(errno))
            }
            Err(Refusal::Errno(errno)) => Err(CallError::Refused(Refusal::Errno(errno))),
            Err(Refusal::Wait(until)) => Err(CallError::Refused(Refusal::Wait(until))),
            Err(Refusal::End(state)) => Err(CallError::Refused(Refusal::End(state))),
        }
    }
}
