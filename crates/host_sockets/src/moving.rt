//! Calls that move bytes over connections, and end and close them.

use crate::reply::Reply;
use crate::sockets::Sockets;
use host_wants::{CallError, Outlet, Refusal};
use sim_base::{Addr, Book, Bytes, Errno, NoMemory, Time};
use sock_tcp::Shut;

impl Sockets {
    ghost use Rattle.std.specs.Prelude.{◌≡◌, ◌≤◌, length, IfOk, OnOk};
    ghost use Rattle.sock_tcp.specs.connection.Begin.{begin};
    ghost use Rattle.sock_tcp.specs.connection.Process.{shuts};
    ghost use Rattle.host_sockets.specs.Sockets.{SocketsRecord, tcb_at};
    ghost use Rattle.host_sockets.specs.TcpActs.{record_acts, acts_at};
    ghost use Rattle.host_sockets.specs.Moving.{send_asked, count_of, size_of, count_taken, takes_written, sends_bytes, sends_taking, recv_asked, bytes_given, gives_read, receives_bytes, receives_taking, may_shut, shuts_tcp};
    ghost use Rattle.host_sockets.specs.Closing.{closes_tcp};
    ghost use Rattle.host_sockets.specs.StandsFor.{Stand, Leaves, Answers};

    /// Whether the TCP socket with a number would send so many bytes, to an address where one is
    /// given. It tries what `send_tcp` tries.
    pub fn send_asked(
        &self,
        hosts: &Book,
        k: usize,
        count: usize,
        to: Option<Addr>,
        quiet: bool,
    ) -> Result<(), Refusal>
        ensures { (t : SocketsRecord) → Stand self.now t → result ≡ send_asked hosts.now k count to quiet t }
    {
        if k >= self.tcp.len() {
            return Err(Refusal::Errno(Errno::Ebadf));
        }
        self.tcp[k].may_send(hosts, count, to, quiet)
    }

    /// The connection of the socket with a number takes bytes of the process.
    fn write_at(
        &mut self,
        outlet: &mut Outlet,
        now: Time,
        k: usize,
        bytes: &[u8],
    ) -> Result<usize, NoMemory>
        ensures count { IfOk result (λ count. (t : SocketsRecord) → Stand self.old t → count ≡ count_taken bytes.now (tcb_at k t)) }
        ensures at_most { IfOk result (λ count. count ≤ length bytes.now) }
        ensures leaves { OnOk result ((t : SocketsRecord) → Stand self.old t
            → Leaves self.new outlet.new (acts_at k (takes_written now k bytes.now) t outlet.old)) }
    {
        if k >= self.tcp.len() {
            return Ok(0);
        }
        let before = self.begin_act(k);
        let sock = &mut self.tcp[k];
        let answer = sock.write(outlet, now, k, bytes, &mut self.gone);
        self.end_act(k, before);
        answer
    }

    /// `send_tcp` but for the kept error, which it doesn't take.
    fn try_send(
        &mut self,
        hosts: &Book,
        outlet: &mut Outlet,
        now: Time,
        k: usize,
        bytes: &[u8],
        to: Option<Addr>,
        quiet: bool,
    ) -> Result<usize, CallError>
        ensures row { (t : SocketsRecord) → Stand self.old t
            → Answers (sends_bytes hosts.now now k bytes.now to quiet t outlet.old) t outlet.old self.new outlet.new result }
        ensures at_most { IfOk result (λ count. count ≤ length bytes.now) }
    {
        self.send_asked(hosts, k, bytes.len(), to, quiet)?;
        let count = self.write_at(outlet, now, k, bytes)?;
        Ok(count)
    }

    /// Sends bytes over the connection of the TCP socket with a number, as many as its send buffer
    /// has room for (`send(2)`, `sendto(2)`). An address is only tried. Answers how many bytes it
    /// took, or the error that the connection kept.
    ///
    /// Refused in this order: `Ebadf`, there is no such socket; `Enetunreach`, the address is
    /// neither 127.0.0.1 nor a host's; `Einval`, the socket is bound to 127.0.0.1 and the address is
    /// another; `Enotconn`, the socket isn't connected; where writing has ended `Epipe` if `quiet`,
    /// else the process ends by SIGPIPE; it waits where there is room for none of the bytes.
    #[tactic(auto, unfolding(crate::specs::Moving::sends_taking))]
    pub fn send_tcp(
        &mut self,
        hosts: &Book,
        outlet: &mut Outlet,
        now: Time,
        k: usize,
        bytes: &[u8],
        to: Option<Addr>,
        quiet: bool,
    ) -> Result<Reply<usize>, CallError>
        ensures row { (t : SocketsRecord) → Stand self.old t
            → Answers (sends_taking hosts.now now k bytes.now to quiet t outlet.old) t outlet.old self.new outlet.new result }
        ensures at_most { IfOk result (λ reply. count_of reply ≤ length bytes.now) }
    {
        match self.try_send(hosts, outlet, now, k, bytes, to, quiet) {
            Ok(count) => Ok(Reply::Done(count)),
            Err(CallError::Refused(Refusal::Kept(errno))) => {
                self.take_error_at(outlet, now, k)?;
                Ok(Reply::Failed(errno))
            }
            Err(CallError::Refused(Refusal::Errno(errno))) => {
                Err(CallError::Refused(Refusal::Errno(errno)))
            }
            Err(CallError::Refused(Refusal::Wait(until))) => {
                Err(CallError::Refused(Refusal::Wait(until)))
            }
            Err(CallError::Refused(Refusal::End(state))) => {
                Err(CallError::Refused(Refusal::End(state)))
            }
            Err(CallError::NoMemory) => Err(CallError::NoMemory),
        }
    }

    /// Whether the TCP socket with a number would give bytes. It tries what `recv_tcp` tries.
    pub fn recv_asked(&self, k: usize) -> Result<(), Refusal>
        ensures { (t : SocketsRecord) → Stand self.now t → result ≡ recv_asked k t }
    {
        if k >= self.tcp.len() {
            return Err(Refusal::Errno(Errno::Ebadf));
        }
        self.tcp[k].may_recv()
    }

    /// The connection of the socket with a number gives bytes to the process, at most so many.
    fn read_at(
        &mut self,
        outlet: &mut Outlet,
        now: Time,
        k: usize,
        count: usize,
    ) -> Result<Bytes, NoMemory>
        ensures given { IfOk result (λ bytes. (t : SocketsRecord) → Stand self.old t → bytes ≡ bytes_given count (tcb_at k t)) }
        ensures at_most { IfOk result (λ bytes. length bytes ≤ count) }
        ensures leaves { OnOk result ((t : SocketsRecord) → Stand self.old t
            → Leaves self.new outlet.new (acts_at k (gives_read now k count) t outlet.old)) }
    {
        if k >= self.tcp.len() {
            return Ok(Bytes::new(self.alloc()));
        }
        let before = self.begin_act(k);
        let sock = &mut self.tcp[k];
        let answer = sock.read(outlet, now, k, count, &mut self.gone);
        self.end_act(k, before);
        answer
    }

    /// `recv_tcp` but for the kept error, which it doesn't take.
    fn try_recv(
        &mut self,
        outlet: &mut Outlet,
        now: Time,
        k: usize,
        count: usize,
    ) -> Result<Bytes, CallError>
        ensures row { (t : SocketsRecord) → Stand self.old t
            → Answers (receives_bytes now k count t outlet.old) t outlet.old self.new outlet.new result }
        ensures at_most { IfOk result (λ bytes. length bytes ≤ count) }
    {
        self.recv_asked(k)?;
        let bytes = self.read_at(outlet, now, k, count)?;
        Ok(bytes)
    }

    /// Gives bytes that came over the connection of the TCP socket with a number, at most so many
    /// (`recv(2)`); none where no more come. Or answers the error that the connection kept.
    ///
    /// Refused in this order: `Ebadf`, there is no such socket; `Enotconn`, the socket isn't
    /// connected; it waits where no byte waits and more may come.
    #[tactic(auto, unfolding(crate::specs::Moving::receives_taking))]
    pub fn recv_tcp(
        &mut self,
        outlet: &mut Outlet,
        now: Time,
        k: usize,
        count: usize,
    ) -> Result<Reply<Bytes>, CallError>
        ensures row { (t : SocketsRecord) → Stand self.old t
            → Answers (receives_taking now k count t outlet.old) t outlet.old self.new outlet.new result }
        ensures at_most { IfOk result (λ reply. size_of reply ≤ count) }
    {
        match self.try_recv(outlet, now, k, count) {
            Ok(bytes) => Ok(Reply::Done(bytes)),
            Err(CallError::Refused(Refusal::Kept(errno))) => {
                self.take_error_at(outlet, now, k)?;
                Ok(Reply::Failed(errno))
            }
            Err(CallError::Refused(Refusal::Errno(errno))) => {
                Err(CallError::Refused(Refusal::Errno(errno)))
            }
            Err(CallError::Refused(Refusal::Wait(until))) => {
                Err(CallError::Refused(Refusal::Wait(until)))
            }
            Err(CallError::Refused(Refusal::End(state))) => {
                Err(CallError::Refused(Refusal::End(state)))
            }
            Err(CallError::NoMemory) => Err(CallError::NoMemory),
        }
    }

    /// What refuses `shut_tcp`.
    fn may_shut(&self, k: usize) -> Result<(), Refusal>
        ensures { (t : SocketsRecord) → Stand self.now t → result ≡ may_shut k t }
    {
        if k >= self.tcp.len() {
            return Err(Refusal::Errno(Errno::Ebadf));
        }
        self.tcp[k].refuse_unconnected()
    }

    fn shut_at(
        &mut self,
        outlet: &mut Outlet,
        now: Time,
        k: usize,
        how: Shut,
    ) -> Result<(), NoMemory>
        ensures { OnOk result ((t : SocketsRecord) → Stand self.old t
            → Leaves self.new outlet.new (acts_at k (record_acts now k (λ r. shuts how (begin r))) t outlet.old)) }
    {
        if k >= self.tcp.len() {
            return Ok(());
        }
        let before = self.begin_act(k);
        let sock = &mut self.tcp[k];
        let answer = sock.shut(outlet, now, k, how, &mut self.gone);
        self.end_act(k, before);
        answer
    }

    /// Ends one direction of the connection of the TCP socket with a number, or both
    /// (`shutdown(2)`).
    ///
    /// Refused in this order: `Ebadf`, there is no such socket; `Enotconn`, it isn't connected.
    #[tactic(auto, unfolding(crate::specs::Moving::shuts_tcp))]
    pub fn shut_tcp(
        &mut self,
        outlet: &mut Outlet,
        now: Time,
        k: usize,
        how: Shut,
    ) -> Result<(), CallError>
        ensures { (t : SocketsRecord) → Stand self.old t
            → Answers (shuts_tcp now k how t outlet.old) t outlet.old self.new outlet.new result }
    {
        self.may_shut(k)?;
        self.shut_at(outlet, now, k, how)?;
        Ok(())
    }

    /// Closes the TCP socket with a number (`close(2)`): a listener resets each connection that
    /// wasn't accepted, in the order of their SYNs; a connection lives on without the socket until
    /// it is over.
    pub fn close_tcp(&mut self, outlet: &mut Outlet, now: Time, k: usize) -> Result<(), NoMemory>
        ensures { OnOk result ((t : SocketsRecord) → Stand self.old t
            → Leaves self.new outlet.new (closes_tcp now k t outlet.old)) }
    {
        if k >= self.tcp.len() {
            return Ok(());
        }
        let before = self.begin_act(k);
        let sock = &mut self.tcp[k];
        let answer = sock.close(outlet, now, k, &mut self.gone);
        self.end_act(k, before);
        answer
    }
}
