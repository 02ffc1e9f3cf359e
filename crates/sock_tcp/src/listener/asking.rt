//! A SYN that asks a listener for a connection (RFC 9293, section 3.10.7.2).

ghost use Rattle.std.specs.Prelude.{◌≡◌};
ghost use Rattle.sock_tcp.specs.listener.Listen.{asks, load_header, asks_in, listens_at};

use crate::connection::{Conn, Effects, Opened};
use crate::listener::Listener;
use crate::segment::Header;
use host_draws::Draws;
use sim_base::{Addr, Ip, Load, NoMemory, Packet};

/// Whether it is a SYN alone.
fn asks(header: Header) -> bool
    ensures { result ≡ asks header }
{
    header.syn && !header.has_ack && !header.rst
}

/// The header of what a packet carries, where that is a segment.
fn load_header(load: &Load) -> Option<Header>
    ensures { result ≡ load_header load.now }
{
    match load {
        Load::Udp(_) => None,
        Load::Tcp {
            flags,
            seq,
            ack,
            window,
            ..
        } => Some(Header::new(*flags, *seq, *ack, *window)),
    }
}

/// Whether a packet carries a SYN alone.
fn asks_in(load: &Load) -> bool
    ensures { result ≡ asks_in (load_header load.now) }
{
    match load_header(load) {
        None => false,
        Some(header) => asks(header),
    }
}

/// Whether a listener on `local` takes what is sent to an end.
fn listens_at(to: Addr, local: Addr) -> bool
    ensures { result ≡ listens_at to local }
{
    local.port == to.port && (local.ip == Ip::ANY || local.ip == to.ip)
}

impl Listener {
    ghost use Rattle.std.specs.Prelude.{true, IfOk, OnOk, if◌then◌else◌};
    ghost use Rattle.host_draws.specs.Draws.{draw};
    ghost use Rattle.sock_tcp.specs.listener.Listen.{Listen, has_room, makes_record, asked, new_heard, header_makes, takes, takes_word};
    ghost use Rattle.sock_tcp.specs.listener.ListensFor.{ListensFor, Tells};

    /// Whether the queues have room for one more connection.
    fn has_room(&self) -> bool
        ensures { (l : Listen) → ListensFor self.now l → result ≡ has_room l }
    {
        self.records.len() < self.limit
    }

    /// Whether a segment that belongs to no connection makes one.
    fn header_makes(&self, header: Header) -> bool
        ensures { (l : Listen) → ListensFor self.now l → result ≡ makes_record header l }
    {
        asks(header) && self.has_room()
    }

    /// Makes a connection, whose first number is drawn.
    fn make_record(
        &mut self,
        segment: &Packet,
        header: Header,
        draws: &mut Draws,
    ) -> Result<Effects, NoMemory>
        ensures hears { IfOk result (λ effects. (l : Listen) → ListensFor self.old l
            → makes_record header l ≡ true
            → Tells self.new effects (asked segment.now header (draw draws.old).0 l)) }
        ensures draws { OnOk result (draws.new ≡ (draw draws.old).1) }
    {
        let alloc = self.alloc();
        let iss = (draws.word() % (1 << 32)) as u32;
        let made = Conn::answer_syn(alloc, segment.to, segment.from, iss, header.seq)?;
        let Opened { conn, effects } = made;
        self.records.push(conn)?;
        Ok(effects)
    }

    fn hear_header(
        &mut self,
        segment: &Packet,
        header: Header,
        draws: &mut Draws,
    ) -> Result<Effects, NoMemory>
        ensures hears { IfOk result (λ effects. (l : Listen) → ListensFor self.old l
            → Tells self.new effects (asked segment.now header (draw draws.old).0 l)) }
        ensures draws { OnOk result ((l : Listen) → ListensFor self.old l
            → draws.new ≡ (if makes_record header l then (draw draws.old).1 else draws.old)) }
    {
        if self.header_makes(header) {
            let effects = self.make_record(segment, header, draws)?;
            return Ok(effects);
        }
        Ok(Effects::none(self.alloc()))
    }

    /// A segment that belongs to no connection: a SYN may make one.
    pub(crate) fn hear_new(
        &mut self,
        segment: &Packet,
        draws: &mut Draws,
    ) -> Result<Effects, NoMemory>
        ensures hears { IfOk result (λ effects. (l : Listen) → ListensFor self.old l
            → Tells self.new effects (new_heard segment.now (load_header segment.now.load) (draw draws.old).0 l)) }
        ensures draws { OnOk result ((l : Listen) → ListensFor self.old l
            → draws.new ≡ (if header_makes (load_header segment.now.load) l then (draw draws.old).1 else draws.old)) }
    {
        if let Some(header) = load_header(&segment.load) {
            let effects = self.hear_header(segment, header, draws)?;
            return Ok(effects);
        }
        Ok(Effects::none(self.alloc()))
    }
    /// Whether a segment that belongs to no connection is for this listener: a SYN alone to its
    /// port, and to its address where that isn't 0.0.0.0.
    #[tactic(auto, unfolding(crate::specs::listener::Listen::takes))]
    pub fn takes(&self, segment: &Packet) -> bool
        ensures { (l : Listen) → ListensFor self.now l → result ≡ takes segment.now l }
    {
        asks_in(&segment.load) && listens_at(segment.to, self.local)
    }

    /// Whether the arrival of a segment makes a connection.
    #[tactic(auto, unfolding(crate::specs::listener::Listen::takes_word))]
    pub fn makes_record(&self, segment: &Packet) -> bool
        ensures { (l : Listen) → ListensFor self.now l → result ≡ takes_word segment.now l }
    {
        let kept = self.is_kept(segment.to, segment.from);
        !kept && self.load_makes(&segment.load)
    }

    /// Whether what a packet carries makes a connection, where it belongs to none.
    fn load_makes(&self, load: &Load) -> bool
        ensures { (l : Listen) → ListensFor self.now l → result ≡ header_makes (load_header load.now) l }
    {
        match load_header(load) {
            None => false,
            Some(header) => self.header_makes(header),
        }
    }
}
