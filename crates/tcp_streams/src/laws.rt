//! Laws of records that send to one another, over every list of steps.

ghost use Rattle.std.specs.Prelude.{◌≡◌, ◌⊎◌, ℕ, ◌+◌, ◌-◌, ◌<◌, ◌≤◌, ◌^◌, List, ◌∷◌, ◌++◌, length, Bool, true, false, Contains, Some};
ghost use Rattle.sim_base.specs.Addresses.{loopback, is_same_ip};
ghost use Rattle.sim_base.specs.declared.address.Addr.{Addr};
ghost use Rattle.sim_base.specs.declared.packet.Packet.{Packet};
ghost use Rattle.sock_tcp.specs.declared.segment.header.Header.{Header};
ghost use Rattle.sock_tcp.specs.declared.segment.number.Distance.TheVariants.{Ahead, Behind};
ghost use Rattle.sock_tcp.specs.segment.Number.{wire, distance};
ghost use Rattle.sock_tcp.specs.segment.Refusal.{refusal_of};
ghost use Rattle.sock_tcp.specs.connection.Resets.{resets_of};
ghost use Rattle.sock_tcp.specs.connection.Tcb.{Tcb};
ghost use Rattle.tcp_laws.specs.Acts.{Start, IsStart, begun_by, Act, acted};
ghost use Rattle.tcp_laws.specs.Growth.{GrowsTo};
ghost use Rattle.tcp_laws.specs.Sending.{AreOf, Carries};
ghost use Rattle.tcp_streams.specs.Exchange.{Exchange, empty_exchange, IsVoid, Comes, Flies, Step, AreSteps, last_exchange};
ghost use Rattle.tcp_streams.specs.Sound.{IsSound, ReceivesOn};
ghost use Rattle.tcp_streams.specs.Heard.{HearsFrom, IsHeard, AreHonest};
ghost use Rattle.tcp_streams.specs.Frame.{everywhere, inside, IsPart, MovesOn};
ghost use Rattle.tcp_streams.specs.Stream.{is_at, IsOnce, IsSimple, stream_of, IsFaithful};

/// The number of a segment names its own offset, seen from a record that has heard of its sender, which
/// has written fewer than 2^30 bytes.
pub fn segments_named()
    ensures ahead { (w r : Tcb) (h : Header) (text : List ℕ) (c : Carries w.iss w.written w.control.fin_wanted h text)
        → length w.written < 2 ^ 30 → HearsFrom w r → r.rcv ≤ c.offset
        → distance (wire r.irs r.rcv) h.seq ≡ Ahead (c.offset - r.rcv) }
    ensures behind { (w r : Tcb) (h : Header) (text : List ℕ) (c : Carries w.iss w.written w.control.fin_wanted h text)
        → length w.written < 2 ^ 30 → HearsFrom w r → c.offset < r.rcv
        → distance (wire r.irs r.rcv) h.seq ≡ Behind (r.rcv - c.offset) }
{}

/// A record begins sound, and every act keeps it so.
pub fn records_sound()
    ensures begun { (start : Start) → IsStart start → IsSound (begun_by start).tcb }
    ensures kept { (r : Tcb) (act : Act) → IsSound r → IsSound (acted act r).tcb }
{}

/// Every segment that a sound record sends is honest.
pub fn segments_honest()
    ensures first { (start : Start) → IsStart start → AreOf (begun_by start).tcb (begun_by start).sent }
    ensures others { (r : Tcb) (act : Act) → IsSound r → AreOf (acted act r).tcb (acted act r).sent }
{}

/// A record only grows: what was written, and what was received.
pub fn records_grow()
    ensures written { (r : Tcb) (act : Act) → IsSound r → GrowsTo r (acted act r).tcb }
    ensures received { (r : Tcb) (act : Act) → ReceivesOn r (acted act r).tcb }
{}

/// In every exchange each record is sound, and each packet on its way is honest or comes from elsewhere.
pub fn exchanges_honest()
    ensures records { (scope : Addr → Addr → Bool) (exchanges : List Exchange) → AreSteps scope empty_exchange exchanges
        → (r : Tcb) → Contains (last_exchange empty_exchange exchanges).records r → IsSound r }
    ensures packets { (scope : Addr → Addr → Bool) (exchanges : List Exchange) → AreSteps scope empty_exchange exchanges
        → AreHonest scope (last_exchange empty_exchange exchanges) }
{}

/// In every exchange a record has heard nothing, or of the record at the other end, where that end had one
/// record at most, to which fewer than 2^30 bytes were written.
pub fn peers_heard()
    ensures { (scope : Addr → Addr → Bool) (exchanges : List Exchange) (own other : Addr) → AreSteps scope empty_exchange exchanges
        → scope other own ≡ true → IsOnce other own (last_exchange empty_exchange exchanges).records
        → (r : Tcb) → Contains (last_exchange empty_exchange exchanges).records r → is_at own other r ≡ true
        → IsHeard (last_exchange empty_exchange exchanges).records r }
{}

/// In every exchange what was read at one end is a front of what was written at the other, and all of it where
/// the reader saw the end, for ends that had one record each at most, with fewer than 2^30 bytes each way.
pub fn streams()
    ensures { (scope : Addr → Addr → Bool) (exchanges : List Exchange) (from to : Addr) → AreSteps scope empty_exchange exchanges
        → scope from to ≡ true → IsSimple from to (last_exchange empty_exchange exchanges).records
        → IsFaithful (stream_of from to (last_exchange empty_exchange exchanges).records) }
{}

/// What answers a segment of no connection tells nothing of a stream, nor do the resets that a listener
/// sends as it closes.
pub fn refusals_void()
    ensures refusals { (p q : Packet) → refusal_of p ≡ Some q → IsVoid q.load }
    ensures resets { (records : List Tcb) (p : Packet) → Contains (resets_of records) p → IsVoid p.load }
{}

/// Steps of a part of an exchange, as of one host among others, are steps of the whole; lists of steps join; what
/// others do is a step of the part too, where their packets come; in an exchange of the ends of 127.0.0.1 packets
/// without that address do; and steps of an exchange of every two ends are steps of an exchange of fewer.
pub fn parts_step()
    ensures part { (scope : Addr → Addr → Bool) (part : Exchange) (exchanges : List Exchange) (others : List Tcb) (before after : Exchange)
        → IsPart part others before → AreSteps scope part exchanges → MovesOn scope (last_exchange part exchanges) others before after
        → (more : List Exchange) × AreSteps scope before more × (last_exchange before more ≡ after) }
    ensures joined { (scope : Addr → Addr → Bool) (m : Exchange) (exchanges more : List Exchange)
        → AreSteps scope m exchanges → AreSteps scope (last_exchange m exchanges) more
        → AreSteps scope m (exchanges ++ more) × (last_exchange m (exchanges ++ more) ≡ last_exchange (last_exchange m exchanges) more) }
    ensures others { (scope : Addr → Addr → Bool) (part : Exchange) (flying : List Packet)
        → ((p : Packet) → Contains flying p → Contains part.flying p ⊎ Comes scope p)
        → Step scope part (record { records = part.records; flying = flying }) }
    ensures outside { (p : Packet) → is_same_ip p.from.ip loopback ≡ false → is_same_ip p.to.ip loopback ≡ false
        → Comes inside p }
    ensures narrowed { (scope : Addr → Addr → Bool) (m : Exchange) (exchanges : List Exchange)
        → AreSteps everywhere m exchanges → AreSteps scope m exchanges }
{}
