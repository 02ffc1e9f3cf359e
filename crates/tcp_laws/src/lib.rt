//! Laws of TCP's record: what its acts amount to, over every history of them. No code that runs.
#![tactic(auto)]

ghost use Rattle.std.specs.Prelude.{◌≡◌, ◌<◌, ◌≤◌, ◌+◌, ◌-◌, ◌^◌, ℕ, List, length, take, true};
ghost use Rattle.sock_tcp.specs.declared.segment.number.Distance.TheVariants.{Ahead, Behind};
ghost use Rattle.sock_tcp.specs.segment.Number.{wire, distance};
ghost use Rattle.sock_tcp.specs.connection.Congestion.{CongestionEvent, flight_of, flight_after};
ghost use Rattle.tcp_laws.specs.Acts.{Start, IsStart, begun_by, Act, acted, record_of};
ghost use Rattle.tcp_laws.specs.Order.{IsInOrder};
ghost use Rattle.tcp_laws.specs.Received.{IsCounted, all_given};
ghost use Rattle.tcp_laws.specs.Sending.{AreOf};
ghost use Rattle.tcp_laws.specs.Growth.{GrowsTo};
ghost use Rattle.tcp_laws.specs.Window.{all_events, Bounded, sends_again, FitWindow};

/// An arriving number names the offset that is nearest to the expected one.
pub fn nearest_offset()
    ensures ahead { (start expected offset : ℕ) → expected ≤ offset → offset < expected + 2 ^ 31
        → distance (wire start expected) (wire start offset) ≡ Ahead (offset - expected) }
    ensures behind { (start expected offset : ℕ) → offset < expected → expected ≤ offset + 2 ^ 31
        → distance (wire start expected) (wire start offset) ≡ Behind (expected - offset) }
{}

/// SND.UNA, SND.NXT, the highest number sent and the end of what was written stand in order.
pub fn numbers_in_order()
    ensures { (start : Start) (acts : List Act) → IsStart start → IsInOrder (record_of start acts) }
{}

/// RCV.NXT counts the SYN, what was received, what was thrown away, and the FIN where it was taken.
pub fn received_counted()
    ensures { (start : Start) (acts : List Act) → IsStart start → IsCounted (record_of start acts) }
{}

/// A record sends from its own end to its peer, text from its place in what was written, and a FIN
/// behind all of it once writing has ended.
pub fn segments_carry()
    ensures first { (start : Start) → IsStart start → AreOf (begun_by start).tcb (begun_by start).sent }
    ensures others { (start : Start) (acts : List Act) (act : Act) → IsStart start
        → AreOf (acted act (record_of start acts)).tcb (acted act (record_of start acts)).sent }
{}

/// Its ends and its first number stay, and what was written grows until writing has ended.
pub fn writing_grows()
    ensures { (start : Start) (acts : List Act) (act : Act) → IsStart start
        → GrowsTo (record_of start acts) (acted act (record_of start acts)).tcb }
{}

/// Reads give what was received, in order.
pub fn reads_in_order()
    ensures { (start : Start) (acts : List Act) → IsStart start
        → all_given acts (begun_by start).tcb ≡ take (record_of start acts).read (record_of start acts).received }
{}

/// A read finds the end only where the peer's FIN was taken, behind everything.
pub fn end_behind_all()
    ensures { (start : Start) (acts : List Act) → IsStart start
        → (record_of start acts).control.saw_end ≡ true
        → ((record_of start acts).control.fin_taken ≡ true)
        × ((record_of start acts).read ≡ length (record_of start acts).received)
        × ((record_of start acts).discarded ≡ 0) }
{}

/// The congestion window is the fold over what the acts bring about.
pub fn window_folded()
    ensures { (start : Start) (acts : List Act) → IsStart start
        → flight_of (record_of start acts) ≡ flight_after (all_events acts (begun_by start).tcb) }
{}

/// The congestion window has one segment at least and 65,535 bytes at most, and the threshold two
/// segments at least.
pub fn window_bounded()
    ensures { (start : Start) (acts : List Act) → IsStart start
        → Bounded (record_of start acts).control.congestion }
{}

/// Text ends at most where the peer's window and the congestion window do, but for the single segment
/// from SND.UNA on that an expiry or a third duplicate acknowledgement sends.
pub fn text_within_windows()
    ensures { (start : Start) (acts : List Act) (act : Act) → IsStart start
        → FitWindow (sends_again act (record_of start acts)) (acted act (record_of start acts)).tcb (acted act (record_of start acts)).sent }
{}
