//! Laws of the definitions: what leaves a lane keeps to its rate; CoDel drops nothing for a whole
//! interval after a packet that told of no standing queue; and in each release what is dropped is
//! dropped before any packet leaves.

ghost use Rattle.std.specs.Prelude.{◌≡◌, [], List, false, IsTrue};
ghost use Rattle.sim_base.specs.declared.packet.Packet.{Packet};
ghost use Rattle.sim_base.specs.declared.time.Time.{Time};
ghost use Rattle.net_iface.specs.declared.lane.Pushed.TheVariants.{Leaves};
ghost use Rattle.net_iface.specs.declared.lane.Waiting.{Waiting};
ghost use Rattle.net_iface.specs.Codel.{is_good};
ghost use Rattle.net_iface.specs.Lane.{LaneState, waiting_bytes, treated, pushed, taken_front, leaving};
ghost use Rattle.net_iface.specs.Acts.{LaneAct, lane_after_all, all_bytes_left, LeavesWithin, IsSpared, AreFrom, DropNothing};

/// Over any acts what leaves is at most the tokens that were there and those that came since.
pub fn leaves_within_the_rate()
    ensures { (acts : List LaneAct) (lane : LaneState) → LeavesWithin (all_bytes_left acts lane) lane.bucket (lane_after_all acts lane).bucket }
{}

/// Less than an interval after a packet was taken that had waited less than the target, or left at
/// most a largest packet waiting, nothing is dropped: not by the rest of that release, nor by any
/// act that follows.
pub fn a_good_packet_spares_others()
    ensures release { (now : Time) (front : Waiting) (behind : LaneState) → IsTrue (is_good now front.since (waiting_bytes behind.waiting)) → (leaving now (taken_front now front behind).1 behind.waiting).dropped ≡ [] }
    ensures follows { (now : Time) (front : Waiting) (behind : LaneState) (acts : List LaneAct) → IsTrue (is_good now front.since (waiting_bytes behind.waiting)) → AreFrom now acts → DropNothing now acts (leaving now (taken_front now front behind).1 behind.waiting).lane }
    ensures spared { (from : Time) (acts : List LaneAct) (lane : LaneState) → IsSpared from lane → AreFrom from acts → DropNothing from acts lane }
{}

/// A packet that a push lets through counts as taken with no wait: the rule doesn't drop it, and less
/// than an interval after it nothing is dropped.
pub fn a_push_takes_what_it_lets_through()
    ensures taken { (now : Time) (packet : Packet) (lane : LaneState) → (pushed now packet lane).0 ≡ Leaves packet → (false, (pushed now packet lane).1.codel) ≡ treated lane.rule now now 0 lane.codel }
    ensures spares { (now : Time) (packet : Packet) (lane : LaneState) (acts : List LaneAct) → (pushed now packet lane).0 ≡ Leaves packet → AreFrom now acts → DropNothing now acts (pushed now packet lane).1 }
{}

/// Behind a packet that leaves, a release drops nothing.
pub fn drops_come_first()
    ensures { (now : Time) (front : Waiting) (behind : LaneState) → (taken_front now front behind).0.dropped ≡ false → (leaving now (taken_front now front behind).1 behind.waiting).dropped ≡ [] }
{}
