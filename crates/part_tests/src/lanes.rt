//! What a lane tells its caller, a bucket's tokens, and what CoDel keeps.

ghost use Rattle.std.specs.Prelude.{◌≡◌, ◌+◌, ◌*◌, ◌/◌, ◌≤◌, IfOk, OnOk};
ghost use Rattle.sim_base.specs.Packet.{packet_size, max_packet};
ghost use Rattle.sim_base.specs.Units.{millisecond, latest_time};

use net_iface::{Bucket, CodelState, Lane, Pushed, QueueRule, isqrt};
use sim_base::{Addr, Bytes, Ip, Load, Packet, Time};
use std::alloc::Global;
use std::test::Fail;

/// A datagram with so many bytes of text.
fn datagram(alloc: Global, text: usize) -> Result<Packet, Fail>
    ensures { IfOk result (λ packet. packet_size packet ≡ text + 28) }
{
    let end = Addr {
        ip: Ip::LOOPBACK,
        port: 1,
    };
    Ok(Packet {
        from: end,
        to: end,
        load: Load::Udp(Bytes::from(vec![in alloc; 0u8; text]?)),
    })
}

fn at(nanos: u64) -> Time
    ensures { result.nanos ≡ nanos }
{
    Time { nanos }
}

/// A packet of 1,500 bytes comes: whether it leaves at once, and else when a release is to be made for it.
fn push_at(alloc: Global, lane: &mut Lane, nanos: u64) -> Result<(bool, Option<Time>), Fail>
    requires time { lane.old.bucket.millis ≤ nanos / millisecond }
    requires early { nanos ≤ latest_time }
    ensures { OnOk result (lane.new.bucket.millis ≡ nanos / millisecond) }
{
    let packet = datagram(alloc, 1472)?;
    match lane.push(at(nanos), packet)? {
        Pushed::Leaves(_) => Ok((true, None)),
        Pushed::Waits(next) => Ok((false, next)),
        Pushed::Dropped(_) => Ok((false, None)),
    }
}

/// How many packets leave, and when the next release is to be made.
fn release_at(lane: &mut Lane, nanos: u64) -> Result<(usize, Option<Time>), Fail>
    requires time { lane.old.bucket.millis ≤ nanos / millisecond }
    requires early { nanos ≤ latest_time }
    ensures { OnOk result (lane.new.bucket.millis ≡ nanos / millisecond) }
{
    let released = lane.release(at(nanos))?;
    Ok((released.packets.len(), released.next))
}

/// A release that is made too early: the case `lane` shows the others.
#[test]
fn a_lane_tells_what_leaves_and_when(rt: HostRuntime) -> Result<(), Fail> {
    let mut lane = Lane::new(rt.alloc(), 1_000_000, QueueRule::Fifo);
    let told = [
        push_at(rt.alloc(), &mut lane, 500_000)?,
        push_at(rt.alloc(), &mut lane, 500_000)?,
        push_at(rt.alloc(), &mut lane, 500_000)?,
    ];
    let next = Some(at(11_000_000));
    assert!(rt; told == [(true, None), (false, next), (false, None)]);
    assert!(rt; release_at(&mut lane, 10_999_999)? == (0, next));
    Ok(())
}

#[test]
fn a_bucket_gets_its_rate_each_millisecond(rt: HostRuntime) {
    let mut slow = Bucket::new(1);
    let at_first = [slow.spend(1501), slow.spend(1)];
    slow.at(at(999_999));
    let before = slow.spend(1);
    slow.at(at(1_000_000));
    let spent = [at_first[0], at_first[1], before, slow.spend(1)];
    assert_eq!(rt; spent, [true, false, false, true]);
}

#[test]
fn a_bucket_holds_what_two_milliseconds_bring(rt: HostRuntime) {
    let mut fast = Bucket::new(u64::MAX);
    let first = fast.spend(2_305_843_009_215_193);
    fast.at(at(u64::MAX));
    let spent = [first, fast.spend(2_305_843_009_215_193), fast.spend(1)];
    assert_eq!(rt; spent, [true, true, false]);
}

#[test]
fn whole_square_roots(rt: HostRuntime) {
    let square = 10_000_000_000_000_000;
    let roots = [
        isqrt(square),
        isqrt(square / 2),
        isqrt(square / 3),
        isqrt(square / 4),
        isqrt(0),
        isqrt(u64::MAX),
    ];
    let wanted = [100_000_000, 70_710_678, 57_735_026, 50_000_000, 0, u32::MAX];
    assert_eq!(rt; roots, wanted);
}

/// A packet of 1,500 bytes is taken behind a long queue, for which it waited so long.
fn drops(codel: &mut CodelState, milli: u64, waited: u64) -> bool
    requires { milli * millisecond ≤ latest_time }
{
    let since = milli.saturating_sub(waited) * 1_000_000;
    codel.drops(at(milli * 1_000_000), at(since), 3000)
}

/// Of a packet at 1,830 ms and of one at this time, below 4 s, which both waited long: whether each is dropped, and how
/// many are then.
fn again(codel: CodelState, milli: u64) -> (bool, bool, u64) {
    let mut codel = codel;
    let first = drops(&mut codel, 1_830, 9);
    let second = milli < 4_000 && drops(&mut codel, milli, 9);
    (first, second, codel.count)
}

#[test]
fn dropping_begins_again_where_it_ended(rt: HostRuntime) {
    let mut codel = CodelState::new();
    let taken = [
        drops(&mut codel, 10, 9),
        drops(&mut codel, 110, 9),
        drops(&mut codel, 209, 9),
        drops(&mut codel, 210, 9),
        drops(&mut codel, 281, 9),
    ];
    assert_eq!(rt; (taken, codel.count), ([false, true, false, true, true], 3));
    let ended = (drops(&mut codel, 282, 4), codel.dropping);
    assert_eq!(rt; ended, (false, false));
    assert_eq!(rt; again(codel, 1_938), (false, true, 2));
    assert_eq!(rt; again(codel, 1_939), (false, true, 1));
}
