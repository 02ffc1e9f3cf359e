//! The order of a queue of events, and the windows of rounds.

use event_order::Queue;
use sim_base::{Event, HostId, Key, Kind, Time, What};
use world_order::Window;

fn nanos(nanos: u64) -> Time {
    Time { nanos }
}

fn event(due: u64, kind: Kind, source: u32, number: u64) -> Event {
    Event {
        key: Key {
            due: nanos(due),
            kind,
            source: HostId { index: source },
            number,
        },
        what: What::Up,
    }
}

/// When each event is due, its kind, whose it is, and its number.
const EVENTS: [(u64, Kind, u32, u64); 5] = [
    (2, Kind::Packet, 0, 0),
    (1, Kind::Local, 0, 1),
    (1, Kind::Packet, 2, 7),
    (1, Kind::Packet, 1, 9),
    (1, Kind::Packet, 1, 8),
];

/// An event that is not in the queue is added.
fn adds(queue: &mut Queue, event: Event) -> bool {
    !queue.has_key(&event.key) && queue.add(event).is_ok()
}

/// The number of the event that comes first, which is taken.
fn least_of(queue: &mut Queue) -> Option<u64> {
    queue.take_least().map(|event| event.key.number)
}

#[test]
fn the_least_key_comes_first(rt: HostRuntime) {
    let mut queue = Queue::new(rt.alloc());
    for (due, kind, source, number) in EVENTS {
        assert!(rt;
            adds(&mut queue, event(due, kind, source, number)),
            "{number}"
        );
    }
    assert!(rt; queue.len() == 5 && queue.least_due() == Some(nanos(1)));
    for number in [8, 9, 7, 1, 0] {
        assert_eq!(rt; least_of(&mut queue), Some(number));
    }
    assert!(rt; queue.is_empty() && queue.least_due() == None);
}

#[test]
fn a_window_ends_at_the_lookahead_or_the_stop(rt: HostRuntime) {
    let rows = [
        (0, Some(10_000_000), 1_000_000_000, 10_000_000),
        (995_000_000, Some(10_000_000), 1_000_000_000, 1_000_000_000),
        (7, None, 1_000, 1_000),
        (
            u64::MAX,
            Some(1),
            2_305_843_009_213_693_952,
            2_305_843_009_213_693_952,
        ),
    ];
    for (least, lookahead, stop, end) in rows {
        let window = Window::of(nanos(least), lookahead.map(nanos), nanos(stop));
        assert!(rt; window.from == nanos(least));
        assert!(rt; window.end == nanos(end));
    }
}
