//! The first round of two hosts, in several orders: worker 1 takes the first host and worker 0 the second one. Each host
//! fires one event, in which it sends the other one a packet.

use crate::beginning::begin;
use crate::inputs::read_twice;
use crate::playing::{play, replay};
use sim_base::HostId;
use std::test::Fail;
use std::thread::Threads;
use world_order::{Spot, Step};

const A: HostId = HostId { index: 0 };

const B: HostId = HostId { index: 1 };

const TAKE_A: Step = Step::Take { worker: 1, host: A };

const TAKE_B: Step = Step::Take { worker: 0, host: B };

const FIRE_A: Step = Step::Fire { worker: 1 };

const FIRE_B: Step = Step::Fire { worker: 0 };

/// The packet of a host goes into the spill of its worker.
const SPILL_A: Step = Step::Put {
    worker: 1,
    spot: Spot::Spill,
};

const SPILL_B: Step = Step::Put {
    worker: 0,
    spot: Spot::Spill,
};

/// It goes into the last place of the other host.
const PLACE_A: Step = Step::Put {
    worker: 1,
    spot: Spot::Place(15),
};

const PLACE_B: Step = Step::Put {
    worker: 0,
    spot: Spot::Place(15),
};

const BACK_A: Step = Step::Back { worker: 1 };

const BACK_B: Step = Step::Back { worker: 0 };

const CLOSE: Step = Step::Close;

/// Lists of steps, each with how many of them are allowed in their turn.
const ROWS: [(&[Step], usize); 18] = [
    // The whole round: the second host first, the first one first, and both side by side.
    (
        &[
            TAKE_B, FIRE_B, PLACE_B, BACK_B, TAKE_A, FIRE_A, PLACE_A, BACK_A, CLOSE,
        ],
        9,
    ),
    (
        &[
            TAKE_A, FIRE_A, SPILL_A, BACK_A, TAKE_B, FIRE_B, SPILL_B, BACK_B, CLOSE,
        ],
        9,
    ),
    (
        &[
            TAKE_A, TAKE_B, FIRE_B, FIRE_A, PLACE_A, BACK_A, SPILL_B, BACK_B, CLOSE,
        ],
        9,
    ),
    // A part of it, which goes on.
    (&[], 0),
    (&[TAKE_B, FIRE_B], 2),
    // Only a host that waits is taken, into an empty hand.
    (&[TAKE_B, TAKE_B], 1),
    (&[TAKE_B, Step::Take { worker: 1, host: B }], 1),
    (&[TAKE_B, Step::Take { worker: 0, host: A }], 1),
    (&[Step::Take { worker: 2, host: A }], 0),
    (
        &[Step::Take {
            worker: 0,
            host: HostId { index: 2 },
        }],
        0,
    ),
    // Only a host in hand fires, what is due in the round.
    (&[FIRE_A], 0),
    (&[TAKE_B, FIRE_B, FIRE_B], 2),
    // Only a packet in hand is put, where there is a place.
    (&[TAKE_B, SPILL_B], 1),
    (
        &[
            TAKE_A,
            FIRE_A,
            Step::Put {
                worker: 1,
                spot: Spot::Place(16),
            },
        ],
        2,
    ),
    // A host is given back once nothing of it is due and no packet is in the hand.
    (&[TAKE_B, BACK_B], 1),
    (&[TAKE_A, FIRE_A, BACK_A], 2),
    // The round is closed once all hosts were given back, and then no step is allowed.
    (&[TAKE_B, FIRE_B, SPILL_B, BACK_B, CLOSE], 4),
    (
        &[
            TAKE_A, FIRE_A, SPILL_A, BACK_A, TAKE_B, FIRE_B, PLACE_B, BACK_B, CLOSE, CLOSE,
        ],
        9,
    ),
];

/// How many of the steps are allowed, each in its turn. Where all are, they are also taken at once.
fn tried(rt: &(impl Threads + Sync + AllocGlobal), steps: &[Step]) -> Result<usize, Fail> {
    let alloc = rt.alloc();
    let (run, again) = read_twice(rt)?;
    let (mut round, net) = begin(alloc, run)?;
    let count = play(&mut round, &net, steps)?;
    if count == steps.len() {
        replay(alloc, again, steps)?;
    }
    Ok(count)
}

#[test]
fn a_round_goes_by_each_order_that_is_allowed(rt: HostRuntime) -> Result<(), Fail> {
    for (row, (steps, count)) in ROWS.iter().enumerate() {
        assert_eq!(rt; tried(&rt, steps)?, *count, "row {row}");
    }
    Ok(())
}
