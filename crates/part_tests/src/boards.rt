//! Boards of places into which carriers put parcels, one alone and two at once.

ghost use Rattle.std.specs.Prelude.{◌≡◌, [], ◌<◌, ◌≤◌};

use host_inbox::{Boards, Carrier, Full};
use sim_base::HostId;
use std::alloc::{AllocGlobal, Global};
use std::test::*;
use std::thread::{Threads, join};

// Of some puts: the numbers that were claimed, and those numbers and parcels that were given back, as sets of bits.
#[derive(Clone, Copy)]
struct Tally {
    claimed: u64,
    back: u64,
    parcels_back: u64,
}

const NONE: Tally = Tally {
    claimed: 0,
    back: 0,
    parcels_back: 0,
};

fn bit(n: u64) -> u64 {
    1 << n.min(63)
}

// The tally of one more put.
fn with(tally: Tally, put: Result<u64, Full<u32>>) -> Tally {
    match put {
        Ok(place) => Tally {
            claimed: tally.claimed | bit(place),
            back: tally.back,
            parcels_back: tally.parcels_back,
        },
        Err(full) => Tally {
            claimed: tally.claimed | bit(full.claimed),
            back: tally.back | bit(full.claimed),
            parcels_back: tally.parcels_back | bit(u64::from(full.parcel)),
        },
    }
}

// Puts the parcels from `first` on for the host.
fn put_some(
    boards: &Boards<u32>,
    mut carrier: Carrier<u32>,
    to: u32,
    first: u32,
    count: u32,
) -> (Carrier<u32>, Tally)
    requires boards { carrier.boards ≡ boards.now.id }
    requires to { to < boards.now.hosts }
    requires fresh { carrier.entries ≡ [] }
    ensures { result.0.boards ≡ carrier.boards }
{
    let mut tally = NONE;
    for k in 0..count {
        let put = boards.put(&mut carrier, HostId { index: to }, first.wrapping_add(k));
        tally = with(tally, put);
    }
    (carrier, tally)
}

// The tally in hexadecimal, and the parcels of each host, with a comma behind each host.
fn shown(alloc: Global, tally: Tally, rows: &[Vec<u32>]) -> Result<String, Fail> {
    let (claimed, back, parcels_back) = (tally.claimed, tally.back, tally.parcels_back);
    let mut shown = format!(in alloc; "{claimed:x} {back:x} {parcels_back:x}: ")?;
    for row in rows {
        for parcel in row {
            write!(shown, "{parcel} ")?;
        }
        shown.push_str(",")?;
    }
    Ok(shown)
}

// One carrier puts so many parcels for one of the hosts, and the boards are closed.
fn one_carrier(alloc: Global, hosts: u32, to: u32, puts: u32) -> Result<String, Fail>
    requires { (hosts ≤ 16) × (to < hosts) }
{
    let (boards, mut carriers) = Boards::open(alloc, hosts, 1)?;
    let Some(carrier) = carriers.pop() else {
        return Err(Fail::new("no carrier"));
    };
    let (carrier, tally) = put_some(&boards, carrier, to, 0, puts);
    carriers.push(carrier)?;
    match boards.close(carriers) {
        Ok(drained) => shown(alloc, tally, drained.rows.as_slice()),
        Err(_) => Err(Fail::new("no memory to close")),
    }
}

#[test]
fn a_host_has_sixteen_places(rt: HostRuntime) -> Result<(), Fail> {
    let full = "1ffff 10000 10000: 0 1 2 3 4 5 6 7 8 9 10 11 12 13 14 15 ,";
    assert_eq!(rt; one_carrier(rt.alloc(), 1, 0, 17)?.as_str(), full);
    assert_eq!(rt;
        one_carrier(rt.alloc(), 3, 1, 2)?.as_str(),
        "3 0 0: ,0 1 ,,"
    );
    Ok(())
}

#[test]
fn nothing_is_drained_without_a_put(rt: HostRuntime) -> Result<(), Fail> {
    let opened: (Boards<u32>, Vec<Carrier<u32>>) = Boards::open(rt.alloc(), 3, 2)?;
    let (boards, carriers) = opened;
    let Ok(drained) = boards.close(carriers) else {
        return Err(Fail::new("no memory to close"));
    };
    let text = shown(rt.alloc(), NONE, drained.rows.as_slice())?;
    assert_eq!(rt; text.as_str(), "0 0 0: ,,,");
    Ok(())
}

// How many parcels there are, and which, as a set of bits.
fn placed(rows: &[Vec<u32>]) -> (u64, u64) {
    let mut count = 0u64;
    let mut set = 0;
    for row in rows {
        for parcel in row {
            count = count.wrapping_add(1);
            set |= bit(u64::from(*parcel));
        }
    }
    (count, set)
}

// What two carriers claimed both, and one of them; what was given back of it; the parcels that lie there, those of them that
// were given back, and all.
fn told(first: Tally, second: Tally, rows: &[Vec<u32>]) -> [u64; 6] {
    let (count, set) = placed(rows);
    let back = first.parcels_back | second.parcels_back;
    [
        first.claimed & second.claimed,
        first.claimed | second.claimed,
        first.back | second.back,
        count,
        set & back,
        set | back,
    ]
}

// Two carriers put nine parcels each for one host, at once.
fn both(rt: &(impl Threads + Sync + AllocGlobal)) -> Result<(Tally, Tally, Vec<Vec<u32>>), Fail> {
    let (boards, mut carriers) = Boards::open(rt.alloc(), 1, 2)?;
    let Some(two) = carriers.pop() else {
        return Err(Fail::new("no carrier"));
    };
    let Some(one) = carriers.pop() else {
        return Err(Fail::new("no second carrier"));
    };
    let shared = &boards;
    let (first, second) = join(
        rt,
        move || -> (Carrier<u32>, Tally)
            requires { (one.boards ≡ shared.now.id) × (one.entries ≡ []) × (0 < shared.now.hosts) }
            ensures { result.0.boards ≡ one.boards }
        { put_some(shared, one, 0, 0, 9) },
        move || -> (Carrier<u32>, Tally)
            requires { (two.boards ≡ shared.now.id) × (two.entries ≡ []) × (0 < shared.now.hosts) }
            ensures { result.0.boards ≡ two.boards }
        { put_some(shared, two, 0, 9, 9) },
    );
    let (one, first) = first;
    let (two, second) = second;
    carriers.push(one)?;
    carriers.push(two)?;
    match boards.close(carriers) {
        Ok(drained) => Ok((first, second, drained.rows)),
        Err(_) => Err(Fail::new("no memory to close")),
    }
}

#[test]
fn two_carriers_put_at_once(rt: HostRuntime) -> Result<(), Fail> {
    let (first, second, rows) = both(&rt)?;
    let told = told(first, second, rows.as_slice());
    assert_eq!(rt; told, [0, 0x3FFFF, 0x30000, 16, 0, 0x3FFFF]);
    Ok(())
}
