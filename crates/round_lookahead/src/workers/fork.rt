//! Workers side by side.
ghost use Rattle.std.specs.Prelude.{◌≡◌, ◌≤◌, ◌<◌, All, length};
ghost use Rattle.sim_base.specs.Units.{latest_time};
ghost use Rattle.host_inbox.specs.Sizes.{most_inboxes};
ghost use Rattle.round_lookahead.specs.inside.Benches.{IsReady, HasWorked, HaveWorked};

use crate::workers::bench::Bench;
use crate::workers::working::work;
use host_inbox::Boards;
use host_link::Net;
use sim_base::{Parcel, Time};
use std::alloc::Global;
use std::thread::{Threads, for_each_mut};
use steal_workers::Gate;

/// A worker's whole round at its bench.
fn work_at<G: Gate>(
    alloc: Global,
    net: &Net,
    end: Time,
    boards: &Boards<Box<Parcel>>,
    gate: &G,
    bench: &mut Bench,
)
    requires stop { net.now.stop.nanos ≤ latest_time }
    requires until { end.nanos ≤ net.now.stop.nanos }
    requires hosts { boards.now.hosts ≡ length net.now.known.book }
    requires few { length net.now.known.book ≤ most_inboxes }
    requires ready { IsReady net.now boards.now bench.old }
    ensures { HasWorked net.now end.nanos bench.old bench.new }
{
    bench.worked = work(
        alloc,
        net,
        end,
        bench.worker,
        &mut bench.seat,
        boards,
        &mut bench.carrier,
        gate,
    )
    .ok();
}

/// All workers' rounds, side by side in so many threads, for which it waits. Where no thread can be made, they come one after another.
pub(crate) fn fork<R: Threads + Sync, G: Gate + Sync>(
    rt: &R,
    alloc: Global,
    net: &Net,
    end: Time,
    boards: &Boards<Box<Parcel>>,
    gate: &G,
    threads: u32,
    benches: &mut Vec<Bench>,
)
    requires stop { net.now.stop.nanos ≤ latest_time }
    requires until { end.nanos ≤ net.now.stop.nanos }
    requires hosts { boards.now.hosts ≡ length net.now.known.book }
    requires few { length net.now.known.book ≤ most_inboxes }
    requires threads { 0 < threads }
    requires ready { All (IsReady net.now boards.now) benches.old.items }
    ensures { HaveWorked net.now end.nanos benches.old.items benches.new.items }
{
    for_each_mut(
        rt,
        benches.as_mut_slice(),
        threads as usize,
        &|_, bench| { work_at(alloc, net, end, boards, gate, bench) },
    );
}
