//! Seats that take tasks, alone and in threads.

ghost use Rattle.std.specs.Prelude.{◌≡◌, ◌<◌, ◌≤◌, ◌^◌, IfOk, vec_len};
ghost use Rattle.steal_workers.specs.SeatViews.{IsSameSeat, AreSameSeats};
ghost use Rattle.steal_workers.specs.Seats.{most_seats};
ghost use Rattle.steal_workers.specs.WholeDeals.{IsWholeDeal};

use std::alloc::{AllocError, Global};
use std::process::Abort;
use std::sync::atomic::{AtomicU64, Ordering};
use std::test::*;
use std::thread;
use std::thread::{Threads, join_mut};
use steal_workers::{Gate, Next, Numbered, OpenGate, Seat, deal, gather};

// The tasks 0, 1, .. so that each task is its own number.
fn tasks(alloc: Global, count: u32) -> Result<Vec<u32>, AllocError>
    ensures { IfOk result (λ tasks. vec_len tasks < 2 ^ 32) }
{
    (0..count).collect(alloc)
}

fn dealt(alloc: Global, count: u32, workers: u32) -> Result<Vec<Seat<u32>>, Fail>
    requires { (0 < workers) × (workers ≤ most_seats) }
    ensures whole { IfOk result (λ seats. IsWholeDeal seats.items) }
    ensures count { IfOk result (λ seats. vec_len seats ≡ workers) }
{
    match deal(alloc, tasks(alloc, count)?, workers) {
        Ok(seats) => Ok(seats),
        Err(_) => Err(Fail::new("no memory to deal")),
    }
}

fn left(alloc: Global, seats: Vec<Seat<u32>>) -> Result<Vec<Numbered<u32>>, Fail>
    requires { IsWholeDeal seats.items }
{
    match gather(alloc, seats) {
        Ok(gathered) => Ok(gathered.left),
        Err(_) => Err(Fail::new("no memory to gather")),
    }
}

// What a seat takes until it answers no task, and whether that answer is that none is left.
fn take_all(alloc: Global, seat: &mut Seat<u32>) -> Result<(Vec<u32>, bool), AllocError>
    ensures { IsSameSeat seat.old seat.new }
{
    let mut taken = Vec::new(alloc);
    for _ in 0..2_000u32 {
        match seat.next() {
            Next::Task(task) => taken.push(task)?,
            Next::Empty => return Ok((taken, true)),
            Next::Lost { .. } => return Ok((taken, false)),
        }
    }
    Ok((taken, false))
}

fn finds_none(seat: &mut Seat<u32>) -> bool
    ensures { IsSameSeat seat.old seat.new }
{
    match seat.next() {
        Next::Empty => true,
        Next::Task(_) => false,
        Next::Lost { .. } => false,
    }
}

// Whether each seat answers that no task is left.
fn find_none(seats: &mut [Seat<u32>]) -> bool
    ensures { AreSameSeats seats.old seats.new }
{
    let mut none = true;
    for place in 0..seats.len() {
        none &= finds_none(&mut seats[place]);
    }
    none
}

// The first seat takes every task, each once. Then each seat finds none, and none is left.
fn first_takes_all(rt: &impl Abort, alloc: Global, count: u32, workers: u32) -> Result<(), Fail>
    requires { (0 < workers) × (workers ≤ most_seats) }
{
    let mut seats = dealt(alloc, count, workers)?;
    let (mut taken, empty) = take_all(alloc, &mut seats[0])?;
    taken.sort_unstable();
    let all = tasks(alloc, count)?;
    assert!(rt; empty, "{count} tasks, {workers} workers");
    assert_eq!(rt; taken.as_slice(), all.as_slice());
    assert!(rt; find_none(seats.as_mut_slice()));
    assert!(rt; left(alloc, seats)?.is_empty());
    Ok(())
}

#[test]
fn one_seat_takes_every_task_once(rt: HostRuntime) -> Result<(), Fail> {
    first_takes_all(&rt, rt.alloc(), 5, 2)?;
    first_takes_all(&rt, rt.alloc(), 0, 3)?;
    first_takes_all(&rt, rt.alloc(), 4, 1)?;
    first_takes_all(&rt, rt.alloc(), 3, 64)
}

#[test]
fn untaken_tasks_are_left(rt: HostRuntime) -> Result<(), Fail> {
    let mut numbers = Vec::new(rt.alloc());
    for entry in left(rt.alloc(), dealt(rt.alloc(), 5, 2)?)? {
        assert_eq!(rt; entry.number, entry.task);
        numbers.push(entry.number)?;
    }
    numbers.sort_unstable();
    assert_eq!(rt; numbers.as_slice(), [0, 1, 2, 3, 4].as_slice());
    Ok(())
}

// Takes tasks and counts each, until none is left.
fn count_all(seat: &mut Seat<u32>, counts: &[AtomicU64])
    ensures { IsSameSeat seat.old seat.new }
{
    for _ in 0..10_000_000u32 {
        match seat.next() {
            Next::Task(task) => {
                if let Some(count) = counts.get(task as usize) {
                    count.fetch_add(1, Ordering::SeqCst);
                }
            }
            Next::Empty => return,
            Next::Lost { .. } => {}
        }
    }
}

// Each seat does so in a thread of its own.
fn count_by_all<R: Threads + Sync>(rt: &R, seats: &mut [Seat<u32>], counts: &[AtomicU64])
    ensures { AreSameSeats seats.old seats.new }
{
    thread::for_each_mut(rt, seats, 8, &|_, seat| count_all(seat, counts));
}

#[test]
fn eight_seats_take_every_task_once(rt: HostRuntime) -> Result<(), Fail> {
    let mut seats = dealt(rt.alloc(), 1000, 8)?;
    let mut counts = Vec::with_capacity(rt.alloc(), 1000)?;
    for _ in 0..1000u32 {
        counts.push(AtomicU64::new(0))?;
    }
    count_by_all(&rt, seats.as_mut_slice(), counts.as_slice());
    for count in counts.as_slice() {
        assert_eq!(rt; count.load(Ordering::SeqCst), 1);
    }
    assert!(rt; left(rt.alloc(), seats)?.is_empty());
    Ok(())
}

// Holds the seat whose task comes first until all tasks have come, for so many turns at most.
#[derive(Clone, Copy)]
struct Hold<'a> {
    come: &'a AtomicU64,
    all: u64,
    turns: u32,
}

impl Gate for Hold<'_> {
    fn at_host(&self, _worker: u32, _host: u32) {
        if self.come.fetch_add(1, Ordering::SeqCst) > 0 {
            return;
        }
        for _ in 0..self.turns {
            if self.come.load(Ordering::SeqCst) == self.all {
                return;
            }
            thread::yield_now();
        }
    }
}

// How many tasks the seat takes, each of which it tells the gate of.
fn work(seat: &mut Seat<u32>, worker: u32, gate: &impl Gate) -> u32 {
    let mut count = 0u32;
    for _ in 0..10_000_000u32 {
        match seat.next() {
            Next::Task(host) => {
                gate.at_host(worker, host);
                count = count.wrapping_add(1);
            }
            Next::Empty => return count,
            Next::Lost { .. } => {}
        }
    }
    count
}

#[test]
fn a_held_seat_is_stolen_from(rt: HostRuntime) -> Result<(), Fail> {
    let mut seats = dealt(rt.alloc(), 8, 2)?;
    let come = AtomicU64::new(0);
    let gate = Hold {
        come: &come,
        all: 8,
        turns: 10_000_000,
    };
    let (first, second) = seats.as_mut_slice().split_at_mut(1);
    let counts = join_mut(
        &rt,
        &mut || work(&mut first[0], 0, &gate),
        &mut || work(&mut second[0], 1, &gate),
    );
    assert!(rt; counts == (1, 7) || counts == (7, 1), "{counts:?}");
    OpenGate.at_host(0, 0);
    Ok(())
}
