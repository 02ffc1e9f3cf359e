//! Dealing tasks over seats.
ghost use Rattle.std.specs.Prelude.{◌≡◌, ℕ, [], ◌+◌, ◌/◌, ◌<◌, ◌≤◌, ◌^◌, IfOk, IfErr, map, length, vec_len, vec_capacity};
ghost use Rattle.list_weights.specs.Places.{EachAt};
ghost use Rattle.steal_workers.specs.inside.Columns.{AreColumns, closed};
ghost use Rattle.steal_workers.specs.Deals.{IsDealt};
ghost use Rattle.steal_workers.specs.inside.Decks.{AreFilling};
ghost use Rattle.steal_workers.specs.inside.Layouts.{AreFresh, AreEmptyRows, AreFilled, AreSeated, planned};
ghost use Rattle.steal_workers.specs.Seats.{most_seats};
ghost use Rattle.steal_workers.specs.WholeDeals.{IsNewDeal};

use crate::column::column;
use crate::deck::{Deck, put_tasks};
use crate::row::row;
use crate::seat::Seat;
use crate::share::Share;
use std::alloc::{AllocError, Global};
use std::snapshot::Snapshot;

/// There was no memory for the deal. The tasks are those that were handed in.
#[derive(Drop)]
pub struct DealFailed<T> {
    pub tasks: Vec<T>,
}

/// Room for the shares of one seat.
#[derive(Drop)]
pub(crate) struct SeatRow<T> {
    pub shares: Vec<Share<T>>,
    pub tasks: Snapshot<Vec<T>>,
}

// What is dealt, for contracts alone.
#[derive(Drop)]
struct Plan<T> {
    decks: Snapshot<Vec<Deck<T>>>,
    tasks: Snapshot<Vec<T>>,
}

// All that a deal needs memory for.
#[derive(Drop)]
struct Layout<T> {
    decks: Vec<Deck<T>>,
    columns: Vec<Vec<Share<T>>>,
    rows: Vec<SeatRow<T>>,
    seats: Vec<Seat<T>>,
}

fn new_decks<T: Drop>(alloc: Global, seats: usize, room: usize) -> Result<Vec<Deck<T>>, AllocError>
    requires { 0 < seats }
    ensures { IfOk result (λ decks. AreFresh seats room decks.items) }
{
    let mut decks = Vec::with_capacity(alloc, seats)?;
    for _ in 0..seats {
        decks.push_reserved(Deck::new(alloc, seats, room)?);
    }
    Ok(decks)
}

fn new_rows<T: Drop>(
    alloc: Global,
    seats: usize,
    tasks: &Vec<T>,
) -> Result<Vec<SeatRow<T>>, AllocError>
    ensures { IfOk result (λ rows. AreEmptyRows seats tasks.now.items rows.items) }
{
    let mut rows = Vec::with_capacity(alloc, seats)?;
    for _ in 0..seats {
        let shares = Vec::with_capacity(alloc, seats)?;
        rows.push_reserved(SeatRow {
            shares,
            tasks: Snapshot::of(tasks),
        });
    }
    Ok(rows)
}

fn reserved<T: Drop>(alloc: Global, tasks: &Vec<T>, seats: usize) -> Result<Layout<T>, AllocError>
    requires few_seats { (0 < seats) × (seats ≤ most_seats) }
    requires few_tasks { vec_len tasks.now < 2 ^ 32 }
    ensures decks { IfOk result (λ layout. AreFresh seats (vec_len tasks.now / seats + 1 + seats) layout.decks.items) }
    ensures columns { IfOk result (λ layout. (layout.columns.items ≡ []) × (seats ≤ vec_capacity layout.columns)) }
    ensures rows { IfOk result (λ layout. AreEmptyRows seats tasks.now.items layout.rows.items) }
    ensures seats { IfOk result (λ layout. (layout.seats.items ≡ []) × (seats ≤ vec_capacity layout.seats)) }
{
    let room = tasks.len() / seats + 1 + seats;
    Ok(Layout {
        decks: new_decks(alloc, seats, room)?,
        columns: Vec::with_capacity(alloc, seats)?,
        rows: new_rows(alloc, seats, tasks)?,
        seats: Vec::with_capacity(alloc, seats)?,
    })
}

fn filled<T: Drop>(mut decks: Vec<Deck<T>>, tasks: Vec<T>) -> Vec<Deck<T>>
    requires fresh { AreFresh (vec_len decks) (vec_len tasks / vec_len decks + 1 + vec_len decks) decks.items }
    requires few { vec_len tasks < 2 ^ 32 }
    requires some { 0 < vec_len decks }
    ensures { AreFilling (vec_len decks) (vec_len tasks / vec_len decks + 1 + vec_len decks) (vec_len tasks) tasks.items result.items }
{
    put_tasks(decks.as_mut_slice(), tasks);
    decks
}

fn columns_of<T: Drop>(decks: Vec<Deck<T>>, mut columns: Vec<Vec<Share<T>>>) -> Vec<Vec<Share<T>>>
    requires filled { AreFilled (vec_len decks) decks.items }
    requires empty { (columns.items ≡ []) × (vec_len decks ≤ vec_capacity columns) }
    ensures columns { AreColumns decks.items (vec_len decks) result.items }
    ensures height { EachAt (λ _ column. length column.items ≡ vec_len decks) result.items }
{
    let count = decks.len();
    for deck in decks {
        let place = columns.len();
        columns.push_reserved(column(deck, count, place));
    }
    columns
}

fn seated<T: Drop>(
    columns: &mut [Vec<Share<T>>],
    rows: Vec<SeatRow<T>>,
    mut seats: Vec<Seat<T>>,
    plan: &Plan<T>,
    dealt: u32,
) -> Vec<Seat<T>>
    requires columns { AreColumns plan.now.decks.value.items (length columns.old) columns.old }
    requires height { EachAt (λ _ column. length column.items ≡ length columns.old) columns.old }
    requires rows { AreEmptyRows (length columns.old) plan.now.tasks.value.items rows.items }
    requires seats { (seats.items ≡ []) × (length columns.old ≤ vec_capacity seats) × (length columns.old ≤ most_seats) }
    requires dealt { IsDealt (map (closed (length columns.old)) plan.now.decks.value.items) plan.now.tasks.value.items }
    requires count { dealt ≡ length plan.now.tasks.value.items }
    ensures count { length result.items ≡ length columns.old }
    ensures seats { AreSeated (planned (length columns.old) plan.now.decks.value.items plan.now.tasks.value.items) result.items }
{
    for empty in rows {
        let SeatRow { shares, tasks } = empty;
        let place = seats.len();
        let shares = row(columns, shares, place, &plan.decks);
        seats.push_reserved(Seat::new(place as u32, dealt, shares, tasks));
    }
    seats
}

fn laid_out<T: Drop>(layout: Layout<T>, tasks: Vec<T>, seats: usize) -> Vec<Seat<T>>
    requires few_seats { (0 < seats) × (seats ≤ most_seats) }
    requires few_tasks { vec_len tasks < 2 ^ 32 }
    requires decks { AreFresh seats (vec_len tasks / seats + 1 + seats) layout.decks.items }
    requires columns { (layout.columns.items ≡ []) × (seats ≤ vec_capacity layout.columns) }
    requires rows { AreEmptyRows seats tasks.items layout.rows.items }
    requires seats { (layout.seats.items ≡ []) × (seats ≤ vec_capacity layout.seats) }
    ensures { IsNewDeal tasks.items seats result.items }
{
    let Layout {
        decks,
        columns,
        rows,
        seats,
    } = layout;
    let dealt = tasks.len() as u32;
    let whole = Snapshot::of(&tasks);
    let decks = filled(decks, tasks);
    let plan = Plan {
        decks: Snapshot::of(&decks),
        tasks: whole,
    };
    let mut columns = columns_of(decks, columns);
    seated(columns.as_mut_slice(), rows, seats, &plan, dealt)
}

/// Deals the tasks over a deque for each worker, and gives each worker its seat. A task's number is its place in `tasks`.
/// At most 64 workers, and fewer than 2^32 tasks. Fails for want of memory alone.
pub fn deal<T: Drop>(
    alloc: Global,
    tasks: Vec<T>,
    workers: u32,
) -> Result<Vec<Seat<T>>, DealFailed<T>>
    requires workers { (0 < workers) × (workers ≤ most_seats) }
    requires tasks { vec_len tasks < 2 ^ 32 }
    ensures dealt { IfOk result (λ seats. IsNewDeal tasks.items workers seats.items) }
    ensures failed { IfErr result (λ failed. failed.tasks.items ≡ tasks.items) }
{
    let seats = workers as usize;
    match reserved(alloc, &tasks, seats) {
        Ok(layout) => Ok(laid_out(layout, tasks, seats)),
        Err(_) => Err(DealFailed { tasks }),
    }
}
