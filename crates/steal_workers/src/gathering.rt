//! Gathering the seats of a deal.
ghost use Rattle.std.specs.Prelude.{◌≡◌, ℕ, ◌+◌, ◌<◌, ◌≤◌, ◌^◌, ◌++◌, [], ◌∷◌, false, All, IfOk, IfErr, length, map, slice_get, slice_index_or, Some, true, vec_len, vec_capacity};
ghost use Rattle.crossbeam_deque.specs.Handles.{view, IsPassOf, worker_deque, worker_flavor, worker_view};
ghost use Rattle.steal_workers.specs.Answers.{FoundNone};
ghost use Rattle.steal_workers.specs.inside.Backs.{own_weight, IsWholeColumn, IsBack};
ghost use Rattle.steal_workers.specs.Deals.{Deal, IsDealt};
ghost use Rattle.steal_workers.specs.inside.Emptying.{IsEmptying, seat_weights};
ghost use Rattle.steal_workers.specs.Gathers.{IsGathered, IsStack, PopsEach, AreOwnMarked, places, all_taken};
ghost use Rattle.list_weights.specs.Places.{EachAt};
ghost use Rattle.list_weights.specs.Weights.{weigh};
ghost use Rattle.steal_workers.specs.inside.Items.{marks, number_weight, Stands, MarksLast};
ghost use Rattle.steal_workers.specs.inside.Handles.{deque_of, hand_of, is_own, IsFit};
ghost use Rattle.steal_workers.specs.OneDeque.{taken_back};
ghost use Rattle.steal_workers.specs.inside.TookBack.{Drains, kept};
ghost use Rattle.steal_workers.specs.SeatViews.{seat_count};
ghost use Rattle.steal_workers.specs.WholeDeals.{common_deal, IsWholeDeal};

use crate::back::TakeAll;
use crate::hand::{Claim, Deque, OneShare};
use crate::handle::Handle;
use crate::item::{Item, Numbered};
use crate::seat::{Seat, Stack};
use crate::share::Share;
use std::alloc::{AllocError, Global};
use std::snapshot::Snapshot;

/// What the seats of a deal left in the deques.
#[derive(Drop)]
pub struct Gathered<T> {
    pub left: Vec<Numbered<T>>,
}

/// There was no memory to gather the seats. They are those that were handed in.
#[derive(Drop)]
pub struct GatherRefused<T> {
    pub seats: Vec<Seat<T>>,
}

fn keep<T: Drop>(item: Item<T>, left: &mut Vec<Numbered<T>>)
    requires { vec_len left.old < vec_capacity left.old }
    ensures items { left.new.items ≡ left.old.items ++ kept item }
    ensures capacity { vec_capacity left.new ≡ vec_capacity left.old }
{
    match item {
        Item::Task(number, task) => left.push_reserved(Numbered { number, task }),
        Item::Mark => {}
    }
}

// Takes what is left of a deque whose shares have all come back.
fn drain<T: Drop>(mut deque: Deque<T>, left: &mut Vec<Numbered<T>>)
    requires fifo { worker_flavor deque ≡ 0 }
    requires deals { (worker_view deque).deals ≡ true }
    requires share { (worker_view deque).share ≡ marks (worker_view deque).dealt }
    requires some { 0 < (worker_view deque).share }
    requires last { MarksLast (worker_view deque).dealt }
    requires room { vec_len left.old + weigh (number_weight (λ _. 1)) (worker_view deque).dealt + 1 ≤ vec_capacity left.old }
    ensures drains { Drains (worker_view deque) left.old.items left.new.items }
    ensures capacity { vec_capacity left.new ≡ vec_capacity left.old }
{
    while let Some(item) = deque.pop_as::<TakeAll>() {
        keep(item, left);
    }
}

fn own<T: Drop>(share: Share<T>) -> Deque<T>
    requires { IsFit share.handle × (is_own share.handle ≡ true) }
    ensures deque { (worker_deque result ≡ deque_of share.handle) × (worker_flavor result ≡ 0) }
    ensures view { (worker_view result ≡ hand_of share.handle) × ((worker_view result).deals ≡ true) }
{
    match share.handle {
        Handle::Own(deque) => deque,
        Handle::Other(_, _) => unreachable!(),
    }
}

fn claim<T: Drop>(share: Share<T>) -> Claim<T>
    requires { IsFit share.handle × (is_own share.handle ≡ false) }
    ensures { IsPassOf (deque_of share.handle) result × (view result ≡ hand_of share.handle) }
{
    match share.handle {
        Handle::Own(_) => unreachable!(),
        Handle::Other(_, claim) => claim,
    }
}

fn pop<T>(stack: &mut Stack<T>) -> Share<T>
    requires { 0 < length stack.old.shares.items }
    ensures { (stack.old.shares.items ≡ stack.new.shares.items ++ result ∷ []) × (stack.new.place ≡ stack.old.place) }
{
    match stack.shares.pop() {
        Some(share) => share,
        None => unreachable!(),
    }
}

// Where in a column the owner's share stands.
fn owner_in<T>(column: &[Share<T>]) -> usize
    requires { weigh own_weight column.now ≡ 1 }
    ensures within { result < length column.now }
    ensures owner { (e : Share T) → is_own (slice_index_or column.now result e).handle ≡ true }
{
    for (place, share) in column.iter().enumerate() {
        match &share.handle {
            Handle::Own(_) => return place,
            Handle::Other(_, _) => {}
        }
    }
    unreachable!()
}

// Takes all shares of one deque back, and gives the deque.
fn whole<T: Drop>(column: &mut Vec<Share<T>>) -> Deque<T>
    requires shares { IsWholeColumn column.old.items }
    requires owner { weigh own_weight column.old.items ≡ 1 }
    ensures back { IsBack column.old.items (worker_view result) }
    ensures fifo { worker_flavor result ≡ 0 }
    ensures column { (column.new.items ≡ []) × (vec_capacity column.new ≡ vec_capacity column.old) }
{
    let place = owner_in(column.as_slice());
    let mut deque = own(column.swap_remove(place));
    while let Some(share) = column.pop() {
        deque.absorb::<OneShare>(claim(share));
    }
    deque
}

// The last share of each seat, which are those of one deque. `_seats` are the seats that the stacks are of.
fn pop_each<T: Drop>(
    stacks: &mut [Stack<T>],
    column: &mut Vec<Share<T>>,
    _seats: &Snapshot<Vec<Seat<T>>>,
    _deque: usize,
)
    requires stacks { All (IsStack (AreOwnMarked _seats.now.value.items) (common_deal _seats.now.value.items) (_deque + 1)) stacks.old }
    requires column { (column.old.items ≡ []) × (length stacks.old ≤ vec_capacity column.old) }
    ensures popped { PopsEach (AreOwnMarked _seats.now.value.items) (common_deal _seats.now.value.items) _deque stacks.old stacks.new column.new.items }
    ensures capacity { vec_capacity column.new ≡ vec_capacity column.old }
{
    for seat in 0..stacks.len() {
        let share = pop(&mut stacks[seat]);
        column.push_reserved(share);
    }
}

// Empties one deque.
fn empty<T: Drop>(
    stacks: &mut [Stack<T>],
    column: &mut Vec<Share<T>>,
    left: &mut Vec<Numbered<T>>,
    seats: &Snapshot<Vec<Seat<T>>>,
    deque: usize,
)
    requires emptying { IsEmptying seats.now.value.items (deque + 1) stacks.old left.old.items }
    requires dealt { IsDealt (common_deal seats.now.value.items).queues (common_deal seats.now.value.items).tasks }
    requires deque { deque < length stacks.old }
    requires column { (column.old.items ≡ []) × (length stacks.old ≤ vec_capacity column.old) }
    requires room { length (common_deal seats.now.value.items).tasks < vec_capacity left.old }
    ensures emptying { IsEmptying seats.now.value.items deque stacks.new left.new.items }
    ensures column { (column.new.items ≡ []) × (vec_capacity column.new ≡ vec_capacity column.old) }
    ensures room { vec_capacity left.new ≡ vec_capacity left.old }
{
    pop_each(stacks, column, seats, deque);
    drain(whole(column), left);
}

// Empties all deques, the last first.
fn empty_all<T: Drop>(
    stacks: &mut [Stack<T>],
    mut column: Vec<Share<T>>,
    left: &mut Vec<Numbered<T>>,
    seats: &Snapshot<Vec<Seat<T>>>,
)
    requires emptying { IsEmptying seats.now.value.items (length stacks.old) stacks.old left.old.items }
    requires dealt { 0 < length stacks.old → IsDealt (common_deal seats.now.value.items).queues (common_deal seats.now.value.items).tasks }
    requires column { (column.items ≡ []) × (length stacks.old ≤ vec_capacity column) }
    requires room { length (common_deal seats.now.value.items).tasks < vec_capacity left.old }
    ensures { IsEmptying seats.now.value.items 0 stacks.new left.new.items }
{
    let count = stacks.len();
    for done in 0..count {
        empty(stacks, &mut column, left, seats, count - 1 - done);
    }
}

fn stacks_of<T: Drop>(seats: Vec<Seat<T>>, mut stacks: Vec<Stack<T>>) -> Vec<Stack<T>>
    requires empty { (stacks.items ≡ []) × (vec_len seats ≤ vec_capacity stacks) }
    requires whole { IsWholeDeal seats.items }
    ensures stacks { All (IsStack (AreOwnMarked seats.items) (common_deal seats.items) (seat_count (common_deal seats.items))) result.items }
    ensures places { places result.items ≡ map (λ seat. seat.place) seats.items }
    ensures numbers { (h : ℕ → ℕ) → all_taken (number_weight h) result.items ≡ seat_weights h seats.items }
    ensures dealt { 0 < vec_len seats → IsDealt (common_deal seats.items).queues (common_deal seats.items).tasks × (length (common_deal seats.items).queues ≡ seat_count (common_deal seats.items)) }
{
    for seat in seats {
        stacks.push_reserved(seat.into_stack());
    }
    stacks
}

// Room for what is left, and for the seats' shares while they are taken back.
#[derive(Drop)]
struct Room<T> {
    left: Vec<Numbered<T>>,
    column: Vec<Share<T>>,
    stacks: Vec<Stack<T>>,
}

fn reserved<T: Drop>(alloc: Global, seats: usize, tasks: usize) -> Result<Room<T>, AllocError>
    requires { tasks < 2 ^ 32 }
    ensures left { IfOk result (λ room. (room.left.items ≡ []) × (tasks < vec_capacity room.left)) }
    ensures column { IfOk result (λ room. (room.column.items ≡ []) × (seats ≤ vec_capacity room.column)) }
    ensures stacks { IfOk result (λ room. (room.stacks.items ≡ []) × (seats ≤ vec_capacity room.stacks)) }
{
    Ok(Room {
        column: Vec::with_capacity(alloc, seats)?,
        stacks: Vec::with_capacity(alloc, seats)?,
        left: Vec::with_capacity(alloc, tasks + 1)?,
    })
}

fn emptied<T: Drop>(seats: Vec<Seat<T>>, room: Room<T>) -> Vec<Numbered<T>>
    requires whole { IsWholeDeal seats.items }
    requires left { (room.left.items ≡ []) × (length (common_deal seats.items).tasks < vec_capacity room.left) }
    requires column { (room.column.items ≡ []) × (vec_len seats ≤ vec_capacity room.column) }
    requires stacks { (room.stacks.items ≡ []) × (vec_len seats ≤ vec_capacity room.stacks) }
    ensures { IsGathered seats.items result.items }
{
    let Room {
        mut left,
        column,
        stacks,
    } = room;
    let all = Snapshot::of(&seats);
    let mut stacks = stacks_of(seats, stacks);
    empty_all(stacks.as_mut_slice(), column, &mut left, &all);
    left
}

fn dealt<T>(seats: &Vec<Seat<T>>) -> usize
    ensures tasks { result ≡ length (common_deal seats.now.items).tasks }
    ensures few { result < 2 ^ 32 }
{
    match seats.first() {
        Some(seat) => seat.dealt() as usize,
        None => 0,
    }
}

/// Gathers all seats of one deal, each once, in whatever order, and gives what they left in the deques: nothing, where each
/// seat's last answer was no task.
/// Fails for want of memory alone.
pub fn gather<T: Drop>(alloc: Global, seats: Vec<Seat<T>>) -> Result<Gathered<T>, GatherRefused<T>>
    requires { IsWholeDeal seats.items }
    ensures gathered { IfOk result (λ gathered. IsGathered seats.items gathered.left.items) }
    ensures none { IfOk result (λ gathered. All FoundNone seats.items → gathered.left.items ≡ []) }
    ensures refused { IfErr result (λ refused. refused.seats.items ≡ seats.items) }
{
    match reserved(alloc, seats.len(), dealt(&seats)) {
        Ok(room) => Ok(Gathered {
            left: emptied(seats, room),
        }),
        Err(_) => Err(GatherRefused { seats }),
    }
}
