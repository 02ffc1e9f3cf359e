//! A deque that is dealt to, before seats have it.
ghost use Rattle.std.specs.Prelude.{◌≡◌, ℕ, true, ◌+◌, ◌*◌, ◌/◌, ◌<◌, ◌≤◌, ◌^◌, ◌∷◌, [], IfOk, length, vec_len};
ghost use Rattle.crossbeam_deque.specs.Handles.{worker_deque, worker_flavor, worker_view, worker_capacity, worker_index};
ghost use Rattle.list_weights.specs.Places.{EachAt};
ghost use Rattle.steal_workers.specs.inside.Decks.{IsFilling, AreFilling, queue_of};
ghost use Rattle.steal_workers.specs.inside.Items.{marks};
ghost use Rattle.steal_workers.specs.OneDeque.{after_push};

use crate::hand::{Deque, Push, Thief};
use crate::item::Item;
use crate::share::Share;
use std::alloc::{AllocError, Global};

/// The deque, handles to steal from it, one for each seat but its owner's, and room for the seats' shares.
#[derive(Drop)]
pub struct Deck<T> {
    pub deque: Deque<T>,
    pub thieves: Vec<Thief<T>>,
    pub shares: Vec<Share<T>>,
}

/// The dealer puts an item behind the others.
pub fn put<T: Drop>(deque: &mut Deque<T>, item: Item<T>)
    requires room { worker_index deque.old < worker_capacity deque.old }
    requires deals { (worker_view deque.old).deals ≡ true }
    requires share { (worker_view deque.old).share ≡ marks (worker_view deque.old).dealt }
    ensures same { (worker_flavor deque.new ≡ worker_flavor deque.old) × (worker_deque deque.new ≡ worker_deque deque.old) }
    ensures capacity { worker_capacity deque.old ≤ worker_capacity deque.new }
    ensures index { worker_index deque.new ≡ worker_index deque.old + 1 }
    ensures view { worker_view deque.new ≡ after_push (worker_view deque.old) (item ∷ []) }
{
    match deque.push_as::<Push>(item) {
        Ok(()) => {}
        Err(_) => unreachable!(),
    }
}

impl<T: Drop> Deck<T> {
    /// A deck for so many seats, whose deque has room for `room` items.
    pub fn new(alloc: Global, seats: usize, room: usize) -> Result<Deck<T>, AllocError>
        requires { 0 < seats }
        ensures { IfOk result (λ deck. ((place : ℕ) → place < seats → IsFilling seats room 0 place deck) × (queue_of deck ≡ [])) }
    {
        let deque = Deque::fifo_as(alloc, room)?;
        let mut thieves = Vec::with_capacity(alloc, seats - 1)?;
        for _ in 1..seats {
            thieves.push_reserved(deque.stealer()?);
        }
        let shares = Vec::with_capacity(alloc, seats)?;
        Ok(Deck {
            deque,
            thieves,
            shares,
        })
    }
}

/// Deals the tasks in turn, each with its number.
pub fn put_tasks<T: Drop>(decks: &mut [Deck<T>], tasks: Vec<T>)
    requires fresh { AreFilling (length decks.old) (vec_len tasks / length decks.old + 1 + length decks.old) 0 tasks.items decks.old }
    requires few { vec_len tasks < 2 ^ 32 }
    requires some { 0 < length decks.old }
    ensures { AreFilling (length decks.old) (vec_len tasks / length decks.old + 1 + length decks.old) (vec_len tasks) tasks.items decks.new }
{
    let count = decks.len();
    let mut number = 0usize;
    for task in tasks {
        put(
            &mut decks[number % count].deque,
            Item::Task(number as u32, task),
        );
        number += 1;
    }
}
