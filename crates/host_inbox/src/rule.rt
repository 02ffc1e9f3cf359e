//! What a seat at the inboxes knows, and the steps that it takes.
use crate::entry::{Claim, Entry};
use atomic_table::{Join, Play, Split, TableRule};
use std::collections::LinkedList;

/// What a seat knows: its share of the seats, the entries of its puts, and the claims whose place
/// isn't filled yet. An entry has its parcel where it is at a place.
/// No value of it is made.
pub struct Known<T> {
    pub share: u64,
    pub entered: LinkedList<Entry<Option<T>>>,
    pub pending: LinkedList<Claim>,
}

/// How many hosts have an inbox, and how many seats there are.
#[derive(Clone, Copy)]
pub struct Size {
    pub hosts: u32,
    pub seats: u32,
}

/// The rule of the inboxes. A host's first word is the least number that isn't claimed.
pub struct Inboxes;

impl<T> TableRule<Option<T>, Known<T>, Size> for Inboxes {
    ghost use Rattle.std.specs.Prelude.{[]};
    ghost use Rattle.host_inbox.specs.Inboxes.{AreInboxes, known};

    ghost holds = { AreInboxes };

    ghost first = { λ size. known size.seats [] [] };
}

/// A number was claimed on a host's first word, and its place was taken where it has one.
pub struct Claims;

impl<T> Play<Option<T>, Known<T>> for Claims {
    ghost use Rattle.host_inbox.specs.Steps.{Claimed};

    ghost then = { Claimed };
}

/// The place of the claim went back with what was laid into it.
pub struct Fills;

impl<T> Play<Option<T>, Known<T>> for Fills {
    ghost use Rattle.host_inbox.specs.Steps.{Filled};

    ghost then = { Filled };
}

/// One seat of those that a seat stands for, or all that another one stands for.
pub struct OneSeat;

impl<T> Split<Known<T>> for OneSeat {
    ghost use Rattle.host_inbox.specs.Steps.{less_one, one};

    ghost left = { less_one };

    ghost right = { one };
}

impl<T> Join<Known<T>> for OneSeat {
    ghost use Rattle.host_inbox.specs.Steps.{both, spent};

    ghost both = { both };

    ghost spent = { spent };
}
