//! A count of the instructions that ran: one for proofs, and a plain number for estimates.

ghost use Rattle.std.specs.Prelude.{◌≡◌, ◌+◌, ◌<◌};

use std::marker::Model;
use std::sync::ledger::{Blank, Book, Ledger, Share};

/// How many instructions ran: only `tick` changes what proofs know of it. Beside it stands what was told, a plain number of which
/// no clause speaks.
#[derive(Drop)]
pub struct Steps<L: Ledger> {
    book: Book<L>,
    share: Share<L>,
    told: u64,
}

impl<L: Ledger> Model for Steps<L> {
    ghost use Rattle.std.specs.Prelude.{ℕ, ◌<◌};

    ghost Value = { ℕ };

    ghost view = { λ s. s.book.total };

    ghost invariant = { λ s. 0 < s.share.parts };
}

impl<L: Ledger> Steps<L> {
    /// No instruction ran yet.
    pub fn new(blank: Blank) -> Steps<L>
        requires name { blank.name ≡ L.name }
        requires parts { blank.parts ≡ L.parts }
        requires some { 0 < L.parts }
        ensures { result ≡ 0 }
    {
        let (book, share) = blank.open();
        Steps {
            book,
            share,
            told: 0,
        }
    }

    /// One more instruction runs.
    pub(crate) fn tick(&mut self)
        ensures { self.new ≡ self.old + 1 }
    {
        self.book.add(&mut self.share, 1);
    }

    /// So many instructions are told.
    pub(crate) fn tell(&mut self, ran: u64)
        ensures { self.new ≡ self.old }
    {
        self.told = self.told.wrapping_add(ran);
    }

    /// About how many instructions ran in the turns so far. No clause speaks of it: it is for estimates.
    pub fn told(&self) -> u64 {
        self.told
    }
}
