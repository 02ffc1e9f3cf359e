//! What several threads did, told in contracts alone.

ghost use Rattle.std.specs.Prelude.{◌≡◌, [], ◌∷◌, ◌++◌};

use std::marker::Model;
use std::snapshot::Snapshot;

/// What one thread did, in the order in which it did it, which contracts see as a list. The last entry
/// is kept, and the ones before it take no memory.
#[derive(Drop)]
pub struct Trail<T> {
    last: Option<(T, Snapshot<Trail<T>>)>,
}

impl<T> Model for Trail<T> {
    ghost use Rattle.std.specs.Prelude.{List, length};

    ghost Value = { List T };

    ghost use Rattle.list_weights.specs.Walked.{walked};

    ghost view = { λ t. walked t.last };

    ghost size = { length };

    ghost use Rattle.std.proofs.Common.{arith, length-append};

    ghost size_decreases = { λ a h. Prim.grind (arith, length-append) };
}

impl<T: Drop> Trail<T> {
    pub fn new() -> Trail<T>
        ensures { result ≡ [] }
    {
        Trail { last: None }
    }

    /// One entry more.
    pub fn then(&mut self, entry: T)
        ensures { self.new ≡ self.old ++ entry ∷ [] }
    {
        let before = Snapshot::of(self);
        self.last = Some((entry, before));
    }
}
