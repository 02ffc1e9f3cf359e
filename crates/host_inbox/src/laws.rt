//! Laws of what is drained.

ghost use Rattle.std.specs.Prelude.{ℕ, Bool, List, All, IsTrue, Vec};
ghost use Rattle.std.specs.declared.alloc.Global.{Global};
ghost use Rattle.host_inbox.specs.Drains.{EachAt, IsDrained};
ghost use Rattle.host_inbox.specs.declared.entry.Entry.{Entry};

/// What holds of each entry with its host holds of each parcel of that host's row.
pub fn rows_hold<T>()
    ensures { (holds : ℕ → T → Bool) (hosts : ℕ) (entries : List (Entry T)) (rows : List (Vec T Global)) → IsDrained hosts entries rows
        → All (λ entry. IsTrue (holds entry.host entry.parcel)) entries → EachAt (λ host row. All (λ parcel. IsTrue (holds host parcel)) row.items) rows }
{}
