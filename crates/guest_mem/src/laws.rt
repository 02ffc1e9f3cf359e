//! Laws of memory.

ghost use Rattle.std.specs.Prelude.{◌≡◌, ℕ, List, Some};
ghost use Rattle.guest_mem.specs.Memory.{Memory, IsCode, store};

/// A page of code that may not be written stays as it is, whatever is stored.
pub fn stores_leave_code()
    ensures { (old new : Memory) (k a n number : ℕ) (bytes : List ℕ)
        → store k old a n ≡ Some new → IsCode old.cells number bytes → IsCode new.cells number bytes }
{}
