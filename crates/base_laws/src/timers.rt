//! Laws of timers.

ghost use Rattle.std.specs.Prelude.{◌≡◌, ◌↔◌, ◌<◌, ◌≤◌, ℕ, Some, None};
ghost use Rattle.host_timers.specs.Timer.{Expires, TimerState, expired, expiry, next_due};

/// An expiry is counted at a moment exactly where it isn't after it.
pub fn expiries_counted()
    ensures { (timer : TimerState) (now number : ℕ) → Expires timer number → (number < expired timer now) ↔ (expiry timer number ≤ now) }
{}

/// The next expiry is the first after a moment, and there is none exactly where none is after it.
pub fn next_expiry()
    ensures later { (timer : TimerState) (now due : ℕ) → next_due timer now ≡ Some due → now < due }
    ensures expires { (timer : TimerState) (now due : ℕ) → next_due timer now ≡ Some due → (number : ℕ) × (Expires timer number × (due ≡ expiry timer number)) }
    ensures first { (timer : TimerState) (now due number : ℕ) → next_due timer now ≡ Some due → Expires timer number → now < expiry timer number → due ≤ expiry timer number }
    ensures none { (timer : TimerState) (now number : ℕ) → next_due timer now ≡ None → Expires timer number → expiry timer number ≤ now }
{}
