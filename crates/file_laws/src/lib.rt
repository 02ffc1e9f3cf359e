//! Pipes, eventfds and timers by their numbers: what each is after whatever happened since it was made, and
//! how often each of its bits came to hold. Definitions and laws, and no code that runs.
#![tactic(auto)]

ghost use Rattle.std.specs.Prelude.{◌≡◌, ◌++◌, ℕ, Bool, List, Some, None, take, filter, map};
ghost use Rattle.host_fds.specs.declared.epoll.Seen.{Seen};
ghost use Rattle.host_fds.specs.declared.epoll.Watch.{Watch};
ghost use Rattle.host_fds.specs.Epoll.{entry_of, is_due, told};
ghost use Rattle.host_fds.specs.declared.eventfd.Eventfd.{Eventfd};
ghost use Rattle.host_fds.specs.Pipe.{PipeState};
ghost use Rattle.host_files.specs.declared.timer.KeptTimer.{KeptTimer};
ghost use Rattle.host_files.specs.Slots.{at};
ghost use Rattle.pipe_laws.specs.Acts.{PipeAct};
ghost use Rattle.pipe_laws.specs.Eventfds.{EventfdAct};
ghost use Rattle.file_laws.specs.Counted.{PipeIsCounted, EventfdIsCounted, TimerIsCounted};
ghost use Rattle.file_laws.specs.Kinds.{pipes, eventfds, timers};
ghost use Rattle.file_laws.specs.Lives.{SlotAct, Life, slots_of, life_of, Lasts, acts_on};
ghost use Rattle.file_laws.specs.Timers.{TimerAct};

/// Whatever happened to the pipes of a host, each is what the acts on it since it was made leave of a new
/// pipe, and the rises that are kept of its two ends are those that are counted over these acts.
pub fn pipes_are_counted()
    ensures there { (acts : List (SlotAct (Unit {0}) PipeAct)) (k : ℕ) (p : PipeState) → at k (slots_of pipes acts) ≡ Some p
        → (life : Life (Unit {0}) PipeAct) × ((life_of pipes k acts ≡ Some life) × PipeIsCounted life p) }
    ensures gone { (acts : List (SlotAct (Unit {0}) PipeAct)) (k : ℕ) → at k (slots_of pipes acts) ≡ None → life_of pipes k acts ≡ None }
{}

/// And each eventfd is what the acts on it leave of one with the count that it was made with.
pub fn eventfds_are_counted()
    ensures there { (acts : List (SlotAct (ℕ × Bool) EventfdAct)) (k : ℕ) (e : Eventfd) → at k (slots_of eventfds acts) ≡ Some e
        → (life : Life (ℕ × Bool) EventfdAct) × ((life_of eventfds k acts ≡ Some life) × EventfdIsCounted life e) }
    ensures gone { (acts : List (SlotAct (ℕ × Bool) EventfdAct)) (k : ℕ) → at k (slots_of eventfds acts) ≡ None → life_of eventfds k acts ≡ None }
{}

/// The rises of a timer at a moment are its expiries up to then: of each setting those that came before the
/// next one was made.
pub fn timers_are_counted()
    ensures there { (acts : List (SlotAct ℕ TimerAct)) (k : ℕ) (t : KeptTimer) → at k (slots_of timers acts) ≡ Some t
        → (life : Life ℕ TimerAct) × ((life_of timers k acts ≡ Some life) × TimerIsCounted life t) }
    ensures gone { (acts : List (SlotAct ℕ TimerAct)) (k : ℕ) → at k (slots_of timers acts) ≡ None → life_of timers k acts ≡ None }
{}

/// A thing that is there after each of some acts, one behind another, has one life all along, to which those
/// of them add that are on it.
pub fn lives_go_on()
    ensures pipes { (acts more : List (SlotAct (Unit {0}) PipeAct)) (k : ℕ) (life : Life (Unit {0}) PipeAct)
        → life_of pipes k acts ≡ Some life → Lasts pipes k more (slots_of pipes acts)
        → life_of pipes k (acts ++ more) ≡ Some (record { made = life.made; acts = life.acts ++ acts_on pipes k more }) }
    ensures eventfds { (acts more : List (SlotAct (ℕ × Bool) EventfdAct)) (k : ℕ) (life : Life (ℕ × Bool) EventfdAct)
        → life_of eventfds k acts ≡ Some life → Lasts eventfds k more (slots_of eventfds acts)
        → life_of eventfds k (acts ++ more) ≡ Some (record { made = life.made; acts = life.acts ++ acts_on eventfds k more }) }
    ensures timers { (acts more : List (SlotAct ℕ TimerAct)) (k : ℕ) (life : Life ℕ TimerAct)
        → life_of timers k acts ≡ Some life → Lasts timers k more (slots_of timers acts)
        → life_of timers k (acts ++ more) ≡ Some (record { made = life.made; acts = life.acts ++ acts_on timers k more }) }
{}

/// A wait for an epoll tells, of the entries that are due by what is seen of each, the first so many in
/// their order: none is left out before them, and none that isn't due is told.
pub fn the_first_due_are_told()
    ensures { (room : ℕ) (sees : Watch → Seen) (entries : List Watch)
        → told room (map sees entries) entries ≡ take room (map (λ w. entry_of w (sees w)) (filter (λ w. is_due w (sees w)) entries)) }
{}
