//! Laws of hosts, over every event that fires at one. No code that runs.
#![tactic(auto)]

ghost use Rattle.std.specs.Prelude.{◌≡◌, ◌≤◌, ◌-◌, ◌++◌, ◌∷◌, ℕ, List, length, false, Some};
ghost use Rattle.sim_base.specs.Limits.{most_processes};
ghost use Rattle.sim_base.specs.declared.event.Event.{Event};
ghost use Rattle.rv32_machine.specs.declared.cpu.Cpu.{Cpu};
ghost use Rattle.host_calls.specs.Calls.{answers};
ghost use Rattle.file_calls.specs.declared.task.Why.{Why};
ghost use Rattle.host_link.specs.Net.{Net};
ghost use Rattle.host_rows.specs.declared.row.Row.{Row};
ghost use Rattle.host_state.specs.Fire.{has_acted, fire};
ghost use Rattle.host_state.specs.HostRecord.{HostRecord};
ghost use Rattle.host_state.specs.Fits.{model};
ghost use Rattle.host_state.specs.Slice.{slice, calls, calls_again, calls_in_a_slice};
ghost use Rattle.host_state.specs.Step as step;
ghost use Rattle.host_state.specs.World.{World, AreRows, opening_world};
ghost use Rattle.world_order.specs.World.{next};
ghost use Rattle.host_laws.specs.Stretches.{IsShortSlice};
ghost use Rattle.host_laws.specs.Waiting.{IsBlocked, HaveGoes, AllHaveGoes};

pub mod rounds;

/// Once an event has fired, no call that a process is blocked in would answer: each process whose
/// call would has a Go to come.
pub fn nobody_is_forgotten()
    ensures { (net : Net) (host : HostRecord) (e : Event) (p : ℕ) (why : Why) → length host.processes ≤ most_processes
        → IsBlocked p why (has_acted net e host) → answers net.known e.key.due p why (has_acted net e host).parts ≡ false }
{}

/// A process that is to go on has a Go among the events to come, from the opening world on and through
/// each event that fires, until its host has no number left for an event.
pub fn a_go_is_to_come()
    ensures opening { (net : Net) (rows : List Row) → AreRows net rows → AllHaveGoes (opening_world rows) }
    ensures firing { (net : Net) (host : HostRecord) (e : Event) (events : List Event) → HaveGoes host (e ∷ events)
        → HaveGoes (fire net host e).host (events ++ (fire net host e).made) }
    ensures turn { (net : Net) (w v : World) → AllHaveGoes w → next (model net) net.stop.nanos w ≡ Some v → AllHaveGoes v }
{}

/// A slice has at most 100 answered calls, the kept call that is made again among them, and between
/// two calls a process runs at most the budget's instructions.
pub fn slices_are_short()
    ensures fresh { (net : Net) (p : ℕ) (cpu : Cpu) (host : HostRecord) → IsShortSlice net p calls_in_a_slice (slice net p calls_in_a_slice cpu host) cpu host }
    ensures kept { (net : Net) (p number : ℕ) (arguments : List ℕ) (cpu next : Cpu) (host after : HostRecord) → calls net p number arguments cpu host ≡ (step.GoesOn next, after) → IsShortSlice net p (calls_in_a_slice - 1) (calls_again net p number arguments cpu host) next after }
{}
