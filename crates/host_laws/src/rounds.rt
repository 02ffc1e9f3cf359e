//! What hosts owe the laws of worlds and rounds.

ghost use Rattle.std.specs.Prelude.{◌≤◌, ◌<◌, ℕ, Option, length};
ghost use Rattle.sim_base.specs.Units.{latest_time};
ghost use Rattle.sim_base.specs.declared.event.Event.{Event};
ghost use Rattle.host_state.specs.declared.host.Host.{Host};
ghost use Rattle.host_link.specs.Net.{Net};
ghost use Rattle.host_rows.specs.declared.row.Row.{Row};
ghost use Rattle.host_state.specs.Fits.{FiringsFit, FitsNet, IsEventOf, IsLookaheadOf, IsShort, OpensFit};
ghost use Rattle.host_link.specs.Home.{home};
ghost use Rattle.host_state.specs.HostStands.{Begins};
ghost use Rattle.host_state.specs.Opening.{opening};
ghost use Rattle.host_state.specs.Running.{MayRun};

/// What a firing leaves fits, with any lookahead that no route from one host to another falls short
/// of: each event that it makes is due later, and one for another host by the lookahead at least;
/// they have the host's next numbers; and what holds of hosts and events still does.
pub fn firings_fit()
    ensures { (net : Net) (lookahead : Option ℕ) → IsLookaheadOf net lookahead → IsShort lookahead → net.stop.nanos ≤ latest_time → FiringsFit net lookahead }
{}

/// An event fires at a host of the net.
pub fn homes_are_hosts()
    ensures { (net : Net) (e : Event) → IsEventOf net e → home net e < length net.known.book }
{}

/// What a host begins with fits.
pub fn openings_fit()
    ensures { (net : Net) (row : Row) → FitsNet net row → OpensFit net row.host.index (opening row) }
{}

/// A host at the beginning may be run.
pub fn beginnings_run()
    ensures { (net : Net) (row : Row) → FitsNet net row → (c : Host) → Begins row c → MayRun net c }
{}
