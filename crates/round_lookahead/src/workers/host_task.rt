//! A host that waits for its turn.

ghost use Rattle.std.proofs.Props.{props};
ghost use Rattle.std.specs.Prelude.{◌≡◌};
ghost use Rattle.round_parts.specs.Dues.{first_due};

use host_state::Host;
use sim_base::{HostId, Parcel, Time};

/// A host of a round, and the drained parcels that wait for it. So that a host with nothing to do needn't be looked at, when the first
/// event that it holds is due and about what it had to do so far stand beside it.
#[derive(Drop)]
pub struct HostTask {
    pub id: HostId,
    pub host: Box<Host>,
    pub parcels: Vec<Box<Parcel>>,
    pub due: Option<Time>,
    pub work: u64,
    ghost told: { due ≡ first_due host.value.queue } by { Prim.hlevel props },
}

/// When the first event that a host holds is due; none where it holds no event.
pub(crate) fn due_of(host: &Host) -> Option<Time>
    ensures { result ≡ first_due host.now.queue }
{
    host.next_due()
}

impl HostTask {
    /// A host, for which these parcels wait.
    pub(crate) fn new(id: HostId, host: Box<Host>, parcels: Vec<Box<Parcel>>) -> HostTask
        ensures id { result.id ≡ id }
        ensures host { result.host ≡ host }
        ensures parcels { result.parcels ≡ parcels }
    {
        let due = due_of(&*host);
        let work = host.work();
        HostTask {
            id,
            host,
            parcels,
            due,
            work,
        }
    }
}
