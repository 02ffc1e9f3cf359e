//! When the first of some packets is due.
ghost use Rattle.std.specs.Prelude.{◌≡◌, map};
ghost use Rattle.event_order.specs.Events.{IsLeastDue};
ghost use Rattle.host_link.specs.Parcels.{parcel_event};
ghost use Rattle.round_parts.specs.Arrivals.{arrivals};
ghost use Rattle.round_parts.specs.Dues.{lesser_due};

use sim_base::{Parcel, Time};

/// The earlier of two times, either of which may be missing.
pub fn earlier(a: Option<Time>, b: Option<Time>) -> Option<Time>
    ensures { result ≡ lesser_due a b }
{
    match (a, b) {
        (Some(x), Some(y)) => { if y.nanos < x.nanos { b } else { a } }
        (Some(_), None) => a,
        (None, _) => b,
    }
}

/// When the first of the packets is due.
pub fn first_arrival(parcels: &[Box<Parcel>]) -> Option<Time>
    ensures { IsLeastDue (arrivals parcels.now) result }
{
    let mut least = None;
    for parcel in parcels {
        least = earlier(least, Some(parcel.key.due));
    }
    least
}

/// The same of packets that are in no inbox.
pub fn first_spilled(parcels: &[Parcel]) -> Option<Time>
    ensures { IsLeastDue (map parcel_event parcels.now) result }
{
    let mut least = None;
    for parcel in parcels {
        least = earlier(least, Some(parcel.key.due));
    }
    least
}
