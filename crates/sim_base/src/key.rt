//! The key of an event, and the order in which events fire.

ghost use Rattle.std.specs.Prelude.{◌≡◌, refl};
ghost use Rattle.std.specs.Cmp.{partial_order_from_own_ties, partial_order_from_total};
ghost use Rattle.std.specs.Ordering.{as_partial_cmp};
ghost use Rattle.sim_base.specs.Key.{key_order, kind_number};
ghost use Rattle.sim_base.specs.KeyLaws.{key_order_total, key_ties};

use crate::host::HostId;
use crate::time::Time;
use std::cmp::Ordering;

/// Whether an event is a packet of another host, or the host's own.
#[derive(Clone, Copy, PartialEq, Eq)]
pub enum Kind {
    Packet,
    Local,
}

impl Kind {
    /// The place in the order: packets come first.
    fn number(self) -> u8
        ensures { result ≡ kind_number self }
    {
        match self {
            Kind::Packet => 0,
            Kind::Local => 1,
        }
    }
}

/// What tells events apart and puts them in order: no two events have the same key.
#[derive(Clone, Copy, PartialEq, Eq)]
pub struct Key {
    /// When the event fires.
    pub due: Time,
    pub kind: Kind,
    /// The host that made the event.
    pub source: HostId,
    /// That host's number of the event, from 0.
    pub number: u64,
}

impl Ord for Key {
    ghost cmp = { key_order };

    ghost total = { key_order_total };

    ghost matches_partial_cmp = { λ a b. refl };

    ghost matches_eq = { key_ties };

    // Most keys differ in when they are due: only where they don't is the rest looked at.
    fn cmp(&self, other: &Key) -> Ordering {
        match self.due.nanos.cmp(&other.due.nanos) {
            Ordering::Equal => self
                .kind
                .number()
                .cmp(&other.kind.number())
                .then(self.source.index.cmp(&other.source.index))
                .then(self.number.cmp(&other.number)),
            order => order,
        }
    }
}

impl PartialOrd for Key {
    ghost partial_cmp = { as_partial_cmp key_order };

    ghost laws = { partial_order_from_own_ties (partial_order_from_total key_order_total) key_ties };

    fn partial_cmp(&self, other: &Key) -> Option<Ordering> {
        Some(self.cmp(other))
    }
}
