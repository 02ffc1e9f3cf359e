//! What was put, as a carrier tells it.

ghost use Rattle.std.specs.Prelude.{◌≡◌};
ghost use Rattle.host_inbox.specs.Entries.{entry};

use std::marker::Model;
use std::snapshot::Snapshot;

/// An entry whose parcel exists in contracts alone.
#[derive(Drop)]
pub struct Put<T> {
    host: u32,
    number: u64,
    parcel: Snapshot<T>,
}

impl<T> Model for Put<T> {
    ghost use Rattle.host_inbox.specs.declared.entry.Entry.{Entry};

    ghost Value = { Entry T };

    ghost use Rattle.host_inbox.specs.Entries.{entry};

    ghost view = { λ p. entry p.host p.number p.parcel.value };
}

impl<T> Put<T> {
    pub fn new(host: u32, number: u64, parcel: &T) -> Put<T>
        ensures { result ≡ entry host number parcel.now }
    {
        Put {
            host,
            number,
            parcel: Snapshot::of(parcel),
        }
    }
}
