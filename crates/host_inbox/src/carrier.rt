//! One worker's carrier.
ghost use Rattle.std.specs.Prelude.{◌≡◌, ◌+◌, ◌^◌, ◌<◌, ◌≤◌, [], ◌∷◌, ◌++◌, map, length, IfOk, IfErr};
ghost use Rattle.host_inbox.specs.Entries.{inbox_places, entry};
ghost use Rattle.host_inbox.specs.Inboxes.{known};

use crate::entry::Claim;
use crate::put::Put;
use crate::steps::{PlaceSeat, Places, claim_number, fill};
use list_weights::Trail;
use sim_base::Parcel;
use std::marker::Model;

/// Puts parcels into the inboxes of its boards. Contracts see it as the entries of its puts.
#[derive(Drop)]
pub struct Carrier<T = Parcel> {
    seat: PlaceSeat<T>,
    trail: Trail<Put<T>>,
}

impl<T> Model for Carrier<T> {
    ghost use Rattle.host_inbox.specs.CarrierViews.{CarrierView};

    ghost Value = { CarrierView T };

    ghost use Rattle.host_inbox.specs.inside.Carriers.{carrier_view, IsSoundCarrier};

    ghost view = { carrier_view };

    ghost invariant = { IsSoundCarrier };
}

/// The places of the host's inbox are full: the number that was claimed is 16 or more. The parcel comes back.
#[derive(Drop)]
pub struct Full<T = Parcel> {
    pub parcel: T,
    pub claimed: u64,
}

impl<T> Carrier<T> {
    ghost use Rattle.host_inbox.specs.inside.Carriers.{filed};

    /// A carrier that has made no put.
    pub(crate) fn new(seat: PlaceSeat<T>) -> Carrier<T>
        requires { seat.me ≡ (known 1 [] [], []) }
        ensures { (result.boards ≡ seat.table_id) × (result.entries ≡ []) }
    {
        Carrier {
            seat,
            trail: Trail::new(),
        }
    }

    /// The carrier's seat, which knows the entries of its puts.
    pub(crate) fn into_seat(self) -> PlaceSeat<T>
        ensures table { result.table_id ≡ self.boards }
        ensures knows { result.me ≡ (known 1 (map filed self.entries) [], []) }
    {
        let Carrier { seat, trail: _ } = self;
        seat
    }

    pub(crate) fn put(
        &mut self,
        places: &Places<T>,
        hosts: u32,
        host: u32,
        parcel: T,
    ) -> Result<u64, Full<T>>
        requires table { self.old.boards ≡ places.now.table_id }
        requires hosts { (hosts ≡ places.now.key.hosts) × (hosts + hosts ≡ places.now.table_id.words) }
        requires host { host < hosts }
        requires few { length self.old.entries < 2 ^ 32 }
        ensures same { self.new.boards ≡ self.old.boards }
        ensures placed { IfOk result (λ place. (place < inbox_places) × (self.new.entries ≡ self.old.entries ++ entry host place parcel ∷ [])) }
        ensures full { IfErr result (λ full. (inbox_places ≤ full.claimed) × (full.parcel ≡ parcel) × (self.new.entries ≡ self.old.entries ++ entry host full.claimed parcel ∷ [])) }
    {
        let number = claim_number(places, &mut self.seat, host);
        self.trail.then(Put::new(host, number, &parcel));
        if number < 16 {
            fill(
                places,
                &mut self.seat,
                hosts,
                Claim { host, number },
                parcel,
            );
            Ok(number)
        } else {
            Err(Full {
                parcel,
                claimed: number,
            })
        }
    }
}
