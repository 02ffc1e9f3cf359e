//! A cost that may be missing, in the room of two words.

ghost use Rattle.std.specs.Prelude.{◌≡◌};

use crate::cost::Cost;
use std::marker::Model;

/// A cost, if there is one. It takes less room than an `Option` of one, since tables have millions.
#[derive(Drop)]
pub struct Kept {
    latency: u64,
    reliability: u32,
    exists: bool,
}

impl Model for Kept {
    ghost use Rattle.std.specs.Prelude.{if◌then◌else◌, Option, Some, None};
    ghost use Rattle.net_routes.specs.declared.cost.Cost.{Cost};

    ghost Value = { Option Cost };

    ghost view = { λ k. if k.exists then Some (record { latency = k.latency; reliability = k.reliability }) else None };
}

impl From<Option<Cost>> for Kept {
    fn from(cost: Option<Cost>) -> Kept
        ensures { result ≡ cost }
    {
        match cost {
            Some(cost) => Kept {
                latency: cost.latency,
                reliability: cost.reliability,
                exists: true,
            },
            None => Kept {
                latency: 0,
                reliability: 0,
                exists: false,
            },
        }
    }
}

impl Kept {
    pub fn get(&self) -> Option<Cost>
        ensures { result ≡ self.now }
    {
        if !self.exists {
            return None;
        }
        Some(Cost {
            latency: self.latency,
            reliability: self.reliability,
        })
    }
}
