//! Ids of nodes in rising order, each once. The place of an id is its index.

ghost use Rattle.std.specs.Prelude.{◌≡◌, ◌≤◌, ◌↔◌, ℕ, length, Contains, vec_len};
ghost use Rattle.std.specs.List.Sorted.{IsStrictlyIncreasing};
ghost use Rattle.net_routes.specs.Needed.{IsAt};
ghost use Rattle.net_routes.specs.inside.Places.{place_of};

use std::marker::Model;

/// Ids of nodes in rising order, each once. Contracts see the list.
#[derive(Drop)]
pub struct NodeIds {
    ids: Vec<u32>,
}

impl Model for NodeIds {
    ghost use Rattle.std.specs.Prelude.{ℕ, List};
    ghost use Rattle.std.specs.List.Sorted.{IsStrictlyIncreasing};

    ghost Value = { List ℕ };

    ghost view = { λ p. p.ids.items };

    ghost invariant = { λ p. IsStrictlyIncreasing p.ids.items };
}

impl From<Vec<u32>> for NodeIds {
    fn from(ids: Vec<u32>) -> NodeIds
        ensures ids { (id : ℕ) → Contains result id ↔ Contains ids.items id }
        ensures few { length result ≤ vec_len ids }
    {
        let mut ids = ids;
        ids.sort_unstable();
        ids.dedup();
        NodeIds { ids }
    }
}

impl NodeIds {
    pub fn len(&self) -> usize
        ensures { result ≡ length self.now }
    {
        self.ids.len()
    }

    pub fn as_slice(&self) -> &[u32]
        ensures ids { result.now ≡ self.now }
        ensures rising { IsStrictlyIncreasing self.now }
    {
        self.ids.as_slice()
    }

    /// The place of an id, if it is there. Where the ids are the numbers from 0 on, it is the id.
    pub fn find(&self, id: u32) -> Option<usize>
        ensures place { result ≡ place_of self.now id }
        ensures rising { IsStrictlyIncreasing self.now }
    {
        let guess = id as usize;
        if guess < self.ids.len() && self.ids[guess] == id {
            return Some(guess);
        }
        self.ids.binary_search(&id).ok()
    }

    /// The place of an id that is there.
    pub fn place(&self, id: u32) -> usize
        requires { Contains self.now id }
        ensures { IsAt self.now result id }
    {
        match self.find(id) {
            Some(place) => place,
            None => unreachable!(),
        }
    }
}
