//! The random words that a host draws.

ghost use Rattle.std.proofs.Props.{props};
ghost use Rattle.std.specs.Prelude.{◌≡◌, ◌+◌, ◌≤◌, ℕ};
ghost use Rattle.host_draws.specs.Draws.{draw, host_generator, seeded, word_of};

use rand_core::SeedableRng;
use rand_core::utils::NextWord;
use rand_xoshiro::Xoshiro256PlusPlus;
use std::marker::Model;

/// A host's generator, xoshiro256++ of Blackman and Vigna. Each host has its own. Contracts see its
/// state.
#[derive(Drop)]
pub struct Draws {
    generator: Xoshiro256PlusPlus,
}

impl Model for Draws {
    ghost use Rattle.std.specs.Prelude.{List, ℕ};

    ghost Value = { List ℕ };

    ghost view = { λ d. d.generator };

    ghost inverse = { λ s. record { generator = s } };
}

impl Draws {
    /// The generator of the host with this number, in an experiment with this seed.
    pub fn for_host(seed: u32, index: u32) -> Draws
        ensures { result ≡ host_generator seed index }
    {
        Seeds::new(seed).draws(seed, index)
    }

    /// Draws the next word.
    pub fn word(&mut self) -> u64
        ensures { (result, self.new) ≡ draw self.old }
    {
        self.generator.next_word()
    }
}

/// What the generators of hosts are seeded by. Where hosts of one experiment are asked for in the order of their numbers, each
/// takes one word more, and not all those before its own.
#[derive(Drop)]
pub struct Seeds {
    seed: u32,
    at: u64,
    words: Xoshiro256PlusPlus,
    ghost told: { (n : ℕ) → word_of words n ≡ word_of (seeded seed) (at + n) } by { Prim.hlevel props },
}

impl Seeds {
    /// Those of an experiment with this seed, from its first host on.
    pub fn new(seed: u32) -> Seeds
        ensures { (result.seed ≡ seed) × (result.at ≡ 0) }
    {
        Seeds {
            seed,
            at: 0,
            words: Xoshiro256PlusPlus::seed_from_u64(u64::from(seed)),
        }
    }

    /// Begins anew where it is past the host with this number, or in another experiment.
    fn turn_to(&mut self, seed: u32, index: u64)
        ensures { (self.new.seed ≡ seed) × (self.new.at ≤ index) }
    {
        if seed != self.seed || index < self.at {
            *self = Seeds::new(seed);
        }
    }

    /// Goes on to the host with this number.
    fn go_to(&mut self, index: u64)
        requires { self.old.at ≤ index }
        ensures { (self.new.seed ≡ self.old.seed) × (self.new.at ≡ index) }
    {
        for _host in self.at..index {
            let _ = self.words.next_word();
            self.at += 1;
        }
    }

    /// The generator of the host with this number, in an experiment with this seed.
    pub fn draws(&mut self, seed: u32, index: u32) -> Draws
        ensures { result ≡ host_generator seed index }
    {
        let index = u64::from(index);
        self.turn_to(seed, index);
        self.go_to(index);
        let word = self.words.next_word();
        self.at += 1;
        Draws {
            generator: Xoshiro256PlusPlus::seed_from_u64(word),
        }
    }
}
