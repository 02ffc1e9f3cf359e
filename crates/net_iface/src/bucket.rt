//! A bucket of tokens (this project's own profile).

ghost use Rattle.std.specs.Prelude.{◌≡◌, ◌/◌, ◌<◌, ◌≤◌};
ghost use Rattle.std.specs.Bool.{OnTrue, OnFalse};
ghost use Rattle.net_iface.specs.Bucket.{full_bucket, bucket_at, spent, paid, due_with};
ghost use Rattle.sim_base.specs.Packet.{max_packet};
ghost use Rattle.sim_base.specs.Units.{millisecond};

use sim_base::Time;
use std::marker::Model;

/// The bytes that a bucket holds beyond what it gets in a millisecond, one packet of the largest
/// size.
const SPARE: u64 = 1500;

/// The nanoseconds of a millisecond.
const MILLISECOND: u64 = 1_000_000;

/// A bucket of tokens, one a byte. It gets tokens at each whole millisecond from 1 ms on.
#[derive(Drop)]
pub struct Bucket {
    rate: u64,
    tokens: u64,
    millis: u64,
}

impl Model for Bucket {
    ghost use Rattle.net_iface.specs.Bucket.{BucketState, IsBucket};

    ghost Value = { BucketState };

    ghost view = { λ b. record { rate = b.rate; tokens = b.tokens; millis = b.millis } };

    ghost invariant = { λ b. IsBucket b.rate b.tokens };
}

impl Bucket {
    /// A full bucket at time 0, for a rate in bits a second.
    pub fn new(bits: u64) -> Bucket
        ensures { result ≡ full_bucket bits }
    {
        let rate = (bits / 8000).max(1);
        Bucket {
            rate,
            tokens: rate + SPARE,
            millis: 0,
        }
    }

    /// Lets the time come. It does not go back.
    pub fn at(&mut self, now: Time)
        requires { self.old.millis ≤ now.nanos / millisecond }
        ensures at { self.new ≡ bucket_at now.nanos self.old }
        ensures time { self.new.millis ≡ now.nanos / millisecond }
    {
        let millis = now.nanos / MILLISECOND;
        let gained = (millis - self.millis).saturating_mul(self.rate);
        let room = self.rate + SPARE - self.tokens;
        self.tokens += gained.min(room);
        self.millis = millis;
    }

    /// Spends tokens, or none where there are fewer.
    pub fn spend(&mut self, n: u64) -> bool
        ensures enough { OnTrue result (n ≤ self.old.tokens) }
        ensures fewer { OnFalse result (self.old.tokens < n) }
        ensures spent { OnTrue result (self.new ≡ spent n self.old) }
        ensures kept { OnFalse result (self.new ≡ self.old) }
    {
        if self.tokens < n {
            return false;
        }
        self.tokens -= n;
        true
    }

    /// Whether there are so many tokens.
    pub fn holds(&self, n: u64) -> bool
        ensures enough { OnTrue result (n ≤ self.now.tokens) }
        ensures fewer { OnFalse result (self.now.tokens < n) }
    {
        n <= self.tokens
    }

    /// Spends the tokens of a packet that was not dropped.
    pub fn pay(&mut self, dropped: bool, n: u64)
        requires { n ≤ self.old.tokens }
        ensures { self.new ≡ paid dropped n self.old }
    {
        if !dropped {
            self.tokens -= n;
        }
    }

    /// The first whole millisecond, later than the time that has come, at which there are `n`
    /// tokens, at most the end of time.
    pub fn due_with(&self, n: u64) -> Time
        requires { n ≤ max_packet }
        ensures { result.nanos ≡ due_with n self.now }
    {
        let wait = n.saturating_sub(self.tokens).div_ceil(self.rate).max(1);
        Time {
            nanos: self.millis.saturating_add(wait).saturating_mul(MILLISECOND),
        }
    }
}
