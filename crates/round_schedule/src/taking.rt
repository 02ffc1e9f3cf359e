//! A worker takes a host, and gives it back.

ghost use Rattle.std.specs.Prelude.{◌≡◌};
ghost use Rattle.host_link.specs.Net.{Net};
ghost use Rattle.world_order.specs.Steps as order;
ghost use Rattle.round_schedule.specs.Reaching.{May, Does};
ghost use Rattle.round_schedule.specs.inside.Kinds.{takes_host, gives};

use crate::member::Stage;
use crate::round::Round;

impl Round {
    /// A host that waits comes into a worker's hand.
    pub(crate) fn take_host(&mut self, worker: u32, host: u32)
        requires { (net : Net) × May net (takes_host worker host) self.old }
        ensures { (net : Net) → Does net (takes_host worker host) self.old self.new }
    {
        self.members[host as usize].stage = Stage::InHand(worker);
    }

    /// The host in a worker's hand is done.
    pub(crate) fn give_back(&mut self, worker: u32)
        requires { (net : Net) × May net (gives worker) self.old }
        ensures { (net : Net) → Does net (gives worker) self.old self.new }
    {
        if let Some(number) = self.held(worker) {
            self.members[number].stage = Stage::Done;
        }
    }
}
