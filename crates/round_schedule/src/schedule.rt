//! The steps of a round.

ghost use Rattle.std.specs.Prelude.{◌≡◌, ◌∷◌, [], OnOk, IfOk};
ghost use Rattle.round_schedule.specs.Reaching.{MayGo, Goes};

use crate::round::Round;
use host_link::Net;
use sim_base::NoMemory;
use world_order::Step;

impl Round {
    /// Takes a step that is allowed. The error is want of memory.
    pub fn apply(&mut self, net: &Net, step: Step) -> Result<(), NoMemory>
        requires { MayGo net.now (step ∷ []) self.old }
        ensures goes { OnOk result (Goes net.now (step ∷ []) self.old self.new) }
        ensures window { OnOk result (self.new.window ≡ self.old.window) }
    {
        match step {
            Step::Take { worker, host } => {
                self.take_host(worker, host.index);
                Ok(())
            }
            Step::Fire { worker } => self.fire_host(net, worker),
            Step::Put { worker, spot } => self.put_packet(worker, spot),
            Step::Back { worker } => {
                self.give_back(worker);
                Ok(())
            }
            Step::Close => self.close(),
        }
    }
}

/// Takes steps, each of which is allowed in its turn. The error is want of memory.
pub fn law_schedule(round: Round, net: &Net, steps: &[Step]) -> Result<Round, NoMemory>
    requires { MayGo net.now steps.now round }
    ensures goes { IfOk result (λ last. Goes net.now steps.now round last) }
    ensures window { IfOk result (λ last. last.window ≡ round.window) }
{
    let mut round = round;
    for step in steps {
        round.apply(net, *step)?;
    }
    Ok(round)
}
