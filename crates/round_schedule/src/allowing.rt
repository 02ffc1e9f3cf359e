//! Where steps are allowed.

ghost use Rattle.std.specs.Prelude.{◌≡◌, is_some, option_copied};
ghost use Rattle.host_state.specs.HostRecord.{HostRecord};
ghost use Rattle.host_link.specs.declared.line.Line.{Line};
ghost use Rattle.host_link.specs.Net.{Net};
ghost use Rattle.host_state.specs.Fits.{model};
ghost use Rattle.world_order.specs.Steps.{is_allowed, is_empty};
ghost use Rattle.world_order.specs.World.{World};
ghost use Rattle.round_schedule.specs.inside.Guards as spec;
ghost use Rattle.round_schedule.specs.Reaching.{State};
ghost use Rattle.round_schedule.specs.Standing.{RoundStands};

use crate::member::{Member, Stage, Worker};
use crate::round::Round;
use sim_base::{Parcel, Time};
use world_order::{Spot, Step};

impl Member {
    fn is_in_hand(&self, worker: u32) -> bool
        ensures { result ≡ spec.is_in_hand worker self.now }
    {
        match self.stage {
            Stage::InHand(holder) => worker == holder,
            Stage::Waits => false,
            Stage::Done => false,
        }
    }

    fn is_waiting(&self) -> bool
        ensures { result ≡ spec.is_waiting self.now }
    {
        match self.stage {
            Stage::Waits => true,
            Stage::InHand(_) => false,
            Stage::Done => false,
        }
    }

    fn is_done(&self) -> bool
        ensures { result ≡ spec.is_done self.now }
    {
        match self.stage {
            Stage::Done => true,
            Stage::InHand(_) => false,
            Stage::Waits => false,
        }
    }

    /// Whether it holds an event that is due before a time.
    fn has_due(&self, end: Time) -> bool
        ensures { result ≡ spec.has_due end.nanos self.now }
    {
        match self.host.next_due() {
            Some(due) => due.nanos < end.nanos,
            None => false,
        }
    }

    /// Whether it has a place of this number that is free.
    fn is_free(&self, place: u32) -> bool
        ensures { result ≡ spec.is_free place self.now }
    {
        match self.places.get(place as usize) {
            Some(kept) => kept.is_none(),
            None => false,
        }
    }
}

impl Worker {
    fn has_empty_hand(&self) -> bool
        ensures { result ≡ is_empty self.now.hand.items }
    {
        self.hand.is_empty()
    }
}

impl Round {
    /// The number of the host in a worker's hand.
    pub(crate) fn held(&self, worker: u32) -> Option<usize>
        ensures { result ≡ spec.held worker self.now }
    {
        self.members
            .iter()
            .position(|member| member.is_in_hand(worker))
    }

    /// The host in a worker's hand.
    fn in_hand(&self, worker: u32) -> Option<&Member>
        ensures { option_copied result ≡ spec.in_hand worker self.now }
    {
        self.members.get(self.held(worker)?)
    }

    /// The first packet in a worker's hand.
    fn first_packet(&self, worker: u32) -> Option<&Parcel>
        ensures { option_copied result ≡ spec.first_packet worker self.now }
    {
        self.workers.get(worker as usize)?.hand.first()
    }

    fn may_take(&self, worker: u32, host: u32) -> bool
        ensures { result ≡ spec.may_take worker host self.now }
    {
        self.workers.get(worker as usize).is_some()
            && match self.members.get(host as usize) {
                Some(member) => member.is_waiting(),
                None => false,
            }
            && self.held(worker).is_none()
    }

    fn may_fire(&self, worker: u32) -> bool
        ensures { result ≡ spec.may_fire worker self.now }
    {
        self.workers.get(worker as usize).is_some()
            && match self.in_hand(worker) {
                Some(member) => member.has_due(self.window.end),
                None => false,
            }
    }

    /// Whether the first packet of a hand may be put somewhere.
    fn may_put_at(&self, spot: Spot, parcel: &Parcel) -> bool
        ensures { result ≡ spec.may_put_at spot self.now parcel.now }
    {
        match spot {
            Spot::Spill => true,
            Spot::Place(place) => match self.members.get(parcel.to.index as usize) {
                Some(member) => member.is_free(place),
                None => false,
            },
        }
    }

    fn may_put(&self, worker: u32, spot: Spot) -> bool
        ensures { result ≡ spec.may_put worker spot self.now }
    {
        match self.first_packet(worker) {
            Some(parcel) => self.may_put_at(spot, parcel),
            None => false,
        }
    }

    /// Whether the host in a worker's hand has no event that is due before the end.
    fn is_over(&self, worker: u32) -> bool
        ensures { result ≡ spec.is_over worker self.now }
    {
        match self.in_hand(worker) {
            Some(member) => !member.has_due(self.window.end),
            None => false,
        }
    }

    fn may_give_back(&self, worker: u32) -> bool
        ensures { result ≡ spec.may_give_back worker self.now }
    {
        self.is_over(worker)
            && match self.workers.get(worker as usize) {
                Some(worker) => worker.has_empty_hand(),
                None => false,
            }
    }

    fn may_close(&self) -> bool
        ensures { result ≡ spec.may_close self.now }
    {
        self.members.iter().all(|member| member.is_done())
    }

    /// Whether a step is allowed.
    pub fn allowed(&self, step: &Step) -> bool
        ensures { (net : Net) (w : World HostRecord Line) (s : State) → RoundStands net w self.now s → result ≡ is_allowed (model net) step.now s }
    {
        if self.closed {
            return false;
        }
        match *step {
            Step::Take { worker, host } => self.may_take(worker, host.index),
            Step::Fire { worker } => self.may_fire(worker),
            Step::Put { worker, spot } => self.may_put(worker, spot),
            Step::Back { worker } => self.may_give_back(worker),
            Step::Close => self.may_close(),
        }
    }
}
