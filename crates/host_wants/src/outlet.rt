//! What the acts of a host want.

ghost use Rattle.std.specs.Prelude.{◌≡◌, ◌++◌, ◌∷◌, [], OnOk, IfOk};
ghost use Rattle.host_wants.specs.Wanted as spec;

use host_draws::Draws;
use sim_base::{AlarmTarget, NoMemory, Packet, Time};
use std::alloc::Global;
use std::marker::Model;
use std::mem;

/// What an act wants: a packet to be sent, or an alarm to be made.
#[derive(Drop)]
pub enum Want {
    Send(Packet),
    /// The target is to be told of this serial at the moment `due`.
    Alarm {
        target: AlarmTarget,
        serial: u64,
        due: Time,
    },
}

/// What the acts of a host share: its generator, what they want, in the order of the acts, and the
/// last serial that an alarm was given, 0 at first.
#[derive(Drop)]
pub struct Outlet {
    draws: Draws,
    wants: Vec<Want>,
    serial: u64,
}

impl Model for Outlet {
    ghost use Rattle.host_wants.specs.Wanted.{Wanted};

    ghost Value = { Wanted };

    ghost view = { λ o. record { draws = o.draws; wants = o.wants.items; serial = o.serial } };
}

impl Outlet {
    ghost use Rattle.std.specs.Borrow.{sem};
    ghost use Rattle.host_wants.specs.Lending.{LendsDraws};

    /// With this generator, and nothing wanted.
    pub fn new(alloc: Global, draws: Draws) -> Outlet
        ensures { result ≡ spec.nothing_wanted draws }
    {
        Outlet {
            draws,
            wants: Vec::new(alloc),
            serial: 0,
        }
    }

    /// Draws the next word.
    pub fn word(&mut self) -> u64
        ensures { (result, self.new) ≡ spec.draws_word self.old }
    {
        self.draws.word()
    }

    /// The generator, for what draws only where it has to.
    pub fn draws(&mut self) -> &mut Draws
        ensures drawn { result.now ≡ self.old.draws }
        ensures* left { sem 𝓛 (LendsDraws self.entry result) }
    {
        &mut self.draws
    }

    /// Wants a packet to be sent.
    pub fn send(&mut self, packet: Packet) -> Result<(), NoMemory>
        ensures { OnOk result (self.new ≡ spec.sends (packet ∷ []) self.old) }
    {
        self.wants.push(Want::Send(packet))?;
        Ok(())
    }

    /// Wants packets to be sent, one after another.
    pub fn send_all(&mut self, packets: Vec<Packet>) -> Result<(), NoMemory>
        ensures { OnOk result (self.new ≡ spec.sends packets.items self.old) }
    {
        for packet in packets {
            self.wants.push(Want::Send(packet))?;
        }
        Ok(())
    }

    /// Wants an alarm of a target at a moment, and answers its serial.
    pub fn alarm(&mut self, target: AlarmTarget, due: Time) -> Result<u64, NoMemory>
        ensures { IfOk result (λ serial. (serial, self.new) ≡ spec.wants_alarm target due self.old) }
    {
        let serial = self.serial.saturating_add(1);
        self.serial = serial;
        self.wants.push(Want::Alarm {
            target,
            serial,
            due,
        })?;
        Ok(serial)
    }

    /// Takes what is wanted.
    pub fn take_wants(&mut self) -> Vec<Want>
        ensures wants { result.items ≡ self.old.wants }
        ensures rest { self.new ≡ spec.without_wants self.old }
    {
        let alloc = *self.wants.allocator();
        mem::replace(&mut self.wants, Vec::new(alloc))
    }
}
