//! What a call on a record brings about.

use crate::connection::conn::Conn;
use sim_base::{NoMemory, Packet, Time};
use std::alloc::Global;

/// Segments to be sent, in order, and the length of the timer that the call started, from now on.
#[derive(Drop)]
pub struct Effects {
    pub segments: Vec<Packet>,
    pub timer: Option<Time>,
}

impl Effects {
    ghost use Rattle.std.specs.Prelude.{◌≡◌, [], None};

    /// Nothing comes about.
    pub fn none(alloc: Global) -> Effects
        ensures segments { result.segments.items ≡ [] }
        ensures timer { result.timer ≡ None }
    {
        Effects {
            segments: Vec::new(alloc),
            timer: None,
        }
    }
}

/// A connection that was opened, and what that brings about.
#[derive(Drop)]
pub struct Opened {
    pub conn: Conn,
    pub effects: Effects,
}

/// Which directions of a connection a process ends.
#[derive(Clone, Copy)]
pub enum Shut {
    Reading,
    Writing,
    Both,
}

/// The effects of a call as far as they have come.
#[derive(Drop)]
pub struct Draft {
    pub segments: Vec<Packet>,
    pub started: bool,
}

impl Draft {
    ghost use Rattle.std.specs.Prelude.{◌≡◌, [], ◌∷◌, ◌++◌, false, true, OnOk};

    pub fn new(alloc: Global) -> Draft
        ensures segments { result.segments.items ≡ [] }
        ensures started { result.started ≡ false }
    {
        Draft {
            segments: Vec::new(alloc),
            started: false,
        }
    }

    /// The timer was started.
    pub(crate) fn started(alloc: Global) -> Draft
        ensures segments { result.segments.items ≡ [] }
        ensures started { result.started ≡ true }
    {
        Draft {
            segments: Vec::new(alloc),
            started: true,
        }
    }

    pub(crate) fn send(&mut self, packet: Packet) -> Result<(), NoMemory>
        ensures segments { OnOk result (self.new.segments.items ≡ self.old.segments.items ++ packet ∷ []) }
        ensures started { self.new.started ≡ self.old.started }
    {
        self.segments.push(packet)?;
        Ok(())
    }
}
