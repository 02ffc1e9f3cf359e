//! What firings make and hand out.

ghost use Rattle.std.specs.Prelude.{OnOk};
ghost use Rattle.host_link.specs.Outbox as spec;

use crate::line::{Line, Logged};
use file_calls::Output;
use sim_base::{Event, HostId, Key, NoMemory, Parcel, What};
use std::alloc::Global;

/// What a firing made: events, in the order of their numbers, lines of the log, and what processes
/// wrote.
#[derive(Drop)]
pub struct Made {
    pub events: Vec<Event>,
    pub lines: Vec<Line>,
    pub outputs: Vec<Output>,
}

/// What firings hand out: packets for other hosts, lines of the log, and what processes wrote, each
/// in order.
#[derive(Drop)]
pub struct Outbox {
    pub parcels: Vec<Parcel>,
    pub lines: Vec<Logged>,
    pub outputs: Vec<Output>,
}

impl Outbox {
    pub fn new(alloc: Global) -> Outbox
        ensures { spec.IsEmpty result }
    {
        Outbox {
            parcels: Vec::new(alloc),
            lines: Vec::new(alloc),
            outputs: Vec::new(alloc),
        }
    }

    /// Adds the packet of an event that fires at another host.
    pub(crate) fn post(&mut self, to: u32, event: Event) -> Result<(), NoMemory>
        ensures { OnOk result (spec.Posts to event self.old self.new) }
    {
        let Event { key, what } = event;
        match what {
            What::Packet(packet) => {
                let to = HostId { index: to };
                self.parcels.push(Parcel { key, to, packet })?;
                Ok(())
            }
            _ => Ok(()),
        }
    }

    /// Adds lines of the log, which are from the firing of an event.
    pub(crate) fn add_lines(&mut self, key: Key, lines: Vec<Line>) -> Result<(), NoMemory>
        ensures { OnOk result (spec.AddsLines key lines.items self.old self.new) }
    {
        for line in lines {
            self.lines.push(Logged { key, line })?;
        }
        Ok(())
    }

    /// Adds what processes wrote. Behind nothing it stands as it is, without a copy.
    pub(crate) fn add_outputs(&mut self, outputs: Vec<Output>) -> Result<(), NoMemory>
        ensures { OnOk result (spec.AddsOutputs outputs.items self.old self.new) }
    {
        if self.outputs.is_empty() {
            self.outputs = outputs;
            return Ok(());
        }
        let mut outputs = outputs;
        self.outputs.append(&mut outputs)?;
        Ok(())
    }
}
