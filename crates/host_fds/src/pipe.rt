//! Pipes.

ghost use Rattle.std.specs.Prelude.{◌≡◌, ◌++◌, min, length, take, drop, IfOk};
ghost use Rattle.host_fds.specs.Pipe as spec;

use crate::rises::Rises;
use circular_buffer::HeapCircularBuffer;
use sim_base::{NoMemory, POLLERR, POLLHUP, POLLIN, POLLOUT};
use std::alloc::Global;
use std::marker::Model;

/// An end of a pipe.
#[derive(Clone, Copy)]
pub enum End {
    Reading,
    Writing,
}

/// A pipe of at most 65,536 bytes (`pipe(7)`).
///
/// Contracts see it as the bytes that were written and not read yet, whether a reader and a writer are left, and how
/// often each end became ready.
#[derive(Drop)]
pub struct Pipe {
    bytes: HeapCircularBuffer<u8>,
    has_reader: bool,
    has_writer: bool,
    read_rises: Rises,
    write_rises: Rises,
}

impl Model for Pipe {
    ghost use Rattle.std.specs.Prelude.{◌≡◌};
    ghost use Rattle.host_fds.specs.Pipe.{PipeState, capacity};

    ghost Value = { PipeState };

    ghost view = { λ p. record { bytes = p.bytes.items; has_reader = p.has_reader; has_writer = p.has_writer; read_rises = p.read_rises; write_rises = p.write_rises } };

    ghost invariant = { λ p. p.bytes.capacity ≡ capacity };
}

impl Pipe {
    /// The most bytes that a pipe holds.
    pub const CAPACITY: usize = 65536;

    /// An empty pipe with both ends, and with room for all that it may hold: no later call takes memory.
    pub fn new(alloc: Global) -> Result<Pipe, NoMemory>
        ensures { IfOk result (λ pipe. pipe ≡ spec.new_pipe) }
    {
        Ok(Pipe {
            bytes: HeapCircularBuffer::with_capacity(alloc, Self::CAPACITY)?,
            has_reader: true,
            has_writer: true,
            read_rises: Rises::none(),
            write_rises: Rises::none(),
        })
    }

    /// An act ends before which the ends were ready so.
    fn end_act(&mut self, reading: u16, writing: u16, put_in: bool)
        ensures { self.new ≡ spec.moves reading writing put_in self.old }
    {
        let (now_reading, now_writing) = (self.ready(End::Reading), self.ready(End::Writing));
        self.read_rises = self.read_rises.moved(reading, now_reading, put_in);
        self.write_rises = self.write_rises.moved(writing, now_writing, false);
    }

    fn put(&mut self, bytes: &[u8]) -> usize
        ensures count { result ≡ spec.count_taken self.old bytes.now }
        ensures put { self.new ≡ spec.holding (self.old.bytes ++ take result bytes.now) self.old }
    {
        if !self.has_writer {
            return 0;
        }
        self.bytes.fill_from_slice(bytes)
    }

    fn take(&mut self, into: &mut [u8]) -> usize
        ensures count { result ≡ min (length into.old) (length self.old.bytes) }
        ensures moved { into.new ≡ take result self.old.bytes ++ drop result into.old }
        ensures left { self.new ≡ spec.holding (drop result self.old.bytes) self.old }
    {
        self.bytes.read_into(into)
    }

    fn let_go(&mut self, end: End)
        ensures { self.new ≡ spec.let_go self.old end }
    {
        match end {
            End::Reading => self.has_reader = false,
            End::Writing => self.has_writer = false,
        }
    }

    /// Takes the first of some bytes, as many as there is room for, and none once the writing end is let go.
    pub fn write(&mut self, bytes: &[u8]) -> usize
        ensures count { result ≡ spec.count_taken self.old bytes.now }
        ensures written { self.new ≡ spec.written self.old bytes.now }
    {
        let (reading, writing) = (self.ready(End::Reading), self.ready(End::Writing));
        let count = self.put(bytes);
        self.end_act(reading, writing, count > 0);
        count
    }

    /// Moves the oldest bytes out, as many as there are and as the buffer has room for.
    pub fn read(&mut self, into: &mut [u8]) -> usize
        ensures count { result ≡ min (length into.old) (length self.old.bytes) }
        ensures moved { into.new ≡ take result self.old.bytes ++ drop result into.old }
        ensures left { self.new ≡ spec.read self.old result }
    {
        let (reading, writing) = (self.ready(End::Reading), self.ready(End::Writing));
        let count = self.take(into);
        self.end_act(reading, writing, false);
        count
    }

    /// How many bytes were written and not read yet.
    pub fn len(&self) -> usize
        ensures { result ≡ length self.now.bytes }
    {
        self.bytes.len()
    }

    /// How many bytes there is room for.
    pub fn room(&self) -> usize
        ensures { result ≡ spec.room self.now }
    {
        Self::CAPACITY - self.bytes.len()
    }

    /// Whether the reading end is held.
    pub fn has_reader(&self) -> bool
        ensures { result ≡ self.now.has_reader }
    {
        self.has_reader
    }

    /// Whether the writing end is held.
    pub fn has_writer(&self) -> bool
        ensures { result ≡ self.now.has_writer }
    {
        self.has_writer
    }

    /// Lets an end go.
    pub fn shut(&mut self, end: End)
        ensures { self.new ≡ spec.shut self.old end }
    {
        let (reading, writing) = (self.ready(End::Reading), self.ready(End::Writing));
        self.let_go(end);
        self.end_act(reading, writing, false);
    }

    /// How often an end became ready.
    pub fn rises(&self, end: End) -> Rises
        ensures { result ≡ spec.rises self.now end }
    {
        match end {
            End::Reading => self.read_rises,
            End::Writing => self.write_rises,
        }
    }

    /// What an end is ready for, by the bits of `poll(2)`: `POLLIN`, `POLLOUT`, `POLLERR` and `POLLHUP`.
    pub fn ready(&self, end: End) -> u16
        ensures { result ≡ spec.ready self.now end }
    {
        match end {
            End::Reading => bit(POLLIN, !self.bytes.is_empty()) + bit(POLLHUP, !self.has_writer),
            End::Writing => bit(POLLOUT, self.room() > 0) + bit(POLLERR, !self.has_reader),
        }
    }
}

/// The bit, where it holds.
pub(crate) fn bit(bit: u16, holds: bool) -> u16
    ensures { result ≡ spec.bit_of bit holds }
{
    if holds { bit } else { 0 }
}
