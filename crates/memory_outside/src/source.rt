//! A source in memory.

ghost use Rattle.std.specs.Prelude.{◌≡◌, ◌<◌, ◌≤◌, ◌++◌, ◌∷◌, [], length, OnOk, OnErr, string_bytes};
ghost use Rattle.memory_outside.specs.Calls.{no_calls};
ghost use Rattle.run_outside.specs.Files.{no_files, with_file};
ghost use Rattle.run_outside.specs.Source.{IsPiece};

use crate::calls::Calls;
use run_outside::{ReadError, Source};
use sim_base::NoMemory;
use std::alloc::Global;
use std::collections::BTreeMap;

/// A source that holds its files in memory and tells them. Calls whose numbers, from 1, it was told
/// fail.
#[derive(Drop)]
pub struct MemSource {
    files: BTreeMap<String, Vec<u8>>,
    calls: Calls,
    most: usize,
}

/// Copies the bytes from the place `at` on, as many as there are and have room, up to `most`.
fn copy_piece(bytes: &[u8], at: u64, into: &mut [u8], most: usize) -> usize
    requires { 0 < most }
    ensures fits { result ≤ length into.old }
    ensures most { result ≤ most }
    ensures piece { IsPiece bytes.now at result into.new }
{
    let start = (at as usize).min(bytes.len());
    let (_, rest) = bytes.split_at(start);
    let n = rest.len().min(into.len()).min(most);
    into[..n].copy_from_slice(&rest[..n]);
    n
}

impl MemSource {
    ghost use Rattle.memory_outside.specs.MemSource.{mem_files, mem_calls};

    pub fn new(alloc: Global) -> MemSource
        ensures files { mem_files result ≡ no_files }
        ensures calls { mem_calls result ≡ no_calls }
    {
        MemSource {
            files: BTreeMap::new(alloc),
            calls: Calls::new(alloc),
            most: usize::MAX,
        }
    }

    /// Holds a file, in place of an earlier one of its name.
    pub fn add(&mut self, name: String, bytes: Vec<u8>) -> Result<(), NoMemory>
        ensures ok { OnOk result (mem_files self.new ≡ with_file (string_bytes name) bytes.items (mem_files self.old)) }
        ensures err { OnErr result (mem_files self.new ≡ mem_files self.old) }
        ensures calls { mem_calls self.new ≡ mem_calls self.old }
    {
        self.files.insert(name, bytes)?;
        Ok(())
    }

    /// Has the call of this number, from 1, fail.
    pub fn fail_at(&mut self, call: u64) -> Result<(), NoMemory>
        ensures ok { OnOk result (mem_calls self.new ≡ record (mem_calls self.old) { failing = (mem_calls self.old).failing ++ call ∷ [] }) }
        ensures err { OnErr result (mem_calls self.new ≡ mem_calls self.old) }
        ensures files { mem_files self.new ≡ mem_files self.old }
    {
        self.calls.fail_at(call)
    }

    /// Has each later read move at most this many bytes, and one where it is 0.
    pub fn short(&mut self, most: usize)
        ensures files { mem_files self.new ≡ mem_files self.old }
        ensures calls { mem_calls self.new ≡ mem_calls self.old }
    {
        self.most = most;
    }
}

impl Source for MemSource {
    ghost use Rattle.std.specs.Prelude.{Some};
    ghost use Rattle.memory_outside.specs.MemSource.{mem_files, mem_calls};

    ghost held = { λ s. Some (mem_files s) };

    ghost faults = { λ s. (mem_calls s).faults };

    fn size(&mut self, name: &str) -> Result<Option<u64>, ReadError> {
        if self.calls.next_fails() {
            return Err(ReadError::Failed);
        }
        match self.files.get(name) {
            Some(bytes) => Ok(Some(bytes.len() as u64)),
            None => Ok(None),
        }
    }

    fn read(&mut self, name: &str, at: u64, into: &mut [u8]) -> Result<usize, ReadError> {
        if self.calls.next_fails() {
            return Err(ReadError::Failed);
        }
        match self.files.get(name) {
            Some(bytes) => Ok(copy_piece(bytes.as_slice(), at, into, self.most.max(1))),
            None => Ok(0),
        }
    }
}
