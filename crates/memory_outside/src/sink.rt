//! A sink in memory.

ghost use Rattle.std.specs.Prelude.{◌≡◌, ◌<◌, ◌≤◌, ◌++◌, ◌∷◌, [], length, take, not, option_map, Some, IfOk, OnOk, OnErr};
ghost use Rattle.memory_outside.specs.Calls.{no_calls};
ghost use Rattle.run_outside.specs.Files.{add_to_file};
ghost use Rattle.memory_outside.specs.Files.{files_of};
ghost use Rattle.run_outside.specs.Sink.{nothing, add, Begins};
ghost use Rattle.run_outside.specs.Tally.{no_calls_yet};

use crate::calls::Calls;
use base_texts::Name;
use run_outside::{Sink, SinkTarget, Tally, WriteError};
use sim_base::NoMemory;
use std::alloc::Global;
use std::collections::{BTreeMap, BTreeSet};

/// A sink that holds its content in memory and tells it. Calls whose numbers, from 1, it was told
/// fail.
#[derive(Drop)]
pub struct MemSink {
    directories: BTreeSet<String>,
    out: Vec<u8>,
    err: Vec<u8>,
    files: BTreeMap<String, Vec<u8>>,
    calls: Calls,
    tally: Tally,
    most: usize,
    alloc: Global,
}

impl MemSink {
    ghost use Rattle.memory_outside.specs.MemSink.{sink_content, sink_calls, sink_tally, file_count};

    pub fn new(alloc: Global) -> MemSink
        ensures content { sink_content result ≡ nothing }
        ensures calls { sink_calls result ≡ no_calls }
        ensures tally { sink_tally result ≡ no_calls_yet }
    {
        MemSink {
            directories: BTreeSet::new(alloc),
            out: Vec::new(alloc),
            err: Vec::new(alloc),
            files: BTreeMap::new(alloc),
            calls: Calls::new(alloc),
            tally: Tally::new(),
            most: usize::MAX,
            alloc,
        }
    }

    /// Has the call of this number, from 1, fail.
    pub fn fail_at(&mut self, call: u64) -> Result<(), NoMemory>
        ensures ok { OnOk result (sink_calls self.new ≡ record (sink_calls self.old) { failing = (sink_calls self.old).failing ++ call ∷ [] }) }
        ensures err { OnErr result (sink_calls self.new ≡ sink_calls self.old) }
        ensures content { sink_content self.new ≡ sink_content self.old }
        ensures tally { sink_tally self.new ≡ sink_tally self.old }
    {
        self.calls.fail_at(call)
    }

    /// Has each later put take at most this many bytes, and one where it is 0.
    pub fn short(&mut self, most: usize)
        ensures content { sink_content self.new ≡ sink_content self.old }
        ensures calls { sink_calls self.new ≡ sink_calls self.old }
        ensures tally { sink_tally self.new ≡ sink_tally self.old }
    {
        self.most = most;
    }

    /// How many calls were made, those that failed among them.
    pub fn call_count(&self) -> u64
        ensures { result ≡ (sink_calls self.now).made }
    {
        self.calls.made()
    }

    /// Whether the directory is there.
    pub fn has_directory(&self, dir: &str) -> bool
        ensures { result ≡ (sink_content self.now).there dir.now }
    {
        self.directories.contains(dir)
    }

    /// The bytes of standard output.
    pub fn out(&self) -> &[u8]
        ensures { result.now ≡ (sink_content self.now).out }
    {
        self.out.as_slice()
    }

    /// The bytes of standard error.
    pub fn err(&self) -> &[u8]
        ensures { result.now ≡ (sink_content self.now).err }
    {
        self.err.as_slice()
    }

    /// The bytes of a file, or none where it is not there.
    pub fn file(&self, name: &str) -> Option<&[u8]>
        ensures { option_map (λ bytes. bytes.now) result ≡ (sink_content self.now).files name.now }
    {
        match self.files.get(name) {
            Some(bytes) => Some(bytes.as_slice()),
            None => None,
        }
    }

    /// How many files there are.
    pub fn file_count(&self) -> usize
        ensures { result ≡ file_count self.now }
    {
        self.files.len()
    }

    /// Makes a directory, before the call is counted.
    fn make_directory(&mut self, dir: &str) -> Result<bool, WriteError>
        ensures told { IfOk result (λ made. made ≡ not ((sink_content self.old).there dir.now)) }
        ensures made { Begins dir.now result (Some (sink_content self.old)) (Some (sink_content self.new)) }
        ensures tally { sink_tally self.new ≡ sink_tally self.old }
    {
        if self.calls.next_fails() {
            return Err(WriteError::Failed);
        }
        if self.directories.contains(dir) {
            return Ok(false);
        }
        let name = String::from_str(self.alloc, dir)?;
        self.directories.insert(name)?;
        self.files = BTreeMap::new(self.alloc);
        Ok(true)
    }

    /// Adds the front of a piece, before the call is counted.
    fn add_front(&mut self, target: &SinkTarget, piece: &[u8]) -> Result<usize, WriteError>
        ensures fits { IfOk result (λ n. n ≤ length piece.now) }
        ensures some { IfOk result (λ n. 0 < length piece.now → 0 < n) }
        ensures added { IfOk result (λ n. sink_content self.new ≡ add target.now (take n piece.now) (sink_content self.old)) }
        ensures err { OnErr result (sink_content self.new ≡ sink_content self.old) }
        ensures tally { sink_tally self.new ≡ sink_tally self.old }
    {
        if self.calls.next_fails() {
            return Err(WriteError::Failed);
        }
        let taken = piece.len().min(self.most.max(1));
        let (front, _) = piece.split_at(taken);
        match target {
            SinkTarget::Out => self.out.extend_from_slice(front)?,
            SinkTarget::Err => self.err.extend_from_slice(front)?,
            SinkTarget::File(name) => add_to_file(self.alloc, &mut self.files, name, front)?,
        }
        Ok(taken)
    }
}

/// Adds a piece to the end of a file, which is made where it was not there.
fn add_to_file(
    alloc: Global,
    files: &mut BTreeMap<String, Vec<u8>>,
    name: &Name,
    piece: &[u8],
) -> Result<(), NoMemory>
    ensures ok { OnOk result (files_of files.new ≡ add_to_file name.now piece.now (files_of files.old)) }
    ensures err { OnErr result (files_of files.new ≡ files_of files.old) }
{
    match files.get_mut(name.as_str()) {
        Some(bytes) => bytes.extend_from_slice(piece)?,
        None => {
            let key = String::from_str(alloc, name.as_str())?;
            let bytes = Vec::from_slice(alloc, piece)?;
            files.insert(key, bytes)?;
        }
    }
    Ok(())
}

impl Sink for MemSink {
    ghost use Rattle.std.specs.Prelude.{Some};
    ghost use Rattle.memory_outside.specs.MemSink.{sink_content, sink_tally};

    ghost content = { λ s. Some (sink_content s) };

    ghost tally = { λ s. sink_tally s };

    fn begin(&mut self, dir: &str) -> Result<bool, WriteError> {
        let answer = self.make_directory(dir);
        self.tally.count(&answer);
        answer
    }

    fn put(&mut self, target: &SinkTarget, piece: &[u8]) -> Result<usize, WriteError> {
        let answer = self.add_front(target, piece);
        self.tally.count(&answer);
        answer
    }
}
