//! The console and a directory of the machine, as a sink.

ghost use Rattle.std.specs.Prelude.{◌≡◌, ◌<◌, ◌≤◌, length, IfOk};

use run_outside::{Sink, SinkTarget, Tally, WriteError};
use std::alloc::Global;
use std::fs;
use std::fs::{Files, OpenOptions};
use std::io::{self, ErrorKind, Write};

/// So many files are kept open at most.
const MOST_OPEN: usize = 512;

/// A file of the directory that is open.
#[derive(Drop)]
struct OpenFile<F> {
    name: String,
    file: F,
}

/// Writes to two streams and to the files of a directory that it makes. It tells no bytes, and counts its calls.
#[derive(Drop)]
pub struct DiskSink<'a, R: Files, O, E> {
    files: &'a R,
    out: O,
    err: E,
    /// The directory that was begun, with a slash at its end.
    directory: String,
    /// The files that were opened since all were closed last, in the order of their names: they grow round by round.
    kept: Vec<OpenFile<R::File>>,
    tally: Tally,
}

/// Want of memory, or that the outside failed.
fn write_error(error: &io::Error) -> WriteError {
    if error.kind() == ErrorKind::OutOfMemory {
        WriteError::NoMemory
    } else {
        WriteError::Failed
    }
}

impl<'a, R: Files + AllocGlobal, O: Write, E: Write> DiskSink<'a, R, O, E> {
    pub fn new(files: &'a R, out: O, err: E) -> DiskSink<'a, R, O, E> {
        DiskSink {
            files,
            out,
            err,
            directory: String::new(files.alloc()),
            kept: Vec::new(files.alloc()),
            tally: Tally::new(),
        }
    }

    /// Opens a file to write at its end; it is made where it is not there.
    fn open_at_end(&self, path: &str) -> io::Result<R::File> {
        let mut options = OpenOptions::new();
        options.append(true).create(true);
        options.open(self.files, path)
    }

    /// The same, and its parents are made where they are not there.
    fn open_below(&self, path: &str) -> io::Result<R::File> {
        match self.open_at_end(path) {
            Err(error) if error.kind() == ErrorKind::NotFound => {
                if let Some((parent, _)) = path.rsplit_once('/') {
                    fs::create_dir_all(self.files, parent)?;
                }
                self.open_at_end(path)
            }
            opened => opened,
        }
    }

    /// Opens a file of the directory. Where the machine opens no more files, those that are open are closed first.
    fn open_file(&mut self, name: &str) -> io::Result<R::File>
        ensures tally { self.new.tally ≡ self.old.tally }
    {
        let directory = self.directory.as_str();
        let path = format!(in self.files.alloc(); "{directory}{name}")?;
        match self.open_below(path.as_str()) {
            Err(_) if !self.kept.is_empty() => {
                self.kept.clear();
                self.open_below(path.as_str())
            }
            opened => opened,
        }
    }

    /// Opens a file of the directory, and keeps it at a place among those that are open, or at their end; these are closed where
    /// they are too many.
    fn keep(&mut self, place: usize, name: &str) -> io::Result<usize>
        ensures place { IfOk result (λ place. place < length self.new.kept.items) }
        ensures tally { self.new.tally ≡ self.old.tally }
    {
        let file = self.open_file(name)?;
        let name = String::from_str(self.files.alloc(), name)?;
        if self.kept.len() >= MOST_OPEN {
            self.kept.clear();
        }
        let place = place.min(self.kept.len());
        self.kept.insert(place, OpenFile { name, file })?;
        Ok(place)
    }

    /// The place of a file of the directory among those that are open. Where it isn't open it is opened.
    fn opened(&mut self, name: &str) -> io::Result<usize>
        ensures place { IfOk result (λ place. place < length self.new.kept.items) }
        ensures tally { self.new.tally ≡ self.old.tally }
    {
        match self
            .kept
            .binary_search_by(|file| file.name.as_str().cmp(name))
        {
            Ok(place) => Ok(place),
            Err(place) => self.keep(place, name),
        }
    }

    /// Adds bytes to a file of the directory. Where there are none, the file is only made.
    fn put_file(&mut self, name: &str, piece: &[u8]) -> io::Result<usize>
        ensures fits { IfOk result (λ n. n ≤ length piece.now) }
        ensures tally { self.new.tally ≡ self.old.tally }
    {
        let place = self.opened(name)?;
        if piece.is_empty() {
            return Ok(0);
        }
        self.kept[place].file.write(piece)
    }

    fn put_some(&mut self, target: &SinkTarget, piece: &[u8]) -> io::Result<usize>
        ensures fits { IfOk result (λ n. n ≤ length piece.now) }
        ensures some { IfOk result (λ n. 0 < length piece.now → 0 < n) }
        ensures tally { self.new.tally ≡ self.old.tally }
    {
        let taken = match target {
            SinkTarget::Out => self.out.write(piece)?,
            SinkTarget::Err => self.err.write(piece)?,
            SinkTarget::File(name) => self.put_file(name.as_str(), piece)?,
        };
        if taken == 0 && !piece.is_empty() {
            return Err(io::Error::from(ErrorKind::WriteZero));
        }
        Ok(taken)
    }

    fn create(&self, dir: &str) -> io::Result<String> {
        let alloc: Global = self.files.alloc();
        let directory = format!(in alloc; "{dir}/")?;
        fs::create_dir(self.files, dir)?;
        Ok(directory)
    }

    /// Makes a directory, before the call is counted.
    fn make_directory(&mut self, dir: &str) -> Result<bool, WriteError>
        ensures tally { self.new.tally ≡ self.old.tally }
    {
        match self.create(dir) {
            Ok(directory) => {
                self.directory = directory;
                Ok(true)
            }
            Err(error) if error.kind() == ErrorKind::AlreadyExists => Ok(false),
            Err(error) => Err(write_error(&error)),
        }
    }

    /// Puts the front of a piece, before the call is counted.
    fn put_front(&mut self, target: &SinkTarget, piece: &[u8]) -> Result<usize, WriteError>
        ensures fits { IfOk result (λ n. n ≤ length piece.now) }
        ensures some { IfOk result (λ n. 0 < length piece.now → 0 < n) }
        ensures tally { self.new.tally ≡ self.old.tally }
    {
        match self.put_some(target, piece) {
            Ok(taken) => Ok(taken),
            Err(error) => Err(write_error(&error)),
        }
    }
}

impl<'a, R: Files + AllocGlobal, O: Write, E: Write> Sink for DiskSink<'a, R, O, E> {
    ghost use Rattle.std.specs.Prelude.{None};

    ghost content = { λ _. None };

    ghost tally = { λ s. s.tally };

    fn begin(&mut self, dir: &str) -> Result<bool, WriteError> {
        let answer = self.make_directory(dir);
        self.tally.count(&answer);
        answer
    }

    fn put(&mut self, target: &SinkTarget, piece: &[u8]) -> Result<usize, WriteError> {
        let answer = self.put_front(target, piece);
        self.tally.count(&answer);
        answer
    }
}
