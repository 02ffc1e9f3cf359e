//! The files of the machine, and its standard input, as a source.

ghost use Rattle.std.specs.Prelude.{◌<◌, ◌≤◌, length, IfOk};

use run_outside::{ReadError, Source};
use std::alloc::Global;
use std::fs;
use std::fs::Files;
use std::io::{self, ErrorKind, Read, Seek, SeekFrom};

/// The name of standard input.
const INPUT: &str = "-";

/// One byte more than a file may have.
const MOST_BYTES: usize = 16_777_217;

/// Reads real files by their names, and standard input by the name `-`, whole when its size is
/// asked. It tells no bytes, and counts each failure but want of memory.
#[derive(Drop)]
pub struct DiskSource<'a, R, I> {
    files: &'a R,
    input: I,
    /// What standard input gave.
    given: Vec<u8>,
    faults: u64,
}

impl<'a, R: Files + AllocGlobal, I: Read> DiskSource<'a, R, I> {
    pub fn new(files: &'a R, input: I) -> DiskSource<'a, R, I> {
        let alloc: Global = files.alloc();
        DiskSource {
            files,
            input,
            given: Vec::new(alloc),
            faults: 0,
        }
    }

    fn read_some(&self, name: &str, at: u64, into: &mut [u8]) -> io::Result<usize>
        ensures fits { IfOk result (λ n. n ≤ length into.old) }
        ensures some { IfOk result (λ n. 0 < length into.old → 0 < n) }
    {
        if name == INPUT {
            return copy_from(&self.given, at, into);
        }
        read_at(self.files, name, at, into)
    }
}

/// Reads an input to its end, or to one byte more than a file may have, and tells how many bytes were given.
fn take_input<I: Read>(input: &mut I, given: &mut Vec<u8>) -> io::Result<u64> {
    let mut piece = [0; 4096];
    for _ in 0..MOST_BYTES {
        let taken = input.read(&mut piece)?;
        given.extend_from_slice(&piece[..taken])?;
        if taken == 0 || given.len() >= MOST_BYTES {
            break;
        }
    }
    Ok(given.len() as u64)
}

fn file_size<R: Files>(files: &R, name: &str) -> io::Result<u64> {
    Ok(fs::metadata(files, name)?.len())
}

/// Some bytes from a place on.
fn copy_from(bytes: &[u8], at: u64, into: &mut [u8]) -> io::Result<usize>
    ensures fits { IfOk result (λ n. n ≤ length into.old) }
    ensures some { IfOk result (λ n. 0 < length into.old → 0 < n) }
{
    let Some(rest) = bytes.get(at as usize..) else {
        return Err(io::Error::from(ErrorKind::UnexpectedEof));
    };
    let count = rest.len().min(into.len());
    if count == 0 && !into.is_empty() {
        return Err(io::Error::from(ErrorKind::UnexpectedEof));
    }
    into[..count].copy_from_slice(&rest[..count]);
    Ok(count)
}

/// Some bytes of a file from a place on.
fn read_at<R: Files>(files: &R, name: &str, at: u64, into: &mut [u8]) -> io::Result<usize>
    ensures fits { IfOk result (λ n. n ≤ length into.old) }
    ensures some { IfOk result (λ n. 0 < length into.old → 0 < n) }
{
    let mut file = fs::open(files, name)?;
    file.seek(SeekFrom::Start(at))?;
    let taken = file.read(into)?;
    if taken == 0 && !into.is_empty() {
        return Err(io::Error::from(ErrorKind::UnexpectedEof));
    }
    Ok(taken)
}

impl<'a, R: Files + AllocGlobal, I: Read> Source for DiskSource<'a, R, I> {
    ghost use Rattle.std.specs.Prelude.{None};

    ghost held = { λ _. None };

    ghost faults = { λ s. s.faults };

    fn size(&mut self, name: &str) -> Result<Option<u64>, ReadError> {
        let size = if name == INPUT {
            take_input(&mut self.input, &mut self.given)
        } else {
            file_size(self.files, name)
        };
        match size {
            Ok(size) => Ok(Some(size)),
            Err(error) if error.kind() == ErrorKind::NotFound => Ok(None),
            Err(error) if error.kind() == ErrorKind::OutOfMemory => Err(ReadError::NoMemory),
            Err(_) => {
                self.faults = self.faults.saturating_add(1);
                Err(ReadError::Failed)
            }
        }
    }

    fn read(&mut self, name: &str, at: u64, into: &mut [u8]) -> Result<usize, ReadError> {
        match self.read_some(name, at, into) {
            Ok(taken) => Ok(taken),
            Err(error) if error.kind() == ErrorKind::OutOfMemory => Err(ReadError::NoMemory),
            Err(_) => {
                self.faults = self.faults.saturating_add(1);
                Err(ReadError::Failed)
            }
        }
    }
}
