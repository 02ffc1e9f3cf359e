//! The files that are read.

ghost use Rattle.std.specs.Prelude.{◌≡◌, ◌≤◌, take, IfSome, IfOk, IfErr};
ghost use Rattle.run_plan.specs.File.{size_of, reads, read, IsReadStop, max_file};
ghost use Rattle.run_plan.specs.Reading.{Meets, CountsSource};

use crate::fault::{Fault, ReadStop};
use base_texts::Name;
use run_outside::{ReadError, Source, read_all};
use std::alloc::Global;

/// The most bytes of a file.
const MOST_BYTES: u64 = 16_777_216;

/// The length of a file that is there and not too long. `told` is its name.
fn size_of_file<S: Source>(source: &mut S, told: Name) -> Result<(u64, Name), ReadStop>
    ensures told { IfSome (S.held source.old) (λ held. Meets (λ size. size.0) (reads told (size_of held told)) result) }
    ensures name { IfOk result (λ size. size.1 ≡ told) }
    ensures small { IfOk result (λ size. size.0 ≤ max_file) }
    ensures same { S.held source.new ≡ S.held source.old }
    ensures count { CountsSource result (S.faults source.old) (S.faults source.new) }
{
    match source.size(told.as_str()) {
        Ok(None) => Err(ReadStop::Refused(Fault::NotFound(told))),
        Ok(Some(size)) => {
            if size > MOST_BYTES {
                return Err(ReadStop::Refused(Fault::TooLong(told)));
            }
            Ok((size, told))
        }
        Err(ReadError::Failed) => Err(ReadStop::ReadFailed(told)),
        Err(ReadError::NoMemory) => Err(ReadStop::NoMemory),
    }
}

/// The bytes of a file of this length. `told` is its name.
fn bytes_of_file<S: Source>(
    alloc: Global,
    source: &mut S,
    size: u64,
    told: Name,
) -> Result<Vec<u8>, ReadStop>
    requires small { size ≤ max_file }
    ensures told { IfSome (S.held source.old)
        (λ held. IfOk result (λ read. IfSome (held told) (λ bytes. read.items ≡ take size bytes))) }
    ensures stop { IfErr result (IsReadStop told) }
    ensures same { S.held source.new ≡ S.held source.old }
    ensures count { CountsSource result (S.faults source.old) (S.faults source.new) }
{
    match read_all(alloc, source, told.as_str(), size as usize) {
        Ok(bytes) => Ok(bytes),
        Err(ReadError::Failed) => Err(ReadStop::ReadFailed(told)),
        Err(ReadError::NoMemory) => Err(ReadStop::NoMemory),
    }
}

/// The bytes of a file that is there and not too long.
pub fn read_file<S: Source>(alloc: Global, source: &mut S, name: &str) -> Result<Vec<u8>, ReadStop>
    ensures told { IfSome (S.held source.old) (λ held. Meets (λ bytes. bytes.items) (read held name.now) result) }
    ensures same { S.held source.new ≡ S.held source.old }
    ensures count { CountsSource result (S.faults source.old) (S.faults source.new) }
{
    let told = Name::from_str(alloc, name)?;
    let (size, told) = size_of_file(source, told)?;
    bytes_of_file(alloc, source, size, told)
}
