//! A source of one file.

ghost use Rattle.std.specs.Prelude.{◌≡◌, ◌≤◌, length};
ghost use Rattle.run_outside.specs.Source.{IsPiece};

use run_outside::{ReadError, Source};

/// A source that holds one file, which it tells. None of its calls fails.
#[derive(Drop)]
pub struct OneFile {
    pub name: &'static str,
    pub bytes: Vec<u8>,
}

/// Copies the bytes from the place `at` on, as many as there are and have room.
fn copy_piece(bytes: &[u8], at: u64, into: &mut [u8]) -> usize
    ensures fits { result ≤ length into.old }
    ensures piece { IsPiece bytes.now at result into.new }
{
    let start = (at as usize).min(bytes.len());
    let (_, rest) = bytes.split_at(start);
    let n = rest.len().min(into.len());
    into[..n].copy_from_slice(&rest[..n]);
    n
}

impl Source for OneFile {
    ghost use Rattle.std.specs.Prelude.{Some};
    ghost use Rattle.run_plan.specs.Ring.{one_file};

    ghost held = { λ s. Some (one_file s.name.now s.bytes.items) };

    ghost faults = { λ _. 0 };

    fn size(&mut self, name: &str) -> Result<Option<u64>, ReadError> {
        if self.name == name {
            Ok(Some(self.bytes.len() as u64))
        } else {
            Ok(None)
        }
    }

    fn read(&mut self, name: &str, at: u64, into: &mut [u8]) -> Result<usize, ReadError> {
        if self.name == name {
            Ok(copy_piece(self.bytes.as_slice(), at, into))
        } else {
            Ok(0)
        }
    }
}
