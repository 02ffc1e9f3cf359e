//! What is kept of a text.

ghost use Rattle.std.specs.Prelude.{◌≡◌, ◌≤◌, Some, length, take, IfOk};
ghost use Rattle.yaml_tokens.specs.inside.Kept.{bytes_of, text_of};

use std::alloc::{AllocError, Global};

/// A text of at most so many bytes takes no memory of its own.
const MOST_SHORT: usize = 14;

/// A text in UTF-8, or none. Two words are kept of it, since a line may have millions of short texts.
#[derive(Drop)]
pub(crate) enum Kept {
    Nothing,
    /// So many of the bytes.
    Short(u8, [u8; 14]),
    Long(Box<Vec<u8>>),
}

impl Kept {
    fn short(bytes: &[u8]) -> Kept
        requires { length bytes.now ≤ MOST_SHORT }
        ensures { text_of result ≡ Some bytes.now }
    {
        let len = bytes.len();
        let mut front = [0; 14];
        front[..len].copy_from_slice(bytes);
        Kept::Short(len as u8, front)
    }

    pub fn from_slice(alloc: Global, bytes: &[u8]) -> Result<Kept, AllocError>
        ensures { IfOk result (λ kept. text_of kept ≡ Some bytes.now) }
    {
        if bytes.len() <= MOST_SHORT {
            return Ok(Kept::short(bytes));
        }
        let copied = Vec::from_slice(alloc, bytes)?;
        Ok(Kept::Long(Box::new(alloc, copied)?))
    }

    /// Keeps bytes without a copy, unless they are few.
    pub fn from_vec(bytes: Vec<u8>) -> Result<Kept, AllocError>
        ensures { IfOk result (λ kept. text_of kept ≡ Some bytes.items) }
    {
        if bytes.len() <= MOST_SHORT {
            return Ok(Kept::short(bytes.as_slice()));
        }
        let alloc = *bytes.allocator();
        Ok(Kept::Long(Box::new(alloc, bytes)?))
    }

    /// The bytes, of which nothing has none.
    pub fn as_slice(&self) -> &[u8]
        ensures { result.now ≡ bytes_of self.now }
    {
        match self {
            Kept::Nothing => &[],
            Kept::Short(len, bytes) => front(bytes, *len as usize),
            Kept::Long(bytes) => bytes.as_slice(),
        }
    }

    /// The same once more.
    pub fn again(&self) -> Result<Kept, AllocError>
        ensures { IfOk result (λ kept. text_of kept ≡ text_of self.now) }
    {
        match self {
            Kept::Nothing => Ok(Kept::Nothing),
            Kept::Short(len, bytes) => Ok(Kept::Short(*len, *bytes)),
            Kept::Long(bytes) => Kept::from_slice(*bytes.allocator(), bytes.as_slice()),
        }
    }

    /// The same as a text: the empty one where there was none.
    pub fn or_empty(self) -> Kept
        ensures { text_of result ≡ Some (bytes_of self) }
    {
        match self {
            Kept::Nothing => Kept::Short(0, [0; 14]),
            kept => kept,
        }
    }
}

/// So many bytes at the front, as far as there are any.
fn front(bytes: &[u8], len: usize) -> &[u8]
    ensures { result.now ≡ take len bytes.now }
{
    if len < bytes.len() {
        &bytes[..len]
    } else {
        bytes
    }
}
