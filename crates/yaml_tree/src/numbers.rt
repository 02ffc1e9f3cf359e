//! The items of a sequence.

ghost use Rattle.std.specs.Prelude.{◌≡◌, ◌++◌, ◌∷◌, ◌↔◌, List, ℕ, [], take, IsTrue, IfOk};
ghost use Rattle.yaml_tree.specs.inside.Numbers.{numbers_of};

use std::alloc::{AllocError, Global};
use std::marker::Model;

/// So many numbers take no memory of their own.
const MOST_FEW: usize = 3;

/// What is kept of numbers. Two words are kept of a few, since a line may have millions of sequences
/// that have a few items.
#[derive(Drop)]
pub(crate) enum Kept {
    /// So many of the numbers.
    Few(u8, [u32; 3]),
    Many(Box<Vec<u32>>),
}

/// The numbers of the items' nodes, in order, which contracts see as a list.
#[derive(Drop)]
pub struct Numbers {
    kept: Kept,
}

impl Model for Numbers {
    ghost Value = { List ℕ };

    ghost view = { λ n. numbers_of n.kept };
}

impl Numbers {
    pub fn new() -> Numbers
        ensures { result ≡ [] }
    {
        Numbers {
            kept: Kept::Few(0, [0; 3]),
        }
    }

    pub(crate) fn is_empty(&self) -> bool
        ensures { IsTrue result ↔ self.now ≡ [] }
    {
        self.as_slice().is_empty()
    }

    /// The same with a number more.
    pub(crate) fn with(self, alloc: Global, number: u32) -> Result<Numbers, AllocError>
        ensures { IfOk result (λ grown. grown ≡ self ++ number ∷ []) }
    {
        let Numbers { kept } = self;
        let kept = match kept {
            Kept::Few(count, few) => with_few(alloc, count, few, number)?,
            Kept::Many(many) => Kept::Many(with_many(many, number)?),
        };
        Ok(Numbers { kept })
    }

    pub fn as_slice(&self) -> &[u32]
        ensures { result.now ≡ self.now }
    {
        match &self.kept {
            Kept::Few(count, few) => front(few, *count as usize),
            Kept::Many(many) => many.as_slice(),
        }
    }
}

/// So many numbers at the front, as far as there are any.
fn front(numbers: &[u32], count: usize) -> &[u32]
    ensures { result.now ≡ take count numbers.now }
{
    if count < numbers.len() {
        &numbers[..count]
    } else {
        numbers
    }
}

/// Few numbers with one more, which go into a vector where they are many.
fn with_few(alloc: Global, count: u8, few: [u32; 3], number: u32) -> Result<Kept, AllocError>
    ensures { IfOk result (λ kept. numbers_of kept ≡ take count few ++ number ∷ []) }
{
    let end = count as usize;
    if end < MOST_FEW {
        let mut few = few;
        few[end] = number;
        return Ok(Kept::Few(count + 1, few));
    }
    let mut many = Vec::from_slice(alloc, &few)?;
    many.push(number)?;
    Ok(Kept::Many(Box::new(alloc, many)?))
}

fn with_many(many: Box<Vec<u32>>, number: u32) -> Result<Box<Vec<u32>>, AllocError>
    ensures { IfOk result (λ grown. grown.value.items ≡ many.value.items ++ number ∷ []) }
{
    let mut many = many;
    many.push(number)?;
    Ok(many)
}
