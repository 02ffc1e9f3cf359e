//! Copies of the text that a connection sends.

ghost use Rattle.std.specs.Prelude.{◌≡◌, ◌+◌, ◌≤◌, ◌++◌, take, drop, length, IfOk};

use sim_base::{Bytes, NoMemory};
use std::alloc::Global;

/// A copy of `count` bytes from place `at` on, of two slices that follow one another.
pub(crate) fn copy_part(
    alloc: Global,
    front: &[u8],
    back: &[u8],
    at: usize,
    count: usize,
) -> Result<Bytes, NoMemory>
    requires { at + count ≤ length front.now + length back.now }
    ensures { IfOk result (λ text. text ≡ take count (drop at (front.now ++ back.now))) }
{
    let first = &front[at.min(front.len())..];
    let from_first = count.min(first.len());
    let second = &back[at.saturating_sub(front.len())..];
    let mut text = Vec::with_capacity(alloc, count)?;
    text.extend_from_slice(&first[..from_first])?;
    text.extend_from_slice(&second[..count - from_first])?;
    Ok(Bytes::from(text))
}
