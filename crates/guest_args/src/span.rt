//! Spans of bytes.

ghost use Rattle.std.specs.Prelude.{◌≡◌, ◌≤◌, IfOk, IfSome, vec_len, option_map};
ghost use Rattle.guest_args.specs.Span as spec;

use guest_mem::{Bad, Mem};
use sim_base::NoMemory;
use std::alloc::Global;

/// The most bytes that a call moves.
const MOST: u32 = 65_536;

/// How many bytes a call moves that is asked for some.
pub fn counted(n: u32) -> usize
    ensures count { result ≡ spec.counted n }
    ensures most { result ≤ spec.most }
{
    n.min(MOST) as usize
}

/// The 4 bytes from an address on, where each may be read.
pub fn four(memory: &Mem, at: u32) -> Option<[u8; 4]>
    ensures { result ≡ spec.span 4 at memory.now }
{
    let mut into = [0; 4];
    match memory.copy_out(at, &mut into) {
        Ok(()) => Some(into),
        Err(Bad) => None,
    }
}

/// The 8 bytes from an address on, where each may be read.
pub fn eight(memory: &Mem, at: u32) -> Option<[u8; 8]>
    ensures { result ≡ spec.span 8 at memory.now }
{
    let mut into = [0; 8];
    match memory.copy_out(at, &mut into) {
        Ok(()) => Some(into),
        Err(Bad) => None,
    }
}

/// The 16 bytes from an address on, where each may be read.
pub fn sixteen(memory: &Mem, at: u32) -> Option<[u8; 16]>
    ensures { result ≡ spec.span 16 at memory.now }
{
    let mut into = [0; 16];
    match memory.copy_out(at, &mut into) {
        Ok(()) => Some(into),
        Err(Bad) => None,
    }
}

/// The 32 bytes from an address on, where each may be read.
pub fn thirty_two(memory: &Mem, at: u32) -> Option<[u8; 32]>
    ensures { result ≡ spec.span 32 at memory.now }
{
    let mut into = [0; 32];
    match memory.copy_out(at, &mut into) {
        Ok(()) => Some(into),
        Err(Bad) => None,
    }
}

/// The bytes of a span, where each may be read.
pub fn block(alloc: Global, memory: &Mem, at: u32, size: usize) -> Result<Option<Vec<u8>>, NoMemory>
    ensures bytes { IfOk result (λ found. option_map (λ bytes. bytes.items) found ≡ spec.span size at memory.now) }
    ensures length { IfOk result (λ found. IfSome found (λ bytes. vec_len bytes ≡ size)) }
{
    let mut into = vec![in alloc; 0; size]?;
    match memory.copy_out(at, into.as_mut_slice()) {
        Ok(()) => Ok(Some(into)),
        Err(Bad) => Ok(None),
    }
}

/// Writes bytes into a guest's memory. Where one can't be written, none is.
pub fn fill(memory: &mut Mem, at: u32, bytes: &[u8])
    ensures { memory.new ≡ spec.filled at bytes.now memory.old }
{
    match memory.copy_in(at, bytes) {
        Ok(()) => {}
        Err(Bad) => {}
    }
}
