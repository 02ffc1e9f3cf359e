//! What a host keeps, found by the pair of ends.

ghost use Rattle.std.specs.Prelude.{◌≡◌, IfOk, Option, None, Some, find};
ghost use Rattle.stream_pairs.specs.inside.Finding.{Finds, pair_of};

use host_sockets::HostStream;
use sim_base::{Addr, NoMemory};
use std::alloc::Global;
use std::collections::HashMap;

/// The own end and that of the peer.
#[derive(Clone, Copy, PartialEq, Eq, Hash)]
pub struct Pair {
    pub own: Addr,
    pub peer: Addr,
}

fn pair_of(stream: HostStream) -> Pair
    ensures { result ≡ pair_of stream }
{
    Pair {
        own: stream.own,
        peer: stream.peer,
    }
}

/// Finds what a host keeps of a pair: the first of several.
pub(crate) fn entries_of(
    alloc: Global,
    streams: &[HostStream],
) -> Result<HashMap<Pair, HostStream>, NoMemory>
    ensures { IfOk result (λ entries. Finds entries streams.now) }
{
    let mut entries = HashMap::new(alloc);
    let mut at = streams.len();
    while at > 0 {
        at -= 1;
        let stream = streams[at];
        let _ = entries.insert(pair_of(stream), stream)?;
    }
    Ok(entries)
}
