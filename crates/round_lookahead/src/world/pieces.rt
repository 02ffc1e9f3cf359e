//! What a round of the world gains.

use crate::world::took::Took;
use run_files::Piece;

/// What a round gained: the targets and bytes that what processes wrote and the packet log gained,
/// in order; and the hosts that each worker took, in order.
#[derive(Drop)]
pub struct Pieces {
    pub files: Vec<Piece>,
    pub took: Took,
}
