//! Bytes to their targets.

ghost use Rattle.std.specs.Prelude.{◌≡◌, map, option_map, OnOk, OnErr};
ghost use Rattle.run_outside.specs.Tally.{CountsWrites};
ghost use Rattle.run_files.specs.Files.{put_of};
ghost use Rattle.net_run.specs.Pieces.{with_pieces, PutsFront};

use run_files::Piece;
use run_outside::{Sink, WriteError, put_all};

/// Puts all pieces in order.
pub(crate) fn put_pieces<K: Sink>(sink: &mut K, pieces: &[Piece]) -> Result<(), WriteError>
    ensures ok { OnOk result (K.content sink.new ≡ option_map (with_pieces (map put_of pieces.now)) (K.content sink.old)) }

    // After an error some of the pieces were put, the last one perhaps in part.
    ensures err { OnErr result (PutsFront (map put_of pieces.now) (K.content sink.old) (K.content sink.new)) }
    ensures count { CountsWrites result (K.tally sink.old) (K.tally sink.new) }
{
    for piece in pieces {
        put_all(sink, &piece.target, piece.bytes.as_slice())?;
    }
    Ok(())
}
