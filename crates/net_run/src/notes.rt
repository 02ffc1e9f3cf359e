//! The notes of a configuration.

ghost use Rattle.std.specs.Prelude.{◌≡◌, ◌∷◌, ◌++◌, [], IfOk, OnOk, OnErr, map, option_map};
ghost use Rattle.run_outside.specs.Tally.{CountsWrites};
ghost use Rattle.run_files.specs.Files.{put_of};
ghost use Rattle.net_run.specs.Pieces.{with_pieces, PutsFront};
ghost use Rattle.net_run.specs.Shown.{note_puts};

use crate::output::put_pieces;
use base_texts::Text;
use run_files::Piece;
use run_outside::{Sink, SinkTarget, WriteError};
use sim_base::{Bytes, NoMemory};
use std::alloc::Global;

/// The line of a key without effect, behind other pieces.
fn push_note(alloc: Global, pieces: &mut Vec<Piece>, note: &Text) -> Result<(), NoMemory>
    ensures { OnOk result (map put_of pieces.new.items ≡ map put_of pieces.old.items ++ note_puts (note.now ∷ [])) }
{
    let mut line = Text::new(alloc);
    out_text::note_line(alloc, &mut line, note.as_str())?;
    pieces.push(Piece {
        target: SinkTarget::Err,
        bytes: Bytes::from(line.into_string().into_bytes()),
    })?;
    Ok(())
}

/// The line of each key without effect.
fn note_pieces(alloc: Global, notes: &[Text]) -> Result<Vec<Piece>, NoMemory>
    ensures { IfOk result (λ pieces. map put_of pieces.items ≡ note_puts notes.now) }
{
    let mut pieces = Vec::new(alloc);
    for note in notes {
        push_note(alloc, &mut pieces, note)?;
    }
    Ok(pieces)
}

/// Puts the line of each key without effect on the error stream.
pub fn put_notes<K: Sink>(alloc: Global, sink: &mut K, notes: &[Text]) -> Result<(), WriteError>
    ensures ok { OnOk result (K.content sink.new ≡ option_map (with_pieces (note_puts notes.now)) (K.content sink.old)) }
    ensures err { OnErr result (PutsFront (note_puts notes.now) (K.content sink.old) (K.content sink.new)) }
    ensures count { CountsWrites result (K.tally sink.old) (K.tally sink.new) }
{
    let pieces = match note_pieces(alloc, notes) {
        Ok(pieces) => pieces,
        Err(NoMemory) => return Err(WriteError::NoMemory),
    };
    put_pieces(sink, &pieces)?;
    Ok(())
}
