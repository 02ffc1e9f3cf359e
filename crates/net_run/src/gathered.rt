//! Pieces that are kept until they are worth a call of the outside.

ghost use Rattle.std.specs.Prelude.{◌≡◌, ◌++◌, ◌<◌, ◌+◌, [], ◌∷◌, ℕ, List, true, false, drop, length, map, option_map, slice_index_or, IfSome, OnErr, OnOk};
ghost use Rattle.run_outside.specs.Sink.{Content};
ghost use Rattle.run_outside.specs.Tally.{CountsWrites};
ghost use Rattle.run_outside.specs.declared.sink.SinkTarget.TheVariants as target;
ghost use Rattle.run_files.specs.Files.{Put, put_of};
ghost use Rattle.run_files.specs.declared.piece.Piece.{Piece};
ghost use Rattle.net_run.specs.Pieces.{with_pieces, ArePutOrLeft, PutsFront};
ghost use Rattle.net_run.specs.Targets.{is_target, is_touched};
ghost use Rattle.net_run.specs.inside.Gathered.{AreLast, slot_of};

use crate::output::put_pieces;
use run_files::Piece;
use run_outside::{Sink, SinkTarget, WriteError};
use sim_base::NoMemory;
use std::alloc::Global;
use std::marker::Model;

/// So many pieces are many.
const MANY: usize = 4096;

/// And so many bytes.
const MANY_BYTES: usize = 1_048_576;

/// So many slots have the places of last pieces. Files may share one: then pieces for them don't all stand together.
const SLOTS: usize = 16_384;

/// The slot of a file by its name.
fn slot_of(name: &str) -> usize
    ensures { result ≡ slot_of name.now }
{
    let hash = name.as_bytes().iter().fold(0, |hash: u32, byte| {
        hash.wrapping_mul(31).wrapping_add(u32::from(*byte))
    });
    hash as usize % SLOTS
}

/// Whether the target is this file.
fn is_file(at: &SinkTarget, name: &str) -> bool
    ensures { result ≡ is_target at.now (target.File name.now) }
{
    match at {
        SinkTarget::File(other) => other.as_str() == name,
        SinkTarget::Out | SinkTarget::Err => false,
    }
}

/// The place of the last piece for a file, where the file's slot has it.
fn last_place(pieces: &[Piece], slots: &[usize], name: &str) -> Option<usize>
    requires { AreLast (map put_of pieces.now) slots.now }
    ensures within { IfSome result (λ place. place < length pieces.now) }
    ensures here { IfSome result (λ place. (d : Piece) → is_target (slice_index_or pieces.now place d).target (target.File name.now) ≡ true) }
    ensures last { IfSome result (λ place. is_touched (target.File name.now) (drop (place + 1) (map put_of pieces.now)) ≡ false) }
{
    let slot = slot_of(name);
    if slot >= slots.len() {
        return None;
    }
    let place = slots[slot];
    if place < pieces.len() && is_file(&pieces[place].target, name) {
        return Some(place);
    }
    None
}

/// The same for a target: pieces for files alone stand together.
fn place_for(pieces: &[Piece], slots: &[usize], at: &SinkTarget) -> Option<usize>
    requires { AreLast (map put_of pieces.now) slots.now }
    ensures within { IfSome result (λ place. place < length pieces.now) }
    ensures here { IfSome result (λ place. (d : Piece) → is_target (slice_index_or pieces.now place d).target at.now ≡ true) }
    ensures last { IfSome result (λ place. is_touched at.now (drop (place + 1) (map put_of pieces.now)) ≡ false) }
{
    match at {
        SinkTarget::File(name) => last_place(pieces, slots, name.as_str()),
        SinkTarget::Out | SinkTarget::Err => None,
    }
}

/// The piece at this place is the last one for its target, where that is a file.
fn keep_place(slots: &mut Vec<usize>, at: &SinkTarget, place: usize)
    ensures { (puts : List Put) (bytes : List ℕ) → length puts ≡ place → AreLast puts slots.old.items → AreLast (puts ++ (at.now, bytes) ∷ []) slots.new.items }
{
    match at {
        SinkTarget::File(name) => {
            let slot = slot_of(name.as_str());
            if slot < slots.len() {
                slots[slot] = place;
            }
        }
        SinkTarget::Out | SinkTarget::Err => {}
    }
}

/// Adds a piece behind all.
fn push_piece(pieces: &mut Vec<Piece>, slots: &mut Vec<usize>, piece: Piece) -> Result<(), NoMemory>
    requires { AreLast (map put_of pieces.old.items) slots.old.items }
    ensures pushed { OnOk result (pieces.new.items ≡ pieces.old.items ++ piece ∷ []) }
    ensures last { AreLast (map put_of pieces.new.items) slots.new.items }
{
    let place = pieces.len();
    pieces.reserve(1)?;
    keep_place(slots, &piece.target, place);
    pieces.push_reserved(piece);
    Ok(())
}

/// Adds a piece: at the end of the last one for the same file, where that is known, and else behind all.
fn add_piece(pieces: &mut Vec<Piece>, slots: &mut Vec<usize>, piece: Piece) -> Result<(), NoMemory>
    requires { AreLast (map put_of pieces.old.items) slots.old.items }
    ensures whole { OnOk result ((c : Content) → with_pieces (map put_of pieces.new.items) c ≡ with_pieces (map put_of pieces.old.items ++ put_of piece ∷ []) c) }
    ensures last { AreLast (map put_of pieces.new.items) slots.new.items }
{
    match place_for(pieces.as_slice(), slots.as_slice(), &piece.target) {
        Some(place) => {
            pieces[place]
                .bytes
                .extend_from_slice(piece.bytes.as_slice())?;
            Ok(())
        }
        None => push_piece(pieces, slots, piece),
    }
}

/// Pieces that are not put yet, and how many bytes they have. Those for one file stand together, but for files that share a slot, so
/// that they are put by one call.
pub struct Gathered {
    pieces: Vec<Piece>,
    slots: Vec<usize>,
    bytes: usize,
}

/// By hand: a derived one would be proved anew in each crate that drops such a value.
impl Drop for Gathered {
    fn drop(self) {
        let Gathered {
            pieces,
            slots,
            bytes: _,
        } = self;
        drop(pieces);
        drop(slots);
    }
}

impl Model for Gathered {
    ghost use Rattle.std.specs.Prelude.{List, map};
    ghost use Rattle.run_files.specs.Files.{Put, put_of};

    ghost Value = { List Put };

    ghost use Rattle.net_run.specs.inside.Gathered.{AreLast};

    ghost view = { λ g. map put_of g.pieces.items };

    ghost invariant = { λ g. AreLast (map put_of g.pieces.items) g.slots.items };
}

impl Gathered {
    /// No pieces yet.
    pub fn new(alloc: Global) -> Gathered
        ensures { result ≡ [] }
    {
        Gathered {
            pieces: Vec::new(alloc),
            slots: Vec::new(alloc),
            bytes: 0,
        }
    }

    /// Makes the slots, where there are none.
    fn open(&mut self, alloc: Global) -> Result<(), NoMemory>
        ensures { self.new ≡ self.old }
    {
        if self.slots.is_empty() && self.pieces.is_empty() {
            self.slots = vec![in alloc; 0; SLOTS]?;
        }
        Ok(())
    }

    /// Adds pieces behind those that are there.
    pub fn add(&mut self, alloc: Global, more: Vec<Piece>) -> Result<(), NoMemory>
        ensures { OnOk result ((c : Content) → with_pieces self.new c ≡ with_pieces (map put_of more.items) (with_pieces self.old c)) }
    {
        self.open(alloc)?;
        for piece in more {
            self.bytes = self.bytes.saturating_add(piece.bytes.len());
            add_piece(&mut self.pieces, &mut self.slots, piece)?;
        }
        Ok(())
    }

    /// Puts all pieces.
    pub fn put<K: Sink>(&mut self, sink: &mut K) -> Result<(), WriteError>
        ensures ok { OnOk result (K.content sink.new ≡ option_map (with_pieces self.old) (K.content sink.old)) }
        ensures none { OnOk result (self.new ≡ []) }
        ensures err { OnErr result (PutsFront self.old (K.content sink.old) (K.content sink.new)) }
        ensures count { CountsWrites result (K.tally sink.old) (K.tally sink.new) }
    {
        put_pieces(sink, self.pieces.as_slice())?;
        self.pieces.clear();
        self.bytes = 0;
        Ok(())
    }

    /// Puts all pieces where they are many, or where the caller finds them worth it.
    pub fn put_if_worth<K: Sink>(&mut self, sink: &mut K, is_worth: bool) -> Result<(), WriteError>
        ensures ok { OnOk result (ArePutOrLeft self.old self.new (K.content sink.old) (K.content sink.new)) }
        ensures err { OnErr result (PutsFront self.old (K.content sink.old) (K.content sink.new)) }
        ensures count { CountsWrites result (K.tally sink.old) (K.tally sink.new) }
    {
        if is_worth || self.bytes >= MANY_BYTES || self.pieces.len() >= MANY {
            self.put(sink)?;
        }
        Ok(())
    }
}
