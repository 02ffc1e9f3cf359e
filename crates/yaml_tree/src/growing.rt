//! The entries of a mapping that is still open.

ghost use Rattle.std.specs.Prelude.{◌≡◌, ◌==◌, ◌↔◌, [], OnOk, IfOk, IsTrue};
ghost use Rattle.std.specs.List.{list_any};
ghost use Rattle.std.specs.Cmp.Lexicographic.{pointwise};
ghost use Rattle.indexmap.specs.IndexMap.{insert_all};
ghost use Rattle.yaml_tree.specs.Entries.{has_key, with_entry};
ghost use Rattle.yaml_tree.specs.inside.Rows.{entries_of};

use crate::entries::{Child, Entries};
use crate::hashing::Hashing;
use std::alloc::{AllocError, Global};
use std::marker::Model;
use yaml_tokens::Scalar;

/// So many rows are kept without a table.
const MOST_ROWS: usize = 8;

/// What is kept of entries.
#[derive(Drop)]
pub(crate) enum Rows {
    /// A few rows as they came, also where a key came twice.
    Few(Vec<(Scalar, Child)>),
    Many(Box<Entries>),
}

/// The entries of a mapping that is still open, which contracts see as a list of pairs. A line may
/// open millions of mappings, so that few words are kept of a small one.
#[derive(Drop)]
pub(crate) struct Growing {
    rows: Rows,
}

impl Model for Growing {
    ghost use Rattle.std.specs.Prelude.{List, ℕ};
    ghost use Rattle.yaml_tree.specs.declared.entries.Child.{Child};

    ghost Value = { List (List ℕ × Child) };

    ghost use Rattle.yaml_tree.specs.inside.Rows.{entries_of};

    ghost view = { λ g. entries_of g.rows };
}

impl Growing {
    pub fn new(alloc: Global) -> Growing
        ensures { result ≡ [] }
    {
        Growing {
            rows: Rows::Few(Vec::new(alloc)),
        }
    }

    pub fn is_empty(&self) -> bool
        ensures { IsTrue result ↔ self.now ≡ [] }
    {
        match &self.rows {
            Rows::Few(rows) => rows.is_empty(),
            Rows::Many(entries) => entries.is_empty(),
        }
    }

    #[tactic(auto, using(crate::proofs::GrowingLaws::key_of_rows))]
    pub fn contains(&self, key: &Scalar) -> bool
        ensures { result ≡ has_key key.now self.now }
    {
        match &self.rows {
            Rows::Few(rows) => is_among(key, rows),
            Rows::Many(entries) => entries.contains(key),
        }
    }

    /// The same with an entry more.
    pub fn with(
        self,
        alloc: Global,
        hashing: &Hashing,
        key: Scalar,
        child: Child,
    ) -> Result<Growing, AllocError>
        ensures { IfOk result (λ grown. grown ≡ with_entry self key child) }
    {
        let Growing { rows } = self;
        let rows = match rows {
            Rows::Few(few) => with_row(alloc, hashing, few, key, child)?,
            Rows::Many(entries) => Rows::Many(with_child(entries, key, child)?),
        };
        Ok(Growing { rows })
    }

    /// The entries of a mapping that is whole.
    pub fn into_entries(self, alloc: Global, hashing: &Hashing) -> Result<Entries, AllocError>
        ensures { IfOk result (λ entries. entries ≡ self) }
    {
        let Growing { rows } = self;
        match rows {
            Rows::Few(few) => from_rows(alloc, hashing, few),
            Rows::Many(entries) => Ok(Box::into_inner(entries)),
        }
    }
}

/// Whether one of the rows has this key.
fn is_among(key: &Scalar, rows: &[(Scalar, Child)]) -> bool
    ensures { result ≡ list_any (λ row. pointwise ◌==◌ key.now row.0) rows.now }
{
    for row in rows {
        if *key == row.0 {
            return true;
        }
    }
    false
}

/// Puts each row in turn into entries.
fn from_rows(
    alloc: Global,
    hashing: &Hashing,
    rows: Vec<(Scalar, Child)>,
) -> Result<Entries, AllocError>
    ensures { IfOk result (λ entries. entries ≡ insert_all (pointwise ◌==◌) [] rows.items) }
{
    let mut entries = Entries::new(alloc, hashing)?;
    for (key, child) in rows {
        entries.insert(key, child)?;
    }
    Ok(entries)
}

/// Few rows with one more, which go into a table where they are many.
#[tactic(auto, using(crate::proofs::GrowingLaws::one_row_more))]
fn with_row(
    alloc: Global,
    hashing: &Hashing,
    few: Vec<(Scalar, Child)>,
    key: Scalar,
    child: Child,
) -> Result<Rows, AllocError>
    ensures { IfOk result (λ rows. entries_of rows ≡ with_entry (insert_all (pointwise ◌==◌) [] few.items) key child) }
{
    let mut few = few;
    if few.len() < MOST_ROWS {
        few.reserve_exact(1)?;
        few.push((key, child))?;
        return Ok(Rows::Few(few));
    }
    let mut entries = from_rows(alloc, hashing, few)?;
    entries.insert(key, child)?;
    Ok(Rows::Many(Box::new(alloc, entries)?))
}

fn with_child(entries: Box<Entries>, key: Scalar, child: Child) -> Result<Box<Entries>, AllocError>
    ensures { IfOk result (λ grown. grown.value ≡ with_entry entries.value key child) }
{
    let mut entries = entries;
    entries.insert(key, child)?;
    Ok(entries)
}
