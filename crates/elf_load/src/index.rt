//! The index of an image's pages: two levels, from a page's number to its place.

ghost use Rattle.std.specs.Prelude.{◌≡◌, ℕ, ◌+◌, ◌-◌, ◌*◌, ◌^◌, ◌<◌, ◌≤◌, None, Some, IfOk, OnOk, [], length, vec_len, slice_index, if◌then◌else◌, ◌==◌};
ghost use Rattle.std.proofs.Props.{props};
ghost use Rattle.elf_load.specs.inside.Tables.{AreTables, root_size, table_size, no_place};

use crate::page::Page;
use std::alloc::{AllocError, Global};

/// The entry of a page number that no page has.
const NO_PAGE: u16 = u16::MAX;

/// The table without pages, which all numbers have for which no other was made.
const BLANK: u16 = 0;

/// How many tables the numbers below 2^20 take, and how many entries a table has.
const TABLES: usize = 1024;

const TABLE_LEN: usize = 1024;

/// The place of each page by its number, below 2^20. The root has the table of each 1,024 numbers, and the tables stand
/// one behind another: first the blank one, then those that were needed.
#[derive(Drop)]
pub(crate) struct PageIndex {
    root: Vec<u16>,
    places: Vec<u16>,
    ghost sound: { AreTables root.items places.items } by { Prim.hlevel props },
}

impl PageIndex {
    ghost use Rattle.elf_load.specs.Places.{page_numbers};
    ghost use Rattle.elf_load.specs.inside.PageIndex.{place_in, Finds};

    /// The index of these pages: of pages with one number the first is found.
    pub fn of(alloc: Global, pages: &[Page]) -> Result<PageIndex, AllocError>
        requires { length pages.now < no_place }
        ensures { IfOk result (λ index. Finds index (page_numbers pages.now)) }
    {
        let mut index = PageIndex::new(alloc)?;
        for (place, page) in pages.iter().enumerate() {
            if index.find(page.number).is_none() {
                index.set(page.number, place as u16)?;
            }
        }
        Ok(index)
    }

    /// An index without pages.
    fn new(alloc: Global) -> Result<PageIndex, AllocError>
        ensures none { IfOk result (λ index. Finds index []) }
        ensures blank { IfOk result (λ index. vec_len index.places ≡ table_size) }
    {
        let mut root = Vec::new(alloc);
        root.resize(TABLES, BLANK)?;
        let mut places = Vec::new(alloc);
        places.resize(TABLE_LEN, NO_PAGE)?;
        Ok(PageIndex { root, places })
    }

    /// Notes the place of the page with this number.
    fn set(&mut self, number: u32, place: u16) -> Result<(), AllocError>
        requires in_range { number < 2 ^ 20 }
        requires is_place { place < no_place }
        requires few { vec_len self.old.places ≤ table_size * (2 ^ 16 - 1) }
        ensures set { OnOk result
            ((n : ℕ) → n < 2 ^ 20
            → place_in self.new n ≡ (if n == number then Some place else place_in self.old n)) }
        ensures len { OnOk result (vec_len self.new.places ≤ vec_len self.old.places + table_size) }
    {
        let table = self.own_table(number as usize / TABLE_LEN)?;
        self.places[table * TABLE_LEN + number as usize % TABLE_LEN] = place;
        Ok(())
    }

    /// The table at a place of the root, which is made where there is only the blank one.
    fn own_table(&mut self, at: usize) -> Result<usize, AllocError>
        requires in_root { at < root_size }
        requires few { vec_len self.old.places ≤ table_size * (2 ^ 16 - 1) }
        ensures table { IfOk result (λ table. slice_index self.new.root.items at ≡ table) }
        ensures own { IfOk result (λ table. 0 < table) }
        ensures same { OnOk result ((n : ℕ) → n < 2 ^ 20 → place_in self.new n ≡ place_in self.old n) }
        ensures len { OnOk result (vec_len self.new.places ≤ vec_len self.old.places + table_size) }
    {
        let table = self.root[at];
        if table != BLANK {
            return Ok(table as usize);
        }
        let table = self.places.len() / TABLE_LEN;
        self.places.resize((table + 1) * TABLE_LEN, NO_PAGE)?;
        self.root[at] = table as u16;
        Ok(table)
    }

    /// The place of the page with this number.
    #[inline]
    pub fn find(&self, number: u32) -> Option<usize>
        requires { number < 2 ^ 20 }
        ensures { result ≡ place_in self.now number }
    {
        let table = self.root[number as usize / TABLE_LEN] as usize;
        let place = self.places[table * TABLE_LEN + number as usize % TABLE_LEN] as usize;
        if place == NO_PAGE as usize {
            None
        } else {
            Some(place)
        }
    }
}
