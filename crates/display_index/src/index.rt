//! The index.
ghost use Rattle.std.specs.Prelude.{◌≡◌, true, List as Plain, ℕ, ◌==◌, ◌⊎◌, OnOk, if◌then◌else◌};
ghost use Rattle.std.specs.List.{list_any};
ghost use Rattle.std.specs.Str.{bytes_eq};
ghost use Rattle.display_index.specs.declared.place.Place.{Place};
ghost use Rattle.display_index.specs.Listed.{AreListed, is_listed, ids_at, places_at, outside};

use crate::by_cell::ByCell;
use crate::by_id::ById;
use crate::place::{Place, Places, last_is_in};
use jtext::{NoMemory, Text, Texts};
use std::alloc::Global;

/// Where the outputs of each display id stand. Places that were added and not cleared are found by
/// their id; a cell is cleared by its own ids, whatever others have.
#[derive(Drop)]
pub struct Index {
    by_id: ById,
    by_cell: ByCell,
    ghost listed: { AreListed by_cell by_id },
}

impl Index {
    ghost use Rattle.std.specs.Prelude.{◌≡◌, List as Plain, [], ◌∷◌, ◌++◌, OnOk, OnErr};
    ghost use Rattle.display_index.specs.Standing.{Call, standing};
    ghost use Rattle.display_index.specs.Standing.Call.{added, cleared};
    ghost use Rattle.display_index.specs.Held.{StandsFor};

    /// The index of no place. It takes no memory.
    pub fn new(alloc: Global) -> Index
        ensures { StandsFor result [] }
    {
        Index {
            by_id: ById::new(alloc),
            by_cell: ByCell::new(alloc),
        }
    }

    /// Adds a place for the id, after those that it has. Without memory nothing changes.
    pub fn add(&mut self, id: &Text, place: Place) -> Result<(), NoMemory>
        ensures ok { OnOk result ((calls : Plain Call) → StandsFor self.old calls
            → StandsFor self.new (calls ++ added id.now place ∷ [])) }
        ensures err { OnErr result ((calls : Plain Call) → StandsFor self.old calls
            → StandsFor self.new calls) }
    {
        list_id(&mut self.by_cell, self.by_id.get(id), id, place.cell)?;
        self.by_id.add(id, place)
    }

    /// Takes out the places in the cell. The cost goes with the places of the ids that have one
    /// there.
    pub fn clear(&mut self, cell: u32)
        ensures { (calls : Plain Call) → StandsFor self.old calls
            → StandsFor self.new (calls ++ cleared cell ∷ []) }
    {
        let ids = self.by_cell.take(cell);
        clear_all(&mut self.by_id, &ids, cell);
    }

    /// The places that were added for the id and not cleared, in the order of adding.
    pub fn places(&self, id: &Text) -> &Places
        ensures { (calls : Plain Call) → StandsFor self.now calls
            → result.now ≡ standing id.now calls }
    {
        self.by_id.get(id)
    }
}

/// Makes sure that the id is held for the cell, where its last place isn't in the cell already.
fn list_id(by_cell: &mut ByCell, places: &Places, id: &Text, cell: u32) -> Result<(), NoMemory>
    ensures keeps { (other : Plain ℕ) (p : Place) → is_listed by_cell.old other p ≡ true
        → is_listed by_cell.new other p ≡ true }
    ensures lists { OnOk result ((list_any (λ p. p.cell == cell) places.now
        ≡ true) ⊎ (list_any (λ other. bytes_eq other id.now) (ids_at by_cell.new cell) ≡ true)) }
{
    if last_is_in(places, cell) {
        Ok(())
    } else {
        by_cell.add(cell, id)
    }
}

/// Takes out the places that each of the ids has in the cell.
fn clear_all(by_id: &mut ById, ids: &Texts, cell: u32)
    ensures { (other : Plain ℕ) → places_at by_id.new other
        ≡ (if list_any (λ id. bytes_eq id other) ids.now
        then outside cell (places_at by_id.old other) else places_at by_id.old other) }
{
    for id in ids.as_slice() {
        by_id.clear(id, cell);
    }
}
