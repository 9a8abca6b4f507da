//! Display ids by cell.
use jtext::{NoMemory, Text, Texts};
use std::alloc::Global;
use std::collections::BTreeMap;

/// The display ids that may have places in each cell.
#[derive(Drop)]
pub(crate) struct ByCell {
    alloc: Global,
    ids: BTreeMap<u32, Texts>,
}

impl ByCell {
    ghost use Rattle.std.specs.Prelude.{◌≡◌, ◌++◌, ◌∷◌, [], ◌==◌, ℕ, OnOk, OnErr, if◌then◌else◌};
    ghost use Rattle.display_index.specs.Listed.{ids_at};

    pub(crate) fn new(alloc: Global) -> ByCell
        ensures { (cell : ℕ) → ids_at result cell ≡ [] }
    {
        ByCell {
            alloc,
            ids: BTreeMap::new(alloc),
        }
    }

    /// Puts the id after those of the cell.
    pub(crate) fn add(&mut self, cell: u32, id: &Text) -> Result<(), NoMemory>
        ensures ok { OnOk result ((other : ℕ)
            → ids_at self.new other ≡ (if cell == other then ids_at self.old other ++ id.now ∷ []
            else ids_at self.old other)) }
        ensures err { OnErr result ((other : ℕ) → ids_at self.new other ≡ ids_at self.old other) }
    {
        let copy = Text::of(self.alloc, id.as_str())?;
        if let Some(ids) = self.ids.get_mut(&cell) {
            return ids.push(copy);
        }
        let alone = Texts::of_vec(vec![in self.alloc; copy]?);
        match self.ids.insert(cell, alone) {
            Ok(_) => Ok(()),
            Err(_) => Err(NoMemory),
        }
    }

    /// Takes out the ids of the cell.
    pub(crate) fn take(&mut self, cell: u32) -> Texts
        ensures ids { result ≡ ids_at self.old cell }
        ensures rest { (other : ℕ) → ids_at self.new other
            ≡ (if cell == other then [] else ids_at self.old other) }
    {
        match self.ids.remove(&cell) {
            Some(ids) => ids,
            None => Texts::new(self.alloc),
        }
    }
}
