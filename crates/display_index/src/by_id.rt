//! Places by display id.
ghost use Rattle.std.specs.Prelude.{◌≡◌, []};

use crate::place::{Place, Places, outside_of};
use indexmap::IndexMap;
use jtext::{NoMemory, Text};
use std::alloc::Global;
use std::mem;

/// The places of each display id, in the order of adding.
#[derive(Drop)]
pub(crate) struct ById {
    alloc: Global,
    none: Places,
    places: IndexMap<String, Places>,
    ghost unused: { none ≡ [] },
}

impl ById {
    ghost use Rattle.std.specs.Prelude.{◌≡◌, ◌++◌, ◌∷◌, [], List as Plain, ℕ, OnOk, OnErr, if◌then◌else◌};
    ghost use Rattle.std.specs.List.{list_any};
    ghost use Rattle.std.specs.Str.{bytes_eq};
    ghost use Rattle.display_index.specs.Listed.{places_at, outside};

    pub(crate) fn new(alloc: Global) -> ById
        ensures { (id : Plain ℕ) → places_at result id ≡ [] }
    {
        ById {
            alloc,
            none: Places::new(alloc),
            places: IndexMap::new(alloc),
        }
    }

    /// The places of the id.
    pub(crate) fn get(&self, id: &Text) -> &Places
        ensures { result.now ≡ places_at self.now id.now }
    {
        match self.places.get(id.as_str()) {
            Some(places) => places,
            None => &self.none,
        }
    }

    /// Puts a place after those of the id.
    pub(crate) fn add(&mut self, id: &Text, place: Place) -> Result<(), NoMemory>
        ensures ok { OnOk result ((other : Plain ℕ)
            → places_at self.new other ≡ (if bytes_eq id.now other then places_at self.old other ++
            place ∷ [] else places_at self.old other)) }
        ensures err { OnErr result ((other : Plain ℕ)
            → places_at self.new other ≡ places_at self.old other) }
    {
        if let Some(places) = self.places.get_mut(id.as_str()) {
            return places.push(place);
        }
        let key = String::from_str(self.alloc, id.as_str())?;
        let places = Places::of_vec(vec![in self.alloc; place]?);
        match self.places.insert(key, places) {
            Ok(_) => Ok(()),
            Err(_) => Err(NoMemory),
        }
    }

    /// Takes out the places that the id has in the cell.
    pub(crate) fn clear(&mut self, id: &Text, cell: u32)
        ensures { (other : Plain ℕ) → places_at self.new other
            ≡ (if bytes_eq id.now other then outside cell
            (places_at self.old other) else places_at self.old other) }
    {
        let empty = Places::new(self.alloc);
        if let Some(places) = self.places.get_mut(id.as_str()) {
            let all = mem::replace(places, empty);
            *places = outside_of(all, cell);
        }
    }
}
