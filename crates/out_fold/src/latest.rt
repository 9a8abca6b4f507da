//! What the display ids show.
use jtext::{Fields, Json, NoMemory, Text};
use std::alloc::Global;
use std::collections::BTreeMap;

/// What is shown under a display id.
#[derive(Debug, Drop)]
pub struct Data {
    /// The data by MIME type.
    pub bundle: Fields,
    /// The metadata, an object.
    pub metadata: Json,
}

/// The data that were shown last under each display id.
#[derive(Drop)]
pub(crate) struct Latest {
    data: BTreeMap<String, Data>,
}

impl Latest {
    ghost use Rattle.std.specs.Prelude.{◌≡◌, List, ℕ, None, Some, IsSome, OnOk, OnErr, if◌then◌else◌};
    ghost use Rattle.std.specs.Option.{option_copied};
    ghost use Rattle.std.specs.Str.{bytes_eq};
    ghost use Rattle.out_fold.specs.Held.{data_of, Keeps};

    /// Nothing was shown yet. It takes no memory.
    pub(crate) fn new(alloc: Global) -> Latest
        ensures { (id : List ℕ) → data_of result id ≡ None }
    {
        Latest {
            data: BTreeMap::new(alloc),
        }
    }

    /// What is known of a display id.
    pub(crate) fn get(&self, id: &Text) -> Option<&Data>
        ensures { option_copied result ≡ data_of self.now id.now }
    {
        self.data.get(id.as_str())
    }

    /// Makes room for what is shown under the display id, so that `put` takes no memory.
    pub(crate) fn make_room(&mut self, alloc: Global, id: &Text) -> Result<(), NoMemory>
        ensures keeps { Keeps self.old self.new }
        ensures room { OnOk result (IsSome (data_of self.new id.now)) }
    {
        if self.data.contains_key(id.as_str()) {
            return Ok(());
        }
        let key = String::from_str(alloc, id.as_str())?;
        let unknown = Data {
            bundle: Fields::new(alloc),
            metadata: Json::Null,
        };
        match self.data.insert(key, unknown) {
            Ok(_) => Ok(()),
            Err(_) => Err(NoMemory),
        }
    }

    /// Puts what is shown under a display id that has room.
    pub(crate) fn put(&mut self, id: &Text, fresh: Data)
        requires { IsSome (data_of self.old id.now) }
        ensures { (other : List ℕ) → data_of self.new other
            ≡ (if bytes_eq id.now other then Some fresh else data_of self.old other) }
    {
        if let Some(known) = self.data.get_mut(id.as_str()) {
            *known = fresh;
        }
    }
}
