//! Pairs in the order of their keys.
ghost use Rattle.std.specs.Prelude.{◌≡◌, ◌<◌, length, slice_get, IfOk};
ghost use Rattle.jtext.specs.Sorting.{by_key, ArePlacesByKey};

use crate::{Json, NoMemory, Text};
use std::alloc::Global;

/// The keys in the order of their bytes, each with the place of its pair.
pub(crate) fn places_by_key(
    alloc: Global,
    pairs: &[(Text, Json)],
) -> Result<Vec<(&str, usize)>, NoMemory>
    ensures { IfOk result (λ v. ArePlacesByKey pairs.now v.items) }
{
    let mut places = Vec::new(alloc);
    for (i, pair) in pairs.iter().enumerate() {
        places.push((pair.0.as_str(), i))?;
    }
    places.sort()?;
    Ok(places)
}

/// The place of the pair whose key is at `i` of those keys.
pub(crate) fn place_of(pairs: &[(Text, Json)], places: &[(&str, usize)], i: usize) -> usize
    requires sorted { ArePlacesByKey pairs.now places.now }
    requires within { i < length places.now }
    ensures within { result < length pairs.now }
    ensures pair { slice_get (by_key pairs.now) i ≡ slice_get pairs.now result }
{
    places[i].1
}
