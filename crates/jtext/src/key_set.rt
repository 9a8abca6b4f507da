//! The keys of an object that is read: none may come twice. Few are compared one by one, and many
//! are looked up in an ordered set.
ghost use Rattle.std.specs.Prelude.{◌≡◌, ◌<◌, ◌≤◌, length, IfOk, OnOk};
ghost use Rattle.jtext.specs.KeySet.{HasKeys, HasKeysAnd};
ghost use Rattle.jtext.specs.Reading.{has_key};

use crate::{Fields, Json, NoMemory, Text};
use std::alloc::Global;
use std::collections::BTreeSet;

/// How many keys are compared one by one.
const FEW: usize = 16;

/// Whether one of the pairs has the key. `many` has the keys of the pairs, once there are more than
/// sixteen, and then takes the key too.
pub(crate) fn is_taken(
    alloc: Global,
    found: &Fields,
    many: &mut BTreeSet<String>,
    key: &str,
) -> Result<bool, NoMemory>
    requires kept { 16 < length found.now → HasKeys many.old found.now }
    ensures taken { IfOk result (λ taken. taken ≡ has_key found.now key.now) }
    ensures kept { IfOk result (λ taken. 16 ≤ length found.now →
        HasKeysAnd key.now many.new found.now) }
{
    if found.len() < FEW {
        return Ok(has_key(found.as_slice(), key));
    }
    complete(alloc, found, many)?;
    let added = many.insert(String::from_str(alloc, key)?)?;
    Ok(!added)
}

fn has_key(pairs: &[(Text, Json)], key: &str) -> bool
    ensures { result ≡ has_key pairs.now key.now }
{
    pairs.iter().any(|pair| pair.0.as_str() == key)
}

/// Makes the set of the keys where the pairs have just ceased to be few.
fn complete(alloc: Global, found: &Fields, many: &mut BTreeSet<String>) -> Result<(), NoMemory>
    requires kept { 16 < length found.now → HasKeys many.old found.now }
    ensures { OnOk result (16 ≤ length found.now → HasKeys many.new found.now) }
{
    if found.len() == FEW {
        *many = keys_of(alloc, found.as_slice())?;
    }
    Ok(())
}

fn keys_of(alloc: Global, pairs: &[(Text, Json)]) -> Result<BTreeSet<String>, NoMemory>
    ensures { IfOk result (λ keys. HasKeys keys pairs.now) }
{
    let mut keys = BTreeSet::new(alloc);
    for pair in pairs {
        keys.insert(String::from_str(alloc, pair.0.as_str())?)?;
    }
    Ok(keys)
}
