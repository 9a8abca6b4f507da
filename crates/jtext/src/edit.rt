//! Values set under a key of an object that is owned. Nothing in it is copied.
ghost use Rattle.std.specs.Prelude.{◌≡◌, ◌<◌, length, position, unwrap_or, IfOk, IfSome, OnOk};
ghost use Rattle.std.specs.Str.{bytes_eq};
ghost use Rattle.jtext.specs.Edit as spec;
ghost use Rattle.jtext.specs.Find.{find};
ghost use Rattle.jtext.specs.declared.json.Json as tree;
ghost use Rattle.jtext.specs.declared.json.Json.TheVariants as json;

use crate::build::pair;
use crate::json::Fields;
use crate::{Json, NoMemory, Text};
use std::alloc::Global;

/// The object with this value under the key, in its place or last. What is no object becomes one.
pub fn set_field(alloc: Global, key: &str, value: Json, t: Json) -> Result<Json, NoMemory>
    ensures { IfOk result (λ r. r ≡ spec.set_field key.now value t) }
{
    let mut pairs = t.into_pairs(alloc);
    set_pair(alloc, &mut pairs, key, value)?;
    Ok(Json::Obj(pairs))
}

/// The object with this value under `key` of the object under `outer`.
pub fn set_within(
    alloc: Global,
    outer: &str,
    key: &str,
    value: Json,
    t: Json,
) -> Result<Json, NoMemory>
    ensures { IfOk result (λ r. r ≡ spec.set_within outer.now key.now value t) }
{
    let mut pairs = t.into_pairs(alloc);
    let inner = lift(alloc, &mut pairs, outer)?;
    let inner = set_field(alloc, key, value, inner)?;
    set_pair(alloc, &mut pairs, outer, inner)?;
    Ok(Json::Obj(pairs))
}

/// Sets this value under the key, in its place or last.
pub fn set_pair(alloc: Global, pairs: &mut Fields, key: &str, value: Json) -> Result<(), NoMemory>
    ensures { OnOk result (pairs.new ≡ spec.set_pair key.now value pairs.old) }
{
    let named = pair(alloc, key, value)?;
    match place_of_key(pairs.as_slice(), key) {
        Some(i) => {
            let _ = pairs.put(i, named);
            Ok(())
        }
        None => pairs.push(named),
    }
}

/// Moves the value under the key out, and leaves `null` in its place.
fn lift(alloc: Global, pairs: &mut Fields, key: &str) -> Result<Json, NoMemory>
    ensures value { IfOk result (λ v. v ≡ unwrap_or (find key.now pairs.old) json.Null) }
    ensures rest { OnOk result ((v : tree.Json) →
        spec.set_pair key.now v pairs.new ≡ spec.set_pair key.now v pairs.old) }
{
    let blank = pair(alloc, key, Json::Null)?;
    match place_of_key(pairs.as_slice(), key) {
        Some(i) => Ok(pairs.put(i, blank).1),
        None => Ok(Json::Null),
    }
}

/// The place of the first pair with that key, counted from 0, and `None` where there is none.
pub fn place_of_key(pairs: &[(Text, Json)], key: &str) -> Option<usize>
    ensures place { result ≡ position (λ p. bytes_eq p.0 key.now) pairs.now }
    ensures within { IfSome result (λ i. i < length pairs.now) }
{
    pairs.iter().position(|p| p.0.as_str() == key)
}
