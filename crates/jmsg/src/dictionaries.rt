//! Dictionaries: JSON objects.
ghost use Rattle.std.specs.Prelude.{◌≡◌, IfOk, IfSome, Some};
ghost use Rattle.jmsg.specs.Dictionary.{IsDictionary};
ghost use Rattle.jtext.specs.Find.{fields};
ghost use Rattle.jtext.specs.Look as look;
ghost use Rattle.jtext.specs.declared.json.Json as tree;

use jtext::{Fields, Json, JsonFault, NoMemory, Text, read};
use std::alloc::Global;

/// How deep a dictionary may nest.
const DEEP: u32 = 100;

/// The object that the bytes spell; `None` where they spell none nested at most 100 deep.
pub fn dictionary(alloc: Global, bytes: &[u8]) -> Result<Option<Json>, NoMemory>
    ensures some { IfOk result (λ r. IfSome r (λ t. IsDictionary t bytes.now)) }
    ensures only { (t : tree.Json) → IsDictionary t bytes.now → IfOk result (λ r. r ≡ Some t) }
{
    match read(alloc, bytes, DEEP) {
        Ok(t) => { if t.is_object() { Ok(Some(t)) } else { Ok(None) } }
        Err(JsonFault::NoMemory) => Err(NoMemory),
        Err(_) => Ok(None),
    }
}

/// The text of a string, and of no other value.
pub(crate) fn string_of(value: Json) -> Option<Text>
    ensures { result ≡ look.string value }
{
    match value {
        Json::Str(text) => Some(text),
        _ => None,
    }
}

/// The pairs of an object, and none of another value.
pub(crate) fn pairs_of(alloc: Global, t: Json) -> Fields
    ensures { result ≡ fields t }
{
    match t {
        Json::Obj(pairs) => pairs,
        _ => Fields::new(alloc),
    }
}
