//! Objects made of given pairs.
ghost use Rattle.std.specs.Prelude.{◌≡◌, ◌++◌, ◌∷◌, [], IfOk, OnErr, OnOk};
ghost use Rattle.jtext.specs.declared.json.Json.TheVariants as json;

use crate::json::Fields;
use crate::{Json, NoMemory, Text};
use std::alloc::Global;

/// The string of a copy of `text`.
pub fn string(alloc: Global, text: &str) -> Result<Json, NoMemory>
    ensures { IfOk result (λ t. t ≡ json.Str text.now) }
{
    Ok(Json::Str(Text::of(alloc, text)?))
}

/// The pair of a copy of the key, and the value.
pub fn pair(alloc: Global, key: &str, value: Json) -> Result<(Text, Json), NoMemory>
    ensures { IfOk result (λ p. p ≡ (key.now, value)) }
{
    Ok((Text::of(alloc, key)?, value))
}

/// The pair of a copy of the key, and the string of a copy of `text`.
pub fn text_pair(alloc: Global, key: &str, text: &str) -> Result<(Text, Json), NoMemory>
    ensures { IfOk result (λ p. p ≡ (key.now, json.Str text.now)) }
{
    pair(alloc, key, string(alloc, text)?)
}

/// Appends a copy of the key, with the string of a copy of `text`, or leaves the pairs as they are.
pub fn put_text(alloc: Global, fields: &mut Fields, key: &str, text: &str) -> Result<(), NoMemory>
    ensures ok { OnOk result (fields.new ≡ fields.old ++ (key.now, json.Str text.now) ∷ []) }
    ensures err { OnErr result (fields.new ≡ fields.old) }
{
    fields.push(text_pair(alloc, key, text)?)
}

/// The object of those pairs, in their order.
pub fn object<const N: usize>(alloc: Global, pairs: [(Text, Json); N]) -> Result<Json, NoMemory>
    ensures { IfOk result (λ t. t ≡ json.Obj pairs.entry) }
{
    Ok(Json::Obj(Fields::of_vec(Vec::from_array(alloc, pairs)?)))
}
