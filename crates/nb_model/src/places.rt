//! Where a tree fails the schema of nbformat 4.5, as a pointer from the value that is tested.
//! The order of the tests is the definition's; where nothing fails no memory is taken.
ghost use Rattle.std.specs.Prelude.{◌≡◌, not, ◌||◌, is_some, is_none, option_map, option_and_then, find, position, slice_get, IfOk, IfSome, ◌<◌, length, ◌∷◌, [], codes, Some};
ghost use Rattle.std.specs.Option.{option_or};
ghost use Rattle.std.specs.List.{list_any, list_all};
ghost use Rattle.std.specs.Str.{bytes_eq};
ghost use Rattle.jtext.specs.Find.{field, fields};
ghost use Rattle.jtext.specs.Look as look;
ghost use Rattle.nb_model.specs.Schema as schema;
ghost use Rattle.nb_model.specs.Pointer as pointer;
ghost use Rattle.nb_model.specs.Places as places;

use crate::cell_places::cells_place;
use crate::key_lists;
use crate::pointer::{place_unless, under_key, within};
use crate::validity::is_among;
use jtext::{Json, NoMemory, Text, field};
use std::alloc::Global;

// ---- objects and lists

fn has_all(t: &Json, keys: &[&str]) -> bool
    ensures { result ≡ list_all (λ k. is_some (field t.now k.now)) keys.now }
{
    keys.iter().all(|k| field(t, k).is_some())
}

/// The first key that isn't known.
fn unknown_key(alloc: Global, t: &Json, known: &[&str]) -> Result<Option<Text>, NoMemory>
    ensures { IfOk result (λ r. r
        ≡ places.of_unknown (λ q. list_any (λ k. bytes_eq q k.now) known.now) (fields t.now)) }
{
    unknown_place(alloc, t.pairs(), known)
}

fn unknown_place(
    alloc: Global,
    pairs: &[(Text, Json)],
    known: &[&str],
) -> Result<Option<Text>, NoMemory>
    ensures { IfOk result (λ r. r
        ≡ places.of_unknown (λ q. list_any (λ k. bytes_eq q k.now) known.now) pairs.now) }
{
    match first_unknown(pairs, known) {
        Some(pair) => under_key(alloc, pair.0.as_str(), Some(Text::new(alloc))),
        None => Ok(None),
    }
}

fn first_unknown<'a>(pairs: &'a [(Text, Json)], known: &[&str]) -> Option<&'a (Text, Json)>
    ensures { option_map (λ p. p.now) result
        ≡ find (λ p. not (list_any (λ k. bytes_eq p.0 k.now) known.now)) pairs.now }
{
    pairs.iter().find(|p| !is_among(p.0.as_str(), known))
}

/// A missing key, else the first that isn't known.
pub(crate) fn keys_place(
    alloc: Global,
    t: &Json,
    required: &[&str],
    known: &[&str],
) -> Result<Option<Text>, NoMemory>
    ensures { IfOk result (λ r. r
        ≡ option_or
        (pointer.place_unless (list_all (λ k. is_some (field t.now k.now)) required.now))
        (places.of_unknown (λ q. list_any (λ k. bytes_eq q k.now) known.now) (fields t.now))) }
{
    if has_all(t, required) {
        unknown_key(alloc, t, known)
    } else {
        Ok(Some(Text::new(alloc)))
    }
}

/// The value of a key, where a test failed.
pub(crate) fn value_place(alloc: Global, key: &str, holds: bool) -> Result<Option<Text>, NoMemory>
    ensures { IfOk result (λ r. r ≡ pointer.under_key key.now (pointer.place_unless holds)) }
{
    under_key(alloc, key, place_unless(alloc, holds))
}

/// The value of a key that must be a string.
pub(crate) fn string_place(alloc: Global, t: &Json, key: &str) -> Result<Option<Text>, NoMemory>
    ensures { IfOk result (λ r. r ≡ places.of_value key.now look.is_string t.now) }
{
    value_place(alloc, key, field(t, key).is_none_or(|v| v.is_string()))
}

// ---- the notebook

/// An object that has its version.
pub(crate) fn notebook_place(alloc: Global, t: &Json) -> Result<Option<Text>, NoMemory>
    ensures { IfOk result (λ r. r ≡ places.of_notebook t.now) }
{
    let keys = notebook_keys(alloc, t)?;
    if keys.is_some() {
        return Ok(keys);
    }
    Ok(within_metadata(alloc, t)?.or(within_cells(alloc, t)?))
}

fn notebook_keys(alloc: Global, t: &Json) -> Result<Option<Text>, NoMemory>
    ensures { IfOk result (λ r. r
        ≡ places.of_keys schema.notebook_keys schema.notebook_keys t.now) }
{
    keys_place(alloc, t, &key_lists::NOTEBOOK, &key_lists::NOTEBOOK)
}

fn within_cells(alloc: Global, t: &Json) -> Result<Option<Text>, NoMemory>
    ensures { IfOk result (λ r. r ≡ places.within_value (codes "cells") places.of_cells t.now) }
{
    within!(alloc, t, "cells", cells_place)
}

fn within_metadata(alloc: Global, t: &Json) -> Result<Option<Text>, NoMemory>
    ensures { IfOk result (λ r. r
        ≡ places.within_value (codes "metadata") places.of_metadata t.now) }
{
    within!(alloc, t, "metadata", metadata_place)
}

fn metadata_place(alloc: Global, v: &Json) -> Result<Option<Text>, NoMemory>
    ensures { IfOk result (λ r. r ≡ places.of_metadata v.now) }
{
    if !v.is_object() {
        return Ok(Some(Text::new(alloc)));
    }
    Ok(within_kernelspec(alloc, v)?.or(within_language_info(alloc, v)?))
}

fn within_kernelspec(alloc: Global, t: &Json) -> Result<Option<Text>, NoMemory>
    ensures { IfOk result (λ r. r
        ≡ places.within_value (codes "kernelspec") places.of_kernelspec t.now) }
{
    within!(alloc, t, "kernelspec", kernelspec_place)
}

fn kernelspec_place(alloc: Global, v: &Json) -> Result<Option<Text>, NoMemory>
    ensures { IfOk result (λ r. r ≡ places.of_kernelspec v.now) }
{
    if !v.is_object() {
        return Ok(Some(Text::new(alloc)));
    }
    if !has_all(v, &key_lists::KERNELSPEC_REQUIRED) {
        return Ok(Some(Text::new(alloc)));
    }
    Ok(string_place(alloc, v, "name")?.or(string_place(alloc, v, "display_name")?))
}

fn within_language_info(alloc: Global, t: &Json) -> Result<Option<Text>, NoMemory>
    ensures { IfOk result (λ r. r
        ≡ places.within_value (codes "language_info") places.of_language_info t.now) }
{
    within!(alloc, t, "language_info", language_info_place)
}

fn language_info_place(alloc: Global, v: &Json) -> Result<Option<Text>, NoMemory>
    ensures { IfOk result (λ r. r ≡ places.of_language_info v.now) }
{
    if !v.is_object() {
        return Ok(Some(Text::new(alloc)));
    }
    if !has_all(v, &key_lists::LANGUAGE_INFO_REQUIRED) {
        return Ok(Some(Text::new(alloc)));
    }
    string_place(alloc, v, "name")
}
