//! Where values that recur in notebooks fail the schema of nbformat 4.5.
ghost use Rattle.std.specs.Prelude.{◌≡◌, not, ◌||◌, option_map, option_and_then, find, position, IfOk, length, [], codes, Some};
ghost use Rattle.jtext.specs.Find.{fields};
ghost use Rattle.jtext.specs.Look as look;
ghost use Rattle.jtext.specs.Bundle as bundle;
ghost use Rattle.nb_model.specs.Pointer as pointer;
ghost use Rattle.nb_model.specs.Places as places;

use crate::pointer::{under_item, under_key};
use jtext::{Json, NoMemory, Text, is_bundle, is_json_type, is_multiline};
use std::alloc::Global;

pub(crate) fn strings_place(alloc: Global, v: &Json) -> Result<Option<Text>, NoMemory>
    ensures { IfOk result (λ r. r ≡ places.of_strings v.now) }
{
    match v {
        Json::Arr(items) => other_place(alloc, items.as_slice()),
        _ => Ok(Some(Text::new(alloc))),
    }
}

fn other_place(alloc: Global, items: &[Json]) -> Result<Option<Text>, NoMemory>
    ensures { IfOk result (λ r. r
        ≡ option_and_then (λ i. pointer.under_item i (Some []))
        (position (λ x. not (look.is_string x)) items.now)) }
{
    match first_other(items) {
        Some(i) => under_item(alloc, i, Some(Text::new(alloc))),
        None => Ok(None),
    }
}

/// The place of the first item that is no string.
fn first_other(items: &[Json]) -> Option<usize>
    ensures { result ≡ position (λ x. not (look.is_string x)) items.now }
{
    items.iter().position(|x| !x.is_string())
}

pub(crate) fn multiline_place(alloc: Global, v: &Json) -> Result<Option<Text>, NoMemory>
    ensures { IfOk result (λ r. r ≡ places.of_multiline v.now) }
{
    if v.is_string() {
        return Ok(None);
    }
    strings_place(alloc, v)
}

pub(crate) fn bundle_place(alloc: Global, v: &Json) -> Result<Option<Text>, NoMemory>
    ensures { IfOk result (λ r. r ≡ places.of_bundle v.now) }
{
    match v {
        Json::Obj(fields) => data_place(alloc, fields.as_slice()),
        _ => Ok(Some(Text::new(alloc))),
    }
}

fn data_place(alloc: Global, pairs: &[(Text, Json)]) -> Result<Option<Text>, NoMemory>
    ensures { IfOk result (λ r. r
        ≡ places.within_pairs (λ p. bundle.is_json_type p.0 || bundle.is_multiline p.1)
        places.of_multiline pairs.now) }
{
    match first_wrong_datum(pairs) {
        Some(p) => datum_place(alloc, p),
        None => Ok(None),
    }
}

fn datum_place(alloc: Global, p: &(Text, Json)) -> Result<Option<Text>, NoMemory>
    ensures { IfOk result (λ r. r ≡ pointer.under_key p.now.0 (places.of_multiline p.now.1)) }
{
    under_key(alloc, p.0.as_str(), multiline_place(alloc, &p.1)?)
}

fn first_wrong_datum(pairs: &[(Text, Json)]) -> Option<&(Text, Json)>
    ensures { option_map (λ p. p.now) result
        ≡ find (λ p. not (bundle.is_json_type p.0 || bundle.is_multiline p.1)) pairs.now }
{
    pairs
        .iter()
        .find(|p| !(is_json_type(p.0.bytes()) || is_multiline(&p.1)))
}

pub(crate) fn attachments_place(alloc: Global, v: &Json) -> Result<Option<Text>, NoMemory>
    ensures { IfOk result (λ r. r ≡ places.of_attachments v.now) }
{
    match v {
        Json::Obj(fields) => bundles_place(alloc, fields.as_slice()),
        _ => Ok(Some(Text::new(alloc))),
    }
}

fn bundles_place(alloc: Global, pairs: &[(Text, Json)]) -> Result<Option<Text>, NoMemory>
    ensures { IfOk result (λ r. r
        ≡ places.within_pairs (λ p. bundle.is_bundle p.1) places.of_bundle pairs.now) }
{
    match first_no_bundle(pairs) {
        Some(p) => attachment_place(alloc, p),
        None => Ok(None),
    }
}

fn attachment_place(alloc: Global, p: &(Text, Json)) -> Result<Option<Text>, NoMemory>
    ensures { IfOk result (λ r. r ≡ pointer.under_key p.now.0 (places.of_bundle p.now.1)) }
{
    under_key(alloc, p.0.as_str(), bundle_place(alloc, &p.1)?)
}

fn first_no_bundle(pairs: &[(Text, Json)]) -> Option<&(Text, Json)>
    ensures { option_map (λ p. p.now) result ≡ find (λ p. not (bundle.is_bundle p.1)) pairs.now }
{
    pairs.iter().find(|p| !is_bundle(&p.1))
}
