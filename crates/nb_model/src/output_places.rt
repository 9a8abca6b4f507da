//! Where outputs fail the schema of nbformat 4.5.
ghost use Rattle.std.specs.Prelude.{◌≡◌, not, option_map, option_and_then, position, slice_get, IfOk, ◌∷◌, [], codes};
ghost use Rattle.nb_model.specs.Schema as schema;
ghost use Rattle.nb_model.specs.Values as values;
ghost use Rattle.nb_model.specs.Valid as valid;
ghost use Rattle.nb_model.specs.Pointer as pointer;
ghost use Rattle.nb_model.specs.Places as places;

use crate::key_lists;
use crate::places::{keys_place, string_place, value_place};
use crate::pointer::{under_item, under_key, within};
use crate::validity::{has_type, is_count, is_output};
use crate::value_places::{bundle_place, multiline_place, strings_place};
use jtext::{Items, Json, NoMemory, Text, field};
use std::alloc::Global;

pub(crate) fn outputs_place(alloc: Global, v: &Json) -> Result<Option<Text>, NoMemory>
    ensures { IfOk result (λ r. r ≡ places.of_outputs v.now) }
{
    match v {
        Json::Arr(items) => items_place(alloc, items),
        _ => Ok(Some(Text::new(alloc))),
    }
}

fn items_place(alloc: Global, items: &Items) -> Result<Option<Text>, NoMemory>
    ensures { IfOk result (λ r. r
        ≡ places.within_items valid.is_output places.of_output items.now) }
{
    match first_no_output(items) {
        Some(i) => item_place(alloc, items, i),
        None => Ok(None),
    }
}

fn first_no_output(items: &Items) -> Option<usize>
    ensures { result ≡ position (λ x. not (valid.is_output x)) items.now }
{
    items.as_slice().iter().position(|x| !is_output(x))
}

fn item_place(alloc: Global, items: &Items, i: usize) -> Result<Option<Text>, NoMemory>
    ensures { IfOk result (λ r. r
        ≡ pointer.under_item i (option_and_then places.of_output (slice_get items.now i))) }
{
    match items.get(i) {
        Some(o) => under_item(alloc, i, output_place(alloc, o)?),
        None => Ok(None),
    }
}

fn output_place(alloc: Global, o: &Json) -> Result<Option<Text>, NoMemory>
    ensures { IfOk result (λ r. r ≡ places.of_output o.now) }
{
    if o.is_object() {
        by_type(alloc, o)
    } else {
        Ok(Some(Text::new(alloc)))
    }
}

/// An object by its `output_type`.
fn by_type(alloc: Global, o: &Json) -> Result<Option<Text>, NoMemory>
    ensures { IfOk result (λ r. r ≡ places.by_type o.now) }
{
    if has_type(o, "stream") {
        return stream_place(alloc, o);
    }
    if has_type(o, "display_data") {
        return display_place(alloc, o);
    }
    if has_type(o, "execute_result") {
        return result_place(alloc, o);
    }
    if has_type(o, "error") {
        return error_place(alloc, o);
    }
    if field(o, "output_type").is_none() {
        return Ok(Some(Text::new(alloc)));
    }
    under_key(alloc, "output_type", Some(Text::new(alloc)))
}

fn stream_place(alloc: Global, o: &Json) -> Result<Option<Text>, NoMemory>
    ensures { IfOk result (λ r. r ≡ places.of_stream o.now) }
{
    let keys = stream_keys(alloc, o)?;
    let name = string_place(alloc, o, "name")?;
    Ok(keys.or(name.or(within_text(alloc, o)?)))
}

fn display_place(alloc: Global, o: &Json) -> Result<Option<Text>, NoMemory>
    ensures { IfOk result (λ r. r ≡ places.of_display o.now) }
{
    let keys = display_keys(alloc, o)?;
    Ok(keys.or(data_place(alloc, o)?))
}

fn data_place(alloc: Global, o: &Json) -> Result<Option<Text>, NoMemory>
    ensures { IfOk result (λ r. r ≡ places.of_data o.now) }
{
    let data = within_data(alloc, o)?;
    let is_object = field(o, "metadata").is_none_or(|v| v.is_object());
    Ok(data.or(value_place(alloc, "metadata", is_object)?))
}

fn result_place(alloc: Global, o: &Json) -> Result<Option<Text>, NoMemory>
    ensures { IfOk result (λ r. r ≡ places.of_result o.now) }
{
    let keys = result_keys(alloc, o)?;
    let data = data_place(alloc, o)?;
    Ok(keys.or(data.or(count_place(alloc, o)?)))
}

/// The value of `execution_count`.
pub(crate) fn count_place(alloc: Global, t: &Json) -> Result<Option<Text>, NoMemory>
    ensures { IfOk result (λ r. r
        ≡ places.of_value (codes "execution_count") values.is_count t.now) }
{
    let is_count = field(t, "execution_count").is_none_or(|v| is_count(v));
    value_place(alloc, "execution_count", is_count)
}

fn error_place(alloc: Global, o: &Json) -> Result<Option<Text>, NoMemory>
    ensures { IfOk result (λ r. r ≡ places.of_error o.now) }
{
    let keys = error_keys(alloc, o)?;
    let name = string_place(alloc, o, "ename")?;
    let value = string_place(alloc, o, "evalue")?;
    Ok(keys.or(name.or(value.or(within_traceback(alloc, o)?))))
}

fn within_text(alloc: Global, t: &Json) -> Result<Option<Text>, NoMemory>
    ensures { IfOk result (λ r. r ≡ places.within_value (codes "text") places.of_multiline t.now) }
{
    within!(alloc, t, "text", multiline_place)
}

fn within_data(alloc: Global, t: &Json) -> Result<Option<Text>, NoMemory>
    ensures { IfOk result (λ r. r ≡ places.within_value (codes "data") places.of_bundle t.now) }
{
    within!(alloc, t, "data", bundle_place)
}

fn within_traceback(alloc: Global, t: &Json) -> Result<Option<Text>, NoMemory>
    ensures { IfOk result (λ r. r
        ≡ places.within_value (codes "traceback") places.of_strings t.now) }
{
    within!(alloc, t, "traceback", strings_place)
}

fn stream_keys(alloc: Global, t: &Json) -> Result<Option<Text>, NoMemory>
    ensures { IfOk result (λ r. r ≡ places.of_output_keys schema.stream_required t.now) }
{
    keys_place(alloc, t, &key_lists::STREAM_REQUIRED, &key_lists::STREAM)
}

fn display_keys(alloc: Global, t: &Json) -> Result<Option<Text>, NoMemory>
    ensures { IfOk result (λ r. r ≡ places.of_output_keys schema.display_required t.now) }
{
    keys_place(alloc, t, &key_lists::DISPLAY_REQUIRED, &key_lists::DISPLAY)
}

fn result_keys(alloc: Global, t: &Json) -> Result<Option<Text>, NoMemory>
    ensures { IfOk result (λ r. r ≡ places.of_output_keys schema.result_required t.now) }
{
    keys_place(alloc, t, &key_lists::RESULT_REQUIRED, &key_lists::RESULT)
}

fn error_keys(alloc: Global, t: &Json) -> Result<Option<Text>, NoMemory>
    ensures { IfOk result (λ r. r ≡ places.of_output_keys schema.error_required t.now) }
{
    keys_place(alloc, t, &key_lists::ERROR_REQUIRED, &key_lists::ERROR)
}
