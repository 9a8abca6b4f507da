//! Where cells fail the schema of nbformat 4.5.
ghost use Rattle.std.specs.Prelude.{◌≡◌, not, option_map, option_and_then, position, slice_get, IfOk, ◌∷◌, [], codes, ◌||◌};
ghost use Rattle.nb_model.specs.Schema as schema;
ghost use Rattle.nb_model.specs.Valid as valid;
ghost use Rattle.nb_model.specs.Pointer as pointer;
ghost use Rattle.nb_model.specs.Places as places;

use crate::key_lists;
use crate::output_places::{count_place, outputs_place};
use crate::places::{keys_place, value_place};
use crate::pointer::{under_item, under_key, within};
use crate::validity::{is_cell, is_id, is_text};
use crate::value_places::{attachments_place, multiline_place, strings_place};
use jtext::{Items, Json, NoMemory, Text, field};
use std::alloc::Global;

pub(crate) fn cells_place(alloc: Global, v: &Json) -> Result<Option<Text>, NoMemory>
    ensures { IfOk result (λ r. r ≡ places.of_cells v.now) }
{
    match v {
        Json::Arr(items) => items_place(alloc, items),
        _ => Ok(Some(Text::new(alloc))),
    }
}

fn items_place(alloc: Global, items: &Items) -> Result<Option<Text>, NoMemory>
    ensures { IfOk result (λ r. r ≡ places.within_items valid.is_cell places.of_cell items.now) }
{
    match first_no_cell(items) {
        Some(i) => item_place(alloc, items, i),
        None => Ok(None),
    }
}

fn first_no_cell(items: &Items) -> Option<usize>
    ensures { result ≡ position (λ x. not (valid.is_cell x)) items.now }
{
    items.as_slice().iter().position(|x| !is_cell(x))
}

fn item_place(alloc: Global, items: &Items, i: usize) -> Result<Option<Text>, NoMemory>
    ensures { IfOk result (λ r. r
        ≡ pointer.under_item i (option_and_then places.of_cell (slice_get items.now i))) }
{
    match items.get(i) {
        Some(c) => under_item(alloc, i, cell_place(alloc, c)?),
        None => Ok(None),
    }
}

fn cell_place(alloc: Global, c: &Json) -> Result<Option<Text>, NoMemory>
    ensures { IfOk result (λ r. r ≡ places.of_cell c.now) }
{
    if c.is_object() {
        by_kind(alloc, c)
    } else {
        Ok(Some(Text::new(alloc)))
    }
}

/// An object by its `cell_type`.
fn by_kind(alloc: Global, c: &Json) -> Result<Option<Text>, NoMemory>
    ensures { IfOk result (λ r. r ≡ places.by_kind c.now) }
{
    if field(c, "cell_type").is_some_and(|v| is_text(v, "raw") || is_text(v, "markdown")) {
        return prose_cell_place(alloc, c);
    }
    if field(c, "cell_type").is_some_and(|v| is_text(v, "code")) {
        return code_cell_place(alloc, c);
    }
    if field(c, "cell_type").is_none() {
        return Ok(Some(Text::new(alloc)));
    }
    under_key(alloc, "cell_type", Some(Text::new(alloc)))
}

fn prose_cell_place(alloc: Global, c: &Json) -> Result<Option<Text>, NoMemory>
    ensures { IfOk result (λ r. r ≡ places.of_prose_cell c.now) }
{
    let keys = prose_keys(alloc, c)?;
    let common = common_place(alloc, c)?;
    Ok(keys.or(common.or(within_attachments(alloc, c)?)))
}

fn code_cell_place(alloc: Global, c: &Json) -> Result<Option<Text>, NoMemory>
    ensures { IfOk result (λ r. r ≡ places.of_code_cell c.now) }
{
    let keys = code_keys(alloc, c)?;
    let common = common_place(alloc, c)?;
    let count = count_place(alloc, c)?;
    Ok(keys.or(common.or(count.or(within_outputs(alloc, c)?))))
}

/// The values that every cell has.
fn common_place(alloc: Global, c: &Json) -> Result<Option<Text>, NoMemory>
    ensures { IfOk result (λ r. r ≡ places.of_common c.now) }
{
    let id = id_place(alloc, c)?;
    let metadata = within_metadata(alloc, c)?;
    Ok(id.or(metadata.or(within_source(alloc, c)?)))
}

fn id_place(alloc: Global, c: &Json) -> Result<Option<Text>, NoMemory>
    ensures { IfOk result (λ r. r ≡ places.of_value (codes "id") valid.is_id c.now) }
{
    value_place(alloc, "id", field(c, "id").is_none_or(|v| is_id(v)))
}

fn metadata_place(alloc: Global, v: &Json) -> Result<Option<Text>, NoMemory>
    ensures { IfOk result (λ r. r ≡ places.of_cell_metadata v.now) }
{
    if v.is_object() {
        within_tags(alloc, v)
    } else {
        Ok(Some(Text::new(alloc)))
    }
}

fn within_tags(alloc: Global, t: &Json) -> Result<Option<Text>, NoMemory>
    ensures { IfOk result (λ r. r ≡ places.within_value (codes "tags") places.of_strings t.now) }
{
    within!(alloc, t, "tags", strings_place)
}

fn within_metadata(alloc: Global, t: &Json) -> Result<Option<Text>, NoMemory>
    ensures { IfOk result (λ r. r
        ≡ places.within_value (codes "metadata") places.of_cell_metadata t.now) }
{
    within!(alloc, t, "metadata", metadata_place)
}

fn within_source(alloc: Global, t: &Json) -> Result<Option<Text>, NoMemory>
    ensures { IfOk result (λ r. r
        ≡ places.within_value (codes "source") places.of_multiline t.now) }
{
    within!(alloc, t, "source", multiline_place)
}

fn within_attachments(alloc: Global, t: &Json) -> Result<Option<Text>, NoMemory>
    ensures { IfOk result (λ r. r
        ≡ places.within_value (codes "attachments") places.of_attachments t.now) }
{
    within!(alloc, t, "attachments", attachments_place)
}

fn within_outputs(alloc: Global, t: &Json) -> Result<Option<Text>, NoMemory>
    ensures { IfOk result (λ r. r ≡ places.within_value (codes "outputs") places.of_outputs t.now) }
{
    within!(alloc, t, "outputs", outputs_place)
}

fn prose_keys(alloc: Global, t: &Json) -> Result<Option<Text>, NoMemory>
    ensures { IfOk result (λ r. r
        ≡ places.of_keys schema.prose_cell_required schema.prose_cell_keys t.now) }
{
    keys_place(
        alloc,
        t,
        &key_lists::PROSE_CELL_REQUIRED,
        &key_lists::PROSE_CELL,
    )
}

fn code_keys(alloc: Global, t: &Json) -> Result<Option<Text>, NoMemory>
    ensures { IfOk result (λ r. r
        ≡ places.of_keys schema.code_cell_keys schema.code_cell_keys t.now) }
{
    keys_place(alloc, t, &key_lists::CODE_CELL, &key_lists::CODE_CELL)
}
