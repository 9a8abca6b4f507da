//! A tree taken apart into the notebook that it is. Nothing in it is copied.
ghost use Rattle.std.specs.Prelude.{◌≡◌, map, IfOk, option_and_then, unwrap_or, []};
ghost use Rattle.jtext.specs.Find.{find, fields};
ghost use Rattle.jtext.specs.declared.json.Json.TheVariants as json;
ghost use Rattle.jtext.specs.Look as look;
ghost use Rattle.nb_model.specs.Pairs.{pairs_without};
ghost use Rattle.nb_model.specs.Reading as reading;

use crate::{Cell, Cells, Kind, Notebook};
use jtext::{Fields, Items, Json, NoMemory, NumText, Text, place_of_key};
use std::alloc::Global;

/// The notebook of a tree. Where a part is missing or of another kind, it is as if empty.
pub(crate) fn notebook_of(alloc: Global, t: Json) -> Result<Notebook, NoMemory>
    ensures { IfOk result (λ n. n ≡ reading.notebook_of t) }
{
    let mut pairs = t.into_pairs(alloc);
    let metadata = or_null(take(&mut pairs, "metadata"));
    let items = items_of(alloc, take(&mut pairs, "cells"));
    Ok(Notebook {
        metadata,
        cells: cells_of(alloc, items)?,
    })
}

fn cells_of(alloc: Global, items: Items) -> Result<Cells, NoMemory>
    ensures { IfOk result (λ cells. cells ≡ map reading.cell_of items) }
{
    let mut cells = Cells::new(alloc);
    for item in items.into_vec() {
        cells.push(cell_of(alloc, item))?;
    }
    Ok(cells)
}

fn cell_of(alloc: Global, c: Json) -> Cell
    ensures { result ≡ reading.cell_of c }
{
    let mut pairs = c.into_pairs(alloc);
    let kind = kind_of(alloc, take(&mut pairs, "cell_type"));
    let id = text_of(alloc, take(&mut pairs, "id"));
    let metadata = or_null(take(&mut pairs, "metadata"));
    let source = or_null(take(&mut pairs, "source"));
    let attachments = take(&mut pairs, "attachments");
    let outputs = items_of(alloc, take(&mut pairs, "outputs"));
    let count = number_of(take(&mut pairs, "execution_count"));
    Cell {
        kind,
        id,
        metadata,
        source,
        attachments,
        outputs,
        count,
    }
}

/// Takes the first pair with that key out.
fn take(pairs: &mut Fields, key: &str) -> Option<Json>
    ensures value { result ≡ find key.now pairs.old }
    ensures rest { pairs.new ≡ pairs_without key.now pairs.old }
{
    match place_of_key(pairs.as_slice(), key) {
        Some(i) => Some(pairs.take(i).1),
        None => None,
    }
}

fn or_null(v: Option<Json>) -> Json
    ensures { result ≡ unwrap_or v json.Null }
{
    match v {
        Some(v) => v,
        None => Json::Null,
    }
}

fn items_of(alloc: Global, v: Option<Json>) -> Items
    ensures { result ≡ look.items (unwrap_or v json.Null) }
{
    or_null(v).into_items(alloc)
}

fn text_of(alloc: Global, v: Option<Json>) -> Text
    ensures { result ≡ unwrap_or (option_and_then look.string v) [] }
{
    match v.and_then(|v| v.into_text()) {
        Some(text) => text,
        None => Text::new(alloc),
    }
}

fn number_of(v: Option<Json>) -> Option<NumText>
    ensures { result ≡ option_and_then look.number v }
{
    v?.into_number()
}

fn kind_of(alloc: Global, v: Option<Json>) -> Kind
    ensures { result ≡ reading.kind_named (unwrap_or (option_and_then look.string v) []) }
{
    kind_named(text_of(alloc, v).as_str())
}

fn kind_named(name: &str) -> Kind
    ensures { result ≡ reading.kind_named name.now }
{
    if name == "code" {
        Kind::Code
    } else if name == "markdown" {
        Kind::Markdown
    } else {
        Kind::Raw
    }
}
