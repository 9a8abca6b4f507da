//! The source and the tags of a cell.
ghost use Rattle.std.specs.Prelude.{◌≡◌, ◌++◌, IfOk, OnOk, flat_map, string_bytes, codes};
ghost use Rattle.std.specs.List.{list_all, list_any};
ghost use Rattle.std.specs.Str.{chars};
ghost use Rattle.unicode.specs.Binary.{is_white_space};
ghost use Rattle.jtext.specs.Look as look;
ghost use Rattle.nb_model.specs.Keys as keys;
ghost use Rattle.nb_model.specs.Kind as kinds;
ghost use Rattle.nb_model.specs.Planned as planned;
ghost use Rattle.nb_model.specs.Tags as tags;

use crate::validity::is_text;
use crate::{Cell, Kind};
use jtext::{Items, Json, NoMemory, Text, field};
use std::alloc::Global;
use unicode::properties::is_white_space;

/// The source of a cell as one text: a string, or its lines joined.
pub fn code(alloc: Global, c: &Cell) -> Result<Text, NoMemory>
    ensures { IfOk result (λ text. text ≡ planned.code c.now) }
{
    joined_text(alloc, &c.source)
}

/// Whether the cell has this tag.
pub fn tagged(c: &Cell, tag: &str) -> bool
    ensures { result ≡ tags.is_tagged tag.now c.now }
{
    field(&c.metadata, "tags").is_some_and(|tags| any_text(tags.items(), tag))
}

/// Whether the cell is to be executed.
pub(crate) fn is_planned(alloc: Global, c: &Cell) -> Result<bool, NoMemory>
    ensures { IfOk result (λ b. b ≡ planned.is_planned c.now) }
{
    if !is_code(c.kind) {
        return Ok(false);
    }
    let text = code(alloc, c)?;
    Ok(!is_blank(text.as_str()) && !tagged(c, "skip-execution"))
}

pub(crate) fn is_code(kind: Kind) -> bool
    ensures { result ≡ kinds.is_code kind }
{
    match kind {
        Kind::Raw => false,
        Kind::Markdown => false,
        Kind::Code => true,
    }
}

fn is_blank(text: &str) -> bool
    ensures { result ≡ planned.is_blank text.now }
{
    text.chars().all(|c| is_white_space(c))
}

fn any_text(items: &[Json], text: &str) -> bool
    ensures { result ≡ list_any (keys.is_text text.now) items.now }
{
    items.iter().any(|x| is_text(x, text))
}

fn joined_text(alloc: Global, v: &Json) -> Result<Text, NoMemory>
    ensures { IfOk result (λ text. text ≡ planned.joined_text v.now) }
{
    match v {
        Json::Str(text) => text.copy(alloc),
        Json::Arr(items) => joined_items(alloc, items.as_slice()),
        _ => Ok(Text::new(alloc)),
    }
}

fn joined_items(alloc: Global, items: &[Json]) -> Result<Text, NoMemory>
    ensures { IfOk result (λ text. text ≡ flat_map look.text_of items.now) }
{
    let mut text = String::new(alloc);
    for item in items {
        text.push_str(item.text())?;
    }
    Ok(Text::of_string(text))
}
