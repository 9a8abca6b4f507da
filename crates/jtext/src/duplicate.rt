//! Copies of trees, and of what they are made of.
ghost use Rattle.std.specs.Prelude.{◌≡◌, IfOk, map};
ghost use Rattle.jtext.specs.Look.{text_of};

use crate::json::{Fields, Items, Texts};
use crate::{Json, NoMemory, NumText, Text};
use std::alloc::Global;

/// A tree equal to `t`, which owns its texts.
#[cycle(copy)]
pub fn copy(alloc: Global, t: &Json) -> Result<Json, NoMemory>
    ensures { IfOk result (λ r. r ≡ t.now) }
{
    match t {
        Json::Null => Ok(Json::Null),
        Json::Bool(b) => Ok(Json::Bool(*b)),
        Json::Num(n) => Ok(Json::Num(NumText::of_number(alloc, n.as_str())?)),
        Json::Str(s) => Ok(Json::Str(s.copy(alloc)?)),
        Json::Arr(items) => Ok(Json::Arr(copy_items(alloc, items.as_slice())?)),
        Json::Obj(fields) => Ok(Json::Obj(copy_fields(alloc, fields.as_slice())?)),
    }
}

/// Items equal to these, which own their texts.
#[cycle(copy)]
pub fn copy_items(alloc: Global, items: &[Json]) -> Result<Items, NoMemory>
    ensures { IfOk result (λ r. r ≡ items.now) }
{
    let mut copied = Items::new(alloc);
    for item in items {
        copied.push(copy(alloc, item)?)?;
    }
    Ok(copied)
}

/// Pairs equal to these, which own their keys and values.
#[cycle(copy)]
pub fn copy_fields(alloc: Global, fields: &[(Text, Json)]) -> Result<Fields, NoMemory>
    ensures { IfOk result (λ r. r ≡ fields.now) }
{
    let mut copied = Fields::new(alloc);
    for (key, value) in fields {
        copied.push((key.copy(alloc)?, copy(alloc, value)?))?;
    }
    Ok(copied)
}

/// Texts equal to these.
pub fn copy_texts(alloc: Global, texts: &[Text]) -> Result<Texts, NoMemory>
    ensures { IfOk result (λ r. r ≡ texts.now) }
{
    let mut copied = Texts::new(alloc);
    for text in texts {
        copied.push(text.copy(alloc)?)?;
    }
    Ok(copied)
}

/// Copies of the texts of these strings, and an empty text for each other value.
pub fn texts_of(alloc: Global, items: &[Json]) -> Result<Texts, NoMemory>
    ensures { IfOk result (λ r. r ≡ map text_of items.now) }
{
    let mut texts = Texts::new(alloc);
    for item in items {
        texts.push(Text::of(alloc, item.text())?)?;
    }
    Ok(texts)
}
