//! A tree of an older format, raised to nbformat 4.5.
ghost use Rattle.std.specs.Prelude.{◌≡◌, IfOk, map, codes};
ghost use Rattle.jtext.specs.declared.json.Json.TheVariants as json;
ghost use Rattle.nb_model.specs.Keys as keys;
ghost use Rattle.nb_migrate.specs.Raised as raising;

use jtext::{Fields, Items, Json, NoMemory, NumText, Text, field, set_field};
use std::alloc::Global;

/// The tree as one of 4.5, where it is of format 4.0 to 4.4; any other as it is.
pub(crate) fn raise(alloc: Global, t: Json) -> Result<Json, NoMemory>
    ensures { IfOk result (λ r. r ≡ raising.raised_tree t) }
{
    if is_older(&t) {
        raised_object(alloc, t)
    } else {
        Ok(t)
    }
}

fn is_older(t: &Json) -> bool
    ensures { result ≡ raising.is_older t.now }
{
    field(t, "nbformat").is_some_and(|v| is_number(v, "4"))
        && field(t, "nbformat_minor").is_some_and(|v| is_older_minor(v))
}

fn is_older_minor(v: &Json) -> bool
    ensures { result ≡ raising.is_older_minor v.now }
{
    is_number(v, "0")
        || is_number(v, "1")
        || is_number(v, "2")
        || is_number(v, "3")
        || is_number(v, "4")
}

fn is_number(v: &Json, text: &str) -> bool
    ensures { result ≡ keys.is_number text.now v.now }
{
    match v {
        Json::Num(own) => own.as_str() == text,
        _ => false,
    }
}

fn raised_object(alloc: Global, t: Json) -> Result<Json, NoMemory>
    ensures { IfOk result (λ r. r ≡ raising.raised_object t) }
{
    match t {
        Json::Obj(pairs) => {
            let pairs = raised_pairs(alloc, pairs)?;
            Ok(Json::Obj(pairs))
        }
        other => Ok(other),
    }
}

fn raised_pairs(alloc: Global, pairs: Fields) -> Result<Fields, NoMemory>
    ensures { IfOk result (λ r. r ≡ map raising.raised_pair pairs) }
{
    let mut out = Fields::new(alloc);
    for pair in pairs.into_vec() {
        out.push(raised_pair(alloc, pair)?)?;
    }
    Ok(out)
}

fn raised_pair(alloc: Global, pair: (Text, Json)) -> Result<(Text, Json), NoMemory>
    ensures { IfOk result (λ r. r ≡ raising.raised_pair pair) }
{
    let (key, value) = pair;
    if key.as_str() == "cells" {
        let cells = raised_cells(alloc, value)?;
        Ok((key, cells))
    } else if key.as_str() == "nbformat_minor" {
        let minor = five(alloc)?;
        Ok((key, minor))
    } else {
        Ok((key, value))
    }
}

fn five(alloc: Global) -> Result<Json, NoMemory>
    ensures { IfOk result (λ r. r ≡ json.Num (codes "5")) }
{
    Ok(Json::Num(NumText::of_number(alloc, "5")?))
}

fn raised_cells(alloc: Global, v: Json) -> Result<Json, NoMemory>
    ensures { IfOk result (λ r. r ≡ raising.raised_cells v) }
{
    match v {
        Json::Arr(items) => {
            let items = raised_items(alloc, items)?;
            Ok(Json::Arr(items))
        }
        other => Ok(other),
    }
}

fn raised_items(alloc: Global, items: Items) -> Result<Items, NoMemory>
    ensures { IfOk result (λ r. r ≡ raising.raised_from 0 items) }
{
    let mut out = Items::new(alloc);
    for item in items.into_vec() {
        let cell = raised_cell(alloc, out.len(), item)?;
        out.push(cell)?;
    }
    Ok(out)
}

fn raised_cell(alloc: Global, i: usize, v: Json) -> Result<Json, NoMemory>
    ensures { IfOk result (λ r. r ≡ raising.raised_cell i v) }
{
    if matches!(&v, Json::Obj(_)) {
        let id = Json::Str(new_id(alloc, i)?);
        set_field(alloc, "id", id, v)
    } else {
        Ok(v)
    }
}

fn new_id(alloc: Global, i: usize) -> Result<Text, NoMemory>
    ensures { IfOk result (λ id. id ≡ raising.new_id i) }
{
    let id = format!(in alloc; "cell-{i}")?;
    Ok(Text::of_string(id))
}
