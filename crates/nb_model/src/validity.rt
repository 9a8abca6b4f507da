//! The plain test of the nbformat 4.5 schema, as the definition states it.
ghost use Rattle.std.specs.Prelude.{◌≡◌, ◌&&◌, ◌∷◌, [], codes, map};
ghost use Rattle.std.specs.List.{list_any, list_all};
ghost use Rattle.std.specs.Str.{bytes_eq};
ghost use Rattle.jtext.specs.Find.{fields};
ghost use Rattle.jtext.specs.Look as look;
ghost use Rattle.jtext.specs.Bundle.{is_bundle};
ghost use Rattle.nb_model.specs.Schema as schema;
ghost use Rattle.nb_model.specs.Keys as keys;
ghost use Rattle.nb_model.specs.Values as values;
ghost use Rattle.nb_model.specs.Valid as valid;

use crate::key_lists;
use jtext::{Json, Text, field, is_bundle, is_multiline, is_whole_text, string_at};

/// Whether the tree is a notebook of format 4.5, however deep it is nested.
/// It takes no memory, and compares each id with each other one.
pub fn is_valid(t: &Json) -> bool
    ensures { result ≡ valid.is_notebook t.now }
{
    t.is_object()
        && has_notebook_keys(t)
        && has_version(t)
        && field(t, "metadata").is_some_and(|v| is_metadata(v))
        && field(t, "cells").is_some_and(|v| are_cells(v))
}

fn has_notebook_keys(t: &Json) -> bool
    ensures { result ≡ keys.has_only schema.notebook_keys t.now }
{
    has_only(t, &key_lists::NOTEBOOK)
}

pub(crate) fn has_version(t: &Json) -> bool
    ensures { result ≡ keys.has_version t.now }
{
    field(t, "nbformat").is_some_and(|v| is_number(v, "4"))
        && field(t, "nbformat_minor").is_some_and(|v| is_number(v, "5"))
}

pub(crate) fn is_metadata(v: &Json) -> bool
    ensures { result ≡ valid.is_metadata v.now }
{
    v.is_object()
        && field(v, "kernelspec").is_none_or(|k| is_kernelspec(k))
        && field(v, "language_info").is_none_or(|l| is_language_info(l))
}

pub(crate) fn is_kernelspec(v: &Json) -> bool
    ensures { result ≡ valid.is_kernelspec v.now }
{
    v.is_object() && has_string(v, "name") && has_string(v, "display_name")
}

pub(crate) fn is_language_info(v: &Json) -> bool
    ensures { result ≡ valid.is_language_info v.now }
{
    v.is_object() && has_string(v, "name")
}

// ---- cells

pub(crate) fn are_cells(v: &Json) -> bool
    ensures { result ≡ valid.are_cells v.now }
{
    match v {
        Json::Arr(items) => all_cells(items.as_slice()) && ids_differ(items.as_slice()),
        _ => false,
    }
}

fn all_cells(items: &[Json]) -> bool
    ensures { result ≡ list_all valid.is_cell items.now }
{
    items.iter().all(|item| is_cell(item))
}

pub(crate) fn is_cell(c: &Json) -> bool
    ensures { result ≡ valid.is_cell c.now }
{
    c.is_object() && (is_prose_cell(c) || is_code_cell(c))
}

pub(crate) fn is_prose_cell(c: &Json) -> bool
    ensures { result ≡ valid.is_prose_cell c.now }
{
    field(c, "cell_type").is_some_and(|v| is_text(v, "raw") || is_text(v, "markdown"))
        && has_prose_keys(c)
        && has_common(c)
        && field(c, "attachments").is_none_or(|v| are_attachments(v))
}

fn has_prose_keys(c: &Json) -> bool
    ensures { result ≡ keys.has_only schema.prose_cell_keys c.now }
{
    has_only(c, &key_lists::PROSE_CELL)
}

pub(crate) fn is_code_cell(c: &Json) -> bool
    ensures { result ≡ valid.is_code_cell c.now }
{
    field(c, "cell_type").is_some_and(|v| is_text(v, "code"))
        && has_code_keys(c)
        && has_common(c)
        && field(c, "outputs").is_some_and(|v| are_outputs(v))
        && field(c, "execution_count").is_some_and(|v| is_count(v))
}

fn has_code_keys(c: &Json) -> bool
    ensures { result ≡ keys.has_only schema.code_cell_keys c.now }
{
    has_only(c, &key_lists::CODE_CELL)
}

fn has_common(c: &Json) -> bool
    ensures { result ≡ valid.has_common c.now }
{
    field(c, "id").is_some_and(|v| is_id(v))
        && field(c, "metadata").is_some_and(|v| is_cell_metadata(v))
        && field(c, "source").is_some_and(|v| is_multiline(v))
}

pub(crate) fn is_cell_metadata(v: &Json) -> bool
    ensures { result ≡ valid.is_cell_metadata v.now }
{
    v.is_object() && field(v, "tags").is_none_or(|tags| tags.is_strings())
}

pub(crate) fn are_attachments(v: &Json) -> bool
    ensures { result ≡ valid.are_attachments v.now }
{
    match v {
        Json::Obj(fields) => all_bundles(fields.as_slice()),
        _ => false,
    }
}

fn all_bundles(pairs: &[(Text, Json)]) -> bool
    ensures { result ≡ list_all (λ p. is_bundle p.1) pairs.now }
{
    pairs.iter().all(|p| is_bundle(&p.1))
}

pub(crate) fn id_of(c: &Json) -> &str
    ensures { result.now ≡ valid.id_of c.now }
{
    match string_at(c, "id") {
        Some(id) => id.as_str(),
        None => "",
    }
}

/// Whether no two of the cells have one id.
fn ids_differ(cells: &[Json]) -> bool
    ensures { result ≡ valid.ids_differ cells.now }
{
    let mut rest = cells;
    while let Some((first, others)) = rest.split_first() {
        if has_id(others, id_of(first)) {
            return false;
        }
        rest = others;
    }
    true
}

fn has_id(cells: &[Json], id: &str) -> bool
    ensures { result ≡ list_any (λ d. bytes_eq id.now (valid.id_of d)) cells.now }
{
    cells.iter().any(|c| id == id_of(c))
}

// ---- outputs

pub(crate) fn are_outputs(v: &Json) -> bool
    ensures { result ≡ valid.are_outputs v.now }
{
    match v {
        Json::Arr(items) => all_outputs(items.as_slice()),
        _ => false,
    }
}

fn all_outputs(items: &[Json]) -> bool
    ensures { result ≡ list_all valid.is_output items.now }
{
    items.iter().all(|item| is_output(item))
}

pub(crate) fn is_output(o: &Json) -> bool
    ensures { result ≡ valid.is_output o.now }
{
    o.is_object() && (is_stream(o) || is_display(o) || is_result(o) || is_error(o))
}

pub(crate) fn has_type(o: &Json, name: &str) -> bool
    ensures { result ≡ keys.has (codes "output_type") (keys.is_text name.now) o.now }
{
    field(o, "output_type").is_some_and(|v| is_text(v, name))
}

pub(crate) fn is_stream(o: &Json) -> bool
    ensures { result ≡ valid.is_stream o.now }
{
    has_type(o, "stream")
        && has_only(o, &key_lists::STREAM)
        && has_string(o, "name")
        && field(o, "text").is_some_and(|v| is_multiline(v))
}

pub(crate) fn is_display(o: &Json) -> bool
    ensures { result ≡ valid.is_display o.now }
{
    has_type(o, "display_data") && has_only(o, &key_lists::DISPLAY) && has_data(o)
}

fn has_data(o: &Json) -> bool
    ensures { result
        ≡ (keys.has (codes "data") is_bundle o.now
        && keys.has (codes "metadata") look.is_object o.now) }
{
    field(o, "data").is_some_and(|v| is_bundle(v))
        && field(o, "metadata").is_some_and(|v| v.is_object())
}

pub(crate) fn is_result(o: &Json) -> bool
    ensures { result ≡ valid.is_result o.now }
{
    has_type(o, "execute_result")
        && has_only(o, &key_lists::RESULT)
        && has_data(o)
        && field(o, "execution_count").is_some_and(|v| is_count(v))
}

pub(crate) fn is_error(o: &Json) -> bool
    ensures { result ≡ valid.is_error o.now }
{
    has_type(o, "error")
        && has_only(o, &key_lists::ERROR)
        && has_string(o, "ename")
        && has_string(o, "evalue")
        && field(o, "traceback").is_some_and(|v| v.is_strings())
}

// ---- values

pub(crate) fn is_text(v: &Json, text: &str) -> bool
    ensures { result ≡ keys.is_text text.now v.now }
{
    v.as_text().is_some_and(|s| s.as_str() == text)
}

pub(crate) fn is_number(v: &Json, text: &str) -> bool
    ensures { result ≡ keys.is_number text.now v.now }
{
    v.as_number().is_some_and(|s| s.as_str() == text)
}

fn has_string(t: &Json, key: &str) -> bool
    ensures { result ≡ keys.has key.now look.is_string t.now }
{
    field(t, key).is_some_and(|v| v.is_string())
}

pub(crate) fn is_among(key: &str, keys: &[&str]) -> bool
    ensures { result ≡ list_any (λ k. bytes_eq key.now k.now) keys.now }
{
    keys.iter().any(|k| key == *k)
}

fn has_only(t: &Json, keys: &[&str]) -> bool
    ensures { result ≡ list_all (λ p. list_any (λ k. bytes_eq p.0 k.now) keys.now) (fields t.now) }
{
    all_among(t.pairs(), keys)
}

fn all_among(pairs: &[(Text, Json)], keys: &[&str]) -> bool
    ensures { result ≡ list_all (λ p. list_any (λ k. bytes_eq p.0 k.now) keys.now) pairs.now }
{
    pairs.iter().all(|p| is_among(p.0.as_str(), keys))
}

pub(crate) fn is_count(v: &Json) -> bool
    ensures { result ≡ values.is_count v.now }
{
    match v {
        Json::Null => true,
        Json::Num(n) => is_whole_text(n.as_str().as_bytes()),
        _ => false,
    }
}

pub(crate) fn is_id(v: &Json) -> bool
    ensures { result ≡ valid.is_id v.now }
{
    v.as_text().is_some_and(|id| is_id_text(id.bytes()))
}

pub(crate) fn is_id_text(text: &[u8]) -> bool
    ensures { result ≡ values.is_id_text text.now }
{
    1 <= text.len() && text.len() <= 64 && all_id_bytes(text)
}

fn all_id_bytes(text: &[u8]) -> bool
    ensures { result ≡ list_all values.is_id_byte text.now }
{
    text.iter().all(|c| is_id_byte(*c))
}

pub(crate) fn is_id_byte(c: u8) -> bool
    ensures { result ≡ values.is_id_byte c }
{
    matches!(c, b'a'..=b'z' | b'A'..=b'Z' | b'0'..=b'9' | b'-' | b'_')
}
