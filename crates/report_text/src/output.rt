//! What a page shows of an output.
ghost use Rattle.std.specs.Prelude.{◌≡◌, ◌++◌, OnOk, flat_map, unwrap_or, [], ◌∷◌, if◌then◌else◌};
ghost use Rattle.std.specs.List.{join_by};
ghost use Rattle.std.specs.Option.{option_copied};
ghost use Rattle.std.specs.Ordering.{is_gt};
ghost use Rattle.jtext.specs.declared.json.Json.TheVariants as json;
ghost use Rattle.jtext.specs.Look as look;
ghost use Rattle.jtext.specs.Sorting.{by_key, byte_order};
ghost use Rattle.nb_model.specs.Planned.{joined_text};
ghost use Rattle.nb_model.specs.Reading.{value_at};
ghost use Rattle.report_text.specs.Page as pages;

use crate::escape::put_escaped;
use jtext::{Bytes, Json, NoMemory, Text, field, string_at};
use std::cmp::Ordering;

fn is_of_type(o: &Json, name: &str) -> bool
    ensures { result ≡ pages.is_of_type name.now o.now }
{
    string_at(o, "output_type").is_some_and(|text| text.as_str() == name)
}

/// The class of the output's block.
pub(crate) fn output_class(o: &Json) -> &'static str
    ensures { result.now ≡ pages.output_class o.now }
{
    if is_of_type(o, "stream") {
        "stream"
    } else if is_of_type(o, "error") {
        "error"
    } else {
        "data"
    }
}

/// Appends what the page shows of the output, escaped.
pub(crate) fn put_output(out: &mut Bytes, o: &Json) -> Result<(), NoMemory>
    ensures { OnOk result (out.new ≡ out.old ++ pages.escaped (pages.output_text o.now)) }
{
    if is_of_type(o, "stream") {
        put_stream(out, field(o, "text"))
    } else if is_of_type(o, "error") {
        put_joined(out, items_at(o, "traceback"))
    } else {
        put_display(out, field(o, "data"))
    }
}

/// The items of the list under the key, and none where there is no list.
fn items_at<'a>(o: &'a Json, key: &str) -> &'a [Json]
    ensures { result.now ≡ look.items (value_at key.now o.now) }
{
    match field(o, key) {
        Some(v) => v.items(),
        None => &[],
    }
}

fn put_stream(out: &mut Bytes, text: Option<&Json>) -> Result<(), NoMemory>
    ensures { OnOk result (out.new
        ≡ out.old ++ pages.escaped (joined_text (unwrap_or (option_copied text.entry) json.Null))) }
{
    match text {
        Some(v) => put_multiline(out, v),
        None => Ok(()),
    }
}

fn put_display(out: &mut Bytes, bundle: Option<&Json>) -> Result<(), NoMemory>
    ensures { OnOk result (out.new ≡ out.old
        ++ pages.escaped (pages.data_text (unwrap_or (option_copied bundle.entry) json.Null))) }
{
    match bundle {
        Some(v) => put_data(out, v),
        None => put_name(out, ""),
    }
}

fn put_data(out: &mut Bytes, bundle: &Json) -> Result<(), NoMemory>
    ensures { OnOk result (out.new ≡ out.old ++ pages.escaped (pages.data_text bundle.now)) }
{
    match field(bundle, "text/plain") {
        Some(v) => put_multiline(out, v),
        None => put_name(out, least_key(bundle.pairs())),
    }
}

/// Appends the name of a media type between brackets.
fn put_name(out: &mut Bytes, name: &str) -> Result<(), NoMemory>
    ensures { OnOk result (out.new ≡ out.old ++ pages.escaped (91 ∷ (name.now ++ 93 ∷ []))) }
{
    out.add(b"[")?;
    put_escaped(out, name.as_bytes())?;
    out.add(b"]")?;
    Ok(())
}

/// The least key in the order of bytes, and the empty text where there is no pair.
fn least_key(pairs: &[(Text, Json)]) -> &str
    ensures { result.now ≡ pages.first_key (by_key pairs.now) }
{
    let Some((last, front)) = pairs.split_last() else {
        return "";
    };
    let mut least = last.0.as_str();
    let mut rest = front;
    while let Some((pair, others)) = rest.split_last() {
        least = lesser(pair.0.as_str(), least);
        rest = others;
    }
    least
}

/// The text that comes first in the order of bytes.
fn lesser<'a>(a: &'a str, b: &'a str) -> &'a str
    ensures { result.now ≡ (if is_gt (byte_order a.now b.now) then b.now else a.now) }
{
    match a.cmp(b) {
        Ordering::Greater => b,
        _ => a,
    }
}

/// Appends what a multiline string means, escaped.
pub(crate) fn put_multiline(out: &mut Bytes, v: &Json) -> Result<(), NoMemory>
    ensures { OnOk result (out.new ≡ out.old ++ pages.escaped (joined_text v.now)) }
{
    put_escaped(out, v.text().as_bytes())?;
    for item in v.items() {
        put_escaped(out, item.text().as_bytes())?;
    }
    Ok(())
}

/// Appends the texts with a line end between, escaped.
fn put_joined(out: &mut Bytes, items: &[Json]) -> Result<(), NoMemory>
    ensures { OnOk result (out.new
        ≡ out.old ++ pages.escaped (join_by look.text_of (10 ∷ []) items.now)) }
{
    let Some((first, others)) = items.split_first() else {
        return Ok(());
    };
    put_escaped(out, first.text().as_bytes())?;
    put_others(out, others)
}

/// Appends the texts, each after a line end, escaped.
fn put_others(out: &mut Bytes, items: &[Json]) -> Result<(), NoMemory>
    ensures { OnOk result (out.new ≡ out.old
        ++ pages.escaped (flat_map (λ t. (10 ∷ []) ++ look.text_of t) items.now)) }
{
    for item in items {
        put_other(out, item.text())?;
    }
    Ok(())
}

fn put_other(out: &mut Bytes, text: &str) -> Result<(), NoMemory>
    ensures { OnOk result (out.new ≡ out.old ++ pages.escaped (10 ∷ text.now)) }
{
    out.add(b"\n")?;
    put_escaped(out, text.as_bytes())?;
    Ok(())
}
