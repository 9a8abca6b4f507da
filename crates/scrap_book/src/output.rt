//! The scraps of an output: those of its rows, or that of its bundle.
ghost use Rattle.std.specs.Prelude.{◌≡◌, IfOk, OnOk, flat_map, string_bytes, option_and_then, codes};
ghost use Rattle.std.specs.Option.{option_copied};
ghost use Rattle.jtext.specs.Look as look;
ghost use Rattle.nb_model.specs.Keys.{is_text, has};
ghost use Rattle.nb_model.specs.Planned.{joined_text};
ghost use Rattle.nb_model.specs.Reading.{value_at};
ghost use Rattle.report_text.specs.Page.{is_of_type};
ghost use Rattle.report_text.specs.Rows.{rows};
ghost use Rattle.scrap_book.specs.Merging.{with_pairs};
ghost use Rattle.scrap_book.specs.Scraps as spec;

use crate::row::{scrap_texts, split_row};
use jtext::{Fields, Json, NoMemory, Text, copy, field, set_pair, string_at};
use std::alloc::Global;
use words::value_of;

/// The media type under which scrapbook records a scrap.
const SCRAP_TYPE: &str = "application/scrapbook.scrap.json+json";

/// Sets the scraps of the output, a later value of a name in the place of the earlier one.
/// The place is looked for pair by pair, since a notebook has few scraps.
pub(crate) fn put_output(alloc: Global, found: &mut Fields, o: &Json) -> Result<(), NoMemory>
    ensures { OnOk result (found.new ≡ with_pairs found.old (spec.output_scraps o.now)) }
{
    if is_of_type(o, "stream") {
        put_stream(alloc, found, o)
    } else if is_of_type(o, "display_data") || is_of_type(o, "execute_result") {
        put_bundle(alloc, found, field(o, "data"))
    } else {
        Ok(())
    }
}

fn is_of_type(o: &Json, name: &str) -> bool
    ensures { result ≡ is_of_type name.now o.now }
{
    string_at(o, "output_type").is_some_and(|text| text.as_str() == name)
}

fn is_stdout(o: &Json) -> bool
    ensures { result ≡ has (codes "name") (is_text (codes "stdout")) o.now }
{
    string_at(o, "name").is_some_and(|text| text.as_str() == "stdout")
}

fn put_stream(alloc: Global, found: &mut Fields, o: &Json) -> Result<(), NoMemory>
    ensures { OnOk result (found.new ≡ with_pairs found.old (spec.stream_scraps o.now)) }
{
    if !is_stdout(o) {
        return Ok(());
    }
    match field(o, "text") {
        Some(v) => {
            let text = joined_text(alloc, v)?;
            put_rows(alloc, found, text.as_str())
        }
        None => Ok(()),
    }
}

/// What a multiline string means.
fn joined_text(alloc: Global, v: &Json) -> Result<Text, NoMemory>
    ensures { IfOk result (λ text. text ≡ joined_text v.now) }
{
    let mut text = String::from_str(alloc, v.text())?;
    for item in v.items() {
        text.push_str(item.text())?;
    }
    Ok(Text::of_string(text))
}

fn put_rows(alloc: Global, found: &mut Fields, text: &str) -> Result<(), NoMemory>
    ensures { OnOk result (found.new
        ≡ with_pairs found.old (flat_map spec.row_scraps (rows text.now))) }
{
    let mut rest = text;
    while let Some((row, after)) = split_row(rest) {
        put_row(alloc, found, row)?;
        rest = after;
    }
    Ok(())
}

fn put_row(alloc: Global, found: &mut Fields, row: &str) -> Result<(), NoMemory>
    ensures { OnOk result (found.new ≡ with_pairs found.old (spec.row_scraps row.now)) }
{
    match scrap_texts(row) {
        Some((name, text)) => {
            let value = value_of(alloc, text)?;
            set_pair(alloc, found, name, value)
        }
        None => Ok(()),
    }
}

fn put_bundle(alloc: Global, found: &mut Fields, bundle: Option<&Json>) -> Result<(), NoMemory>
    ensures { OnOk result (found.new
        ≡ with_pairs found.old (spec.bundle_scraps (option_copied bundle.entry))) }
{
    let Some(bundle) = bundle else {
        return Ok(());
    };
    match field(bundle, SCRAP_TYPE) {
        Some(recorded) => put_recorded(alloc, found, recorded),
        None => Ok(()),
    }
}

/// Sets the scrap that scrapbook's record gives.
fn put_recorded(alloc: Global, found: &mut Fields, recorded: &Json) -> Result<(), NoMemory>
    ensures { OnOk result (found.new ≡ with_pairs found.old (spec.recorded_scraps recorded.now)) }
{
    let Some(name) = string_at(recorded, "name") else {
        return Ok(());
    };
    match field(recorded, "data") {
        Some(data) => {
            let value = copy(alloc, data)?;
            set_pair(alloc, found, name.as_str(), value)
        }
        None => Ok(()),
    }
}
