//! What is held, as it is saved.
ghost use Rattle.std.specs.Prelude.{◌≡◌, ◌≤◌, ◌∷◌, ◌++◌, length, drop, map, IfOk, OnOk};
ghost use Rattle.std.specs.Option.{option_copied, option_and_then};
ghost use Rattle.out_fold.specs.Shown.{resolve, known_to};
ghost use Rattle.out_fold.specs.Joined.{join};
ghost use Rattle.out_fold.specs.Tree as tree;
ghost use Rattle.out_fold.specs.Cells as cells;
ghost use Rattle.out_fold.specs.Cells.{joined_where, date_pair};
ghost use Rattle.out_fold.specs.Held.{data_of};

use crate::folded::Folded;
use crate::joining::{run_len, run_text};
use crate::latest::{Data, Latest};
use crate::tree::{display_tree, error_tree, result_tree, stream_tree};
use jcontent::{Content, Shown};
use jtext::{Fields, Items, Json, NoMemory, Text, put_text};
use std::alloc::Global;

/// The outputs as trees, with the data that are known of their display ids.
pub(crate) fn output_items(
    alloc: Global,
    outputs: &[Content],
    latest: &Latest,
    merge: bool,
) -> Result<Items, NoMemory>
    ensures { IfOk result (λ r. r ≡ map
        (λ c. tree.output_tree (resolve (data_of latest.now) c))
        (joined_where merge outputs.now)) }
{
    if merge {
        joined_items(alloc, outputs, latest)
    } else {
        plain_items(alloc, outputs, latest)
    }
}

fn plain_items(alloc: Global, outputs: &[Content], latest: &Latest) -> Result<Items, NoMemory>
    ensures { IfOk result (λ r. r ≡ map
        (λ c. tree.output_tree (resolve (data_of latest.now) c)) outputs.now) }
{
    let mut items = Items::new(alloc);
    for c in outputs {
        items.push(item(alloc, c, latest)?)?;
    }
    Ok(items)
}

fn joined_items(alloc: Global, outputs: &[Content], latest: &Latest) -> Result<Items, NoMemory>
    ensures { IfOk result (λ r. r ≡ map
        (λ c. tree.output_tree (resolve (data_of latest.now) c)) (join outputs.now)) }
{
    let mut items = Items::new(alloc);
    let mut rest = outputs;
    while let Some((first, after)) = rest.split_first() {
        let (item, taken) = joined_item(alloc, first, after, latest)?;
        items.push(item)?;
        let (_, left) = after.split_at(taken);
        rest = left;
    }
    Ok(items)
}

/// The first output, with the streams of its name that follow it, and how many these are.
fn joined_item(
    alloc: Global,
    first: &Content,
    after: &[Content],
    latest: &Latest,
) -> Result<(Json, usize), NoMemory>
    ensures within { IfOk result (λ r. r.1 ≤ length after.now) }
    ensures first { IfOk result (λ r. map
        (λ c. tree.output_tree (resolve (data_of latest.now) c)) (join (first.now ∷ after.now))
        ≡ r.0 ∷ map (λ c. tree.output_tree (resolve (data_of latest.now) c))
        (join (drop r.1 after.now))) }
{
    match first {
        Content::Stream { name, text } => {
            let run = run_len(after, name);
            let joined = run_text(alloc, text, &after[..run])?;
            let tree = stream_tree(alloc, name, joined.as_str())?;
            Ok((tree, run))
        }
        _ => Ok((item(alloc, first, latest)?, 0)),
    }
}

fn item(alloc: Global, c: &Content, latest: &Latest) -> Result<Json, NoMemory>
    ensures { IfOk result (λ r. r ≡ tree.output_tree (resolve (data_of latest.now) c.now)) }
{
    match c {
        Content::Stream { name, text } => stream_tree(alloc, name, text.as_str()),
        Content::Display(shown) => display_tree(
            alloc,
            bundle_of(shown, latest),
            metadata_of(shown, latest),
        ),
        Content::Outcome { shown, count } => result_tree(
            alloc,
            bundle_of(shown, latest),
            metadata_of(shown, latest),
            count,
        ),
        Content::Error {
            ename,
            evalue,
            traceback,
        } => error_tree(alloc, ename, evalue, traceback),
        _ => Ok(Json::Null),
    }
}

fn bundle_of<'a>(shown: &'a Shown, latest: &'a Latest) -> &'a Fields
    ensures { result.now ≡ (known_to (data_of latest.now) shown.now).bundle }
{
    match known_data(shown, latest) {
        Some(data) => &data.bundle,
        None => &shown.bundle,
    }
}

fn metadata_of<'a>(shown: &'a Shown, latest: &'a Latest) -> &'a Json
    ensures { result.now ≡ (known_to (data_of latest.now) shown.now).metadata }
{
    match known_data(shown, latest) {
        Some(data) => &data.metadata,
        None => &shown.metadata,
    }
}

fn known_data<'a>(shown: &'a Shown, latest: &'a Latest) -> Option<&'a Data>
    ensures { option_copied result ≡ option_and_then (data_of latest.now) shown.now.id }
{
    match &shown.id {
        Some(id) => latest.get(id),
        None => None,
    }
}

/// The dates that are held of a cell, those that there are.
pub(crate) fn date_fields(alloc: Global, held: &Folded) -> Result<Fields, NoMemory>
    ensures { IfOk result (λ r. r ≡ cells.date_pairs held.now.input held.now.busy held.now.idle
        held.now.reply) }
{
    let (input, busy) = (held.input.as_ref(), held.busy.as_ref());
    date_pairs(alloc, input, busy, held.idle.as_ref(), held.reply.as_ref())
}

/// The dates of a cell by kind, those that there are.
pub(crate) fn date_pairs(
    alloc: Global,
    input: Option<&Text>,
    busy: Option<&Text>,
    idle: Option<&Text>,
    reply: Option<&Text>,
) -> Result<Fields, NoMemory>
    ensures { IfOk result (λ r. r ≡ cells.date_pairs (option_copied input.entry)
        (option_copied busy.entry) (option_copied idle.entry) (option_copied reply.entry)) }
{
    let mut fields = Fields::new(alloc);
    put_date(alloc, &mut fields, "iopub.execute_input", input)?;
    put_date(alloc, &mut fields, "iopub.status.busy", busy)?;
    put_date(alloc, &mut fields, "iopub.status.idle", idle)?;
    put_date(alloc, &mut fields, "shell.execute_reply", reply)?;
    Ok(fields)
}

fn put_date(
    alloc: Global,
    fields: &mut Fields,
    key: &str,
    date: Option<&Text>,
) -> Result<(), NoMemory>
    ensures { OnOk result (fields.new
        ≡ fields.old ++ date_pair key.now (option_copied date.entry)) }
{
    match date {
        Some(text) => put_text(alloc, fields, key, text.as_str()),
        None => Ok(()),
    }
}
