//! Outputs as nbformat writes them.
ghost use Rattle.std.specs.Prelude.{◌≡◌, codes, IfOk, map, None};
ghost use Rattle.jtext.specs.declared.json.Json.TheVariants as json;
ghost use Rattle.nb_model.specs.Tree.{count_tree};
ghost use Rattle.out_fold.specs.Tree as spec;

use crate::bundle::stored_bundle;
use jtext::{Fields, Items, Json, NoMemory, NumText, Text, Texts, copy, object, pair, text_pair};
use nb_model::split_lines;
use std::alloc::Global;

/// `stream`
pub(crate) fn stream_tree(alloc: Global, name: &Text, text: &str) -> Result<Json, NoMemory>
    ensures { IfOk result (λ r. r ≡ spec.stream_tree name.now text.now) }
{
    let lines = split_lines(alloc, text)?;
    let name = text_pair(alloc, "name", name.as_str())?;
    let kind = text_pair(alloc, "output_type", "stream")?;
    let text = pair(alloc, "text", lines)?;
    object(alloc, [name, kind, text])
}

/// `display_data`
pub(crate) fn display_tree(
    alloc: Global,
    bundle: &Fields,
    metadata: &Json,
) -> Result<Json, NoMemory>
    ensures { IfOk result (λ r. r ≡ spec.display_tree
        (record { bundle = bundle.now; metadata = metadata.now; id = None })) }
{
    let bundle = stored_bundle(alloc, bundle)?;
    let metadata = copy(alloc, metadata)?;
    let shown = pair(alloc, "data", bundle)?;
    let about = pair(alloc, "metadata", metadata)?;
    let kind = text_pair(alloc, "output_type", "display_data")?;
    object(alloc, [shown, about, kind])
}

/// `execute_result`
pub(crate) fn result_tree(
    alloc: Global,
    bundle: &Fields,
    metadata: &Json,
    count: &Option<NumText>,
) -> Result<Json, NoMemory>
    ensures { IfOk result (λ r. r ≡ spec.result_tree
        (record { bundle = bundle.now; metadata = metadata.now; id = None }) count.now) }
{
    let bundle = stored_bundle(alloc, bundle)?;
    let metadata = copy(alloc, metadata)?;
    let count = number_or_null(alloc, count)?;
    let shown = pair(alloc, "data", bundle)?;
    let number = pair(alloc, "execution_count", count)?;
    let about = pair(alloc, "metadata", metadata)?;
    let kind = text_pair(alloc, "output_type", "execute_result")?;
    object(alloc, [shown, number, about, kind])
}

fn number_or_null(alloc: Global, count: &Option<NumText>) -> Result<Json, NoMemory>
    ensures { IfOk result (λ r. r ≡ count_tree count.now) }
{
    match count {
        Some(text) => Ok(Json::Num(NumText::of_number(alloc, text.as_str())?)),
        None => Ok(Json::Null),
    }
}

/// `error`
pub(crate) fn error_tree(
    alloc: Global,
    ename: &Text,
    evalue: &Text,
    traceback: &Texts,
) -> Result<Json, NoMemory>
    ensures { IfOk result (λ r. r ≡ spec.error_tree ename.now evalue.now traceback.now) }
{
    let lines = strings(alloc, traceback)?;
    let ename = text_pair(alloc, "ename", ename.as_str())?;
    let evalue = text_pair(alloc, "evalue", evalue.as_str())?;
    let kind = text_pair(alloc, "output_type", "error")?;
    let traceback = pair(alloc, "traceback", lines)?;
    object(alloc, [ename, evalue, kind, traceback])
}

fn strings(alloc: Global, lines: &Texts) -> Result<Json, NoMemory>
    ensures { IfOk result (λ r. r ≡ json.Arr (map (λ l. json.Str l) lines.now)) }
{
    let mut items = Items::new(alloc);
    for line in lines.as_slice() {
        items.push(Json::Str(Text::of(alloc, line.as_str())?))?;
    }
    Ok(Json::Arr(items))
}
