//! What a cell publishes (Jupyter messaging 5.3, "Messages on the IOPub (PUB/SUB) channel").
ghost use Rattle.std.specs.Prelude.{◌≡◌, ◌++◌, ◌∷◌, [], IfOk, OnOk};
ghost use Rattle.jtext.specs.declared.json.Json.TheVariants as json;
ghost use Rattle.toy_lang.specs.ToyOut as out;

use crate::note::Saying;
use jtext::{
    Fields, Items, Json, NoMemory, NumText, Text, object, pair, put_text, string, text_pair,
};
use std::alloc::Global;

/// `status` with an execution state.
pub(crate) fn status(alloc: Global, state: &str) -> Result<Saying, NoMemory>
    ensures { IfOk result (λ m. m ≡ out.status state.now) }
{
    let state = text_pair(alloc, "execution_state", state)?;
    only(alloc, "status", state)
}

/// A key with the object of this one pair.
fn only(alloc: Global, key: &str, one: (Text, Json)) -> Result<(Text, Json), NoMemory>
    ensures { IfOk result (λ p. p ≡ (key.now, json.Obj (one ∷ []))) }
{
    pair(alloc, key, object(alloc, [one])?)
}

/// `execute_input` for this code, with the count of the cell.
pub(crate) fn input(alloc: Global, code: &Text, count: u64) -> Result<Saying, NoMemory>
    ensures { IfOk result (λ m. m ≡ out.input code.now count) }
{
    let code = text_pair(alloc, "code", code.as_str())?;
    let count = count_pair(alloc, count)?;
    pair(alloc, "execute_input", object(alloc, [code, count])?)
}

/// `execution_count` and its value.
pub(crate) fn count_pair(alloc: Global, count: u64) -> Result<(Text, Json), NoMemory>
    ensures { IfOk result (λ p. p ≡ out.count_pair count) }
{
    let digits = format!(in alloc; "{count}")?;
    let number = NumText::of_number(alloc, digits.as_str())?;
    pair(alloc, "execution_count", Json::Num(number))
}

/// `stream` with this text: of standard error, or else of standard output.
pub(crate) fn stream(alloc: Global, err: bool, text: Text) -> Result<Saying, NoMemory>
    ensures { IfOk result (λ m. m ≡ out.stream err text) }
{
    let name = text_pair(alloc, "name", stream_name(err))?;
    let text = pair(alloc, "text", Json::Str(text))?;
    pair(alloc, "stream", object(alloc, [name, text])?)
}

fn stream_name(err: bool) -> &'static str
    ensures { result.now ≡ out.stream_name err }
{
    if err { "stderr" } else { "stdout" }
}

/// `display_data`, or `update_display_data`, of plain text under a display id.
pub(crate) fn display(alloc: Global, id: Text, text: Text, update: bool) -> Result<Saying, NoMemory>
    ensures { IfOk result (λ m. m ≡ out.display id text update) }
{
    let data = data_of(alloc, text)?;
    let metadata = metadata(alloc)?;
    let transient = transient(alloc, id)?;
    let content = object(alloc, [data, metadata, transient])?;
    pair(alloc, display_kind(update), content)
}

fn display_kind(update: bool) -> &'static str
    ensures { result.now ≡ out.display_kind update }
{
    if update {
        "update_display_data"
    } else {
        "display_data"
    }
}

/// `data`: plain text alone.
fn data_of(alloc: Global, text: Text) -> Result<(Text, Json), NoMemory>
    ensures { IfOk result (λ p. p ≡ out.data_of text) }
{
    let plain = pair(alloc, "text/plain", Json::Str(text))?;
    only(alloc, "data", plain)
}

/// `metadata`, which is empty.
fn metadata(alloc: Global) -> Result<(Text, Json), NoMemory>
    ensures { IfOk result (λ p. p ≡ out.metadata) }
{
    pair(alloc, "metadata", Json::Obj(Fields::new(alloc)))
}

/// `transient`: the display id.
fn transient(alloc: Global, id: Text) -> Result<(Text, Json), NoMemory>
    ensures { IfOk result (λ p. p ≡ out.transient id) }
{
    let id = pair(alloc, "display_id", Json::Str(id))?;
    only(alloc, "transient", id)
}

/// `clear_output`: with the next output where `later` is set, and else at once.
pub(crate) fn clear(alloc: Global, later: bool) -> Result<Saying, NoMemory>
    ensures { IfOk result (λ m. m ≡ out.clear later) }
{
    let wait = pair(alloc, "wait", Json::Bool(later))?;
    only(alloc, "clear_output", wait)
}

/// `execute_result` of plain text, with the count of the cell.
pub(crate) fn outcome(alloc: Global, count: u64, text: Text) -> Result<Saying, NoMemory>
    ensures { IfOk result (λ m. m ≡ out.outcome count text) }
{
    let count = count_pair(alloc, count)?;
    let data = data_of(alloc, text)?;
    let metadata = metadata(alloc)?;
    pair(
        alloc,
        "execute_result",
        object(alloc, [count, data, metadata])?,
    )
}

/// `error`, with a traceback of one line.
pub(crate) fn error(alloc: Global, ename: &Text, evalue: &Text) -> Result<Saying, NoMemory>
    ensures { IfOk result (λ m. m ≡ out.error ename.now evalue.now) }
{
    let mut fields = Fields::new(alloc);
    put_error(alloc, &mut fields, ename, evalue)?;
    pair(alloc, "error", Json::Obj(fields))
}

/// Appends an error's name, its value, and a traceback of the one string that has both.
pub(crate) fn put_error(
    alloc: Global,
    fields: &mut Fields,
    ename: &Text,
    evalue: &Text,
) -> Result<(), NoMemory>
    ensures { OnOk result (fields.new ≡
        fields.old ++ out.error_fields ename.now evalue.now) }
{
    put_text(alloc, fields, "ename", ename.as_str())?;
    put_text(alloc, fields, "evalue", evalue.as_str())?;
    fields.push(traceback(alloc, ename, evalue)?)
}

/// `traceback`: the one string that has both.
fn traceback(alloc: Global, ename: &Text, evalue: &Text) -> Result<(Text, Json), NoMemory>
    ensures { IfOk result (λ p. p ≡ out.traceback ename.now evalue.now) }
{
    let mut line = String::new(alloc);
    line.push_str(ename.as_str())?;
    line.push_str(": ")?;
    line.push_str(evalue.as_str())?;
    let mut lines = Items::new(alloc);
    lines.push(Json::Str(Text::of_string(line)))?;
    pair(alloc, "traceback", Json::Arr(lines))
}
