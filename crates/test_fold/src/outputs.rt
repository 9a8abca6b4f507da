//! Outputs, counts and dates after a few messages, written one a line.
ghost use Rattle.std.specs.Prelude.{◌≡◌, ◌<◌};
ghost use Rattle.out_fold.specs.Stands.{cells_of, next_of};

use crate::trees::tree_text;
use jcontent::{Content, Shown, State};
use jtext::{Bytes, Fields, Json, NoMemory, NumText, Text, Texts, write_compact};
use out_fold::Fold;
use std::alloc::Global;
use std::process::Abort;
use std::test::Fail;

fn shown(alloc: Global, key: &str, id: &str, text: &str) -> Result<Shown, NoMemory> {
    let value = Json::Str(Text::of(alloc, text)?);
    let pair = (Text::of(alloc, key)?, value);
    let id = if id.is_empty() {
        None
    } else {
        Some(Text::of(alloc, id)?)
    };
    Ok(Shown {
        bundle: Fields::of_vec(vec![in alloc; pair]?),
        metadata: Json::Obj(Fields::new(alloc)),
        id,
    })
}

fn stream(alloc: Global, name: &str, text: &str) -> Result<Content, NoMemory> {
    let name = Text::of(alloc, name)?;
    let text = Text::of(alloc, text)?;
    Ok(Content::Stream { name, text })
}

fn display(alloc: Global, key: &str, id: &str, text: &str) -> Result<Content, NoMemory> {
    Ok(Content::Display(shown(alloc, key, id, text)?))
}

fn update(alloc: Global, id: &str, text: &str) -> Result<Content, NoMemory> {
    Ok(Content::Update(shown(alloc, "text/plain", id, text)?))
}

fn outcome(alloc: Global, count: &str, text: &str) -> Result<Content, NoMemory> {
    let shown = shown(alloc, "text/plain", "", text)?;
    let count = NumText::of(alloc, count).ok();
    Ok(Content::Outcome { shown, count })
}

fn input(alloc: Global, count: &str) -> Content {
    Content::Input(NumText::of(alloc, count).ok())
}

fn error(alloc: Global, name: &str, text: &str) -> Result<Content, NoMemory> {
    let line = Text::of(alloc, text)?;
    let lines = vec![in alloc; line]?;
    Ok(Content::Error {
        ename: Text::of(alloc, name)?,
        evalue: Text::of(alloc, text)?,
        traceback: Texts::of_vec(lines),
    })
}

/// `stream NAME TEXT`, `show ID TEXT`, `update ID TEXT`, `result COUNT TEXT`, `input COUNT`,
/// `error NAME TEXT`, `data KEY TEXT`, `clear now`, `clear later`, `status idle`.
fn content(alloc: Global, line: &str) -> Result<Content, NoMemory> {
    let (kind, rest) = line.split_once(' ').unwrap_or((line, ""));
    let (first, second) = rest.split_once(' ').unwrap_or((rest, ""));
    match kind {
        "stream" => stream(alloc, first, second),
        "show" => display(alloc, "text/plain", first, second),
        "data" => display(alloc, first, "", second),
        "update" => update(alloc, first, second),
        "result" => outcome(alloc, first, second),
        "input" => Ok(input(alloc, first)),
        "error" => error(alloc, first, second),
        "clear" => Ok(Content::Clear {
            later: first == "later",
        }),
        "status" => Ok(Content::Status(State::Idle)),
        _ => Ok(Content::Other),
    }
}

/// Gives the cell that runs the message of one line.
fn give_line(alloc: Global, fold: &mut Fold, line: &str, date: &Text) -> Result<(), NoMemory>
    requires { 0 < next_of fold.old }
    ensures next { next_of fold.new ≡ next_of fold.old }
    ensures cells { cells_of fold.new ≡ cells_of fold.old }
{
    let content = content(alloc, line)?;
    let end = fold.take(&content, Some(date));
    drop(content);
    end
}

/// Gives the cell that runs the messages of these lines, which `;` parts.
fn give(alloc: Global, fold: &mut Fold, lines: &str) -> Result<(), NoMemory>
    requires { 0 < next_of fold.old }
    ensures next { next_of fold.new ≡ next_of fold.old }
    ensures cells { cells_of fold.new ≡ cells_of fold.old }
{
    let date = Text::of(alloc, "2026-11-27T09:00:00.123456Z")?;
    for line in lines.split(';') {
        give_line(alloc, fold, line, &date)?;
    }
    Ok(())
}

fn outputs_text(alloc: Global, fold: &Fold, cell: u32) -> Result<Bytes, NoMemory>
    requires { cell < cells_of fold.now }
{
    tree_text(alloc, Json::Arr(fold.outputs(cell)?))
}

/// The outputs of the first cell after these messages, which `;` parts.
fn outputs_after(alloc: Global, fold: &mut Fold, lines: &str) -> Result<Bytes, NoMemory>
    requires cells { 0 < cells_of fold.old }
    requires fresh { next_of fold.old ≡ 0 }
{
    fold.start(0);
    give(alloc, fold, lines)?;
    outputs_text(alloc, fold, 0)
}

/// The outputs of one cell after these messages, which `;` parts.
fn outputs_of(alloc: Global, merge: bool, lines: &str) -> Result<Bytes, NoMemory> {
    let mut fold = Fold::new(alloc, 1, merge)?;
    let said = outputs_after(alloc, &mut fold, lines);
    drop(fold);
    said
}

/// The first of the rows `MESSAGES -> OUTPUTS` that doesn't hold of one cell.
fn first_wrong<'a>(alloc: Global, merge: bool, rows: &'a str) -> Result<Option<&'a str>, NoMemory> {
    for row in rows.split('\n') {
        let (messages, outputs) = row.split_once(" -> ").unwrap_or((row, ""));
        let said = outputs_of(alloc, merge, messages)?;
        if said.bytes() != outputs.as_bytes() {
            return Ok(Some(row));
        }
    }
    Ok(None)
}

const CLEARS: &str =
    r#"show x 1;clear later -> [{"data":{"text/plain":["1"]},"metadata":{},"output_type":"display_data"}]
show x 1;clear later;stream o b -> [{"name":"o","output_type":"stream","text":["b"]}]
stream o a;clear later;clear now;stream o b -> [{"name":"o","output_type":"stream","text":["b"]}]
stream o a;clear now -> []
clear now;clear later;stream o a -> [{"name":"o","output_type":"stream","text":["a"]}]
stream o a;clear later;update x 1;status idle -> [{"name":"o","output_type":"stream","text":["a"]}]
update x 1 -> []
clear now -> []
clear later -> []
clear later;clear later;error E v;stream o a -> [{"ename":"E","evalue":"v","output_type":"error","traceback":["v"]},{"name":"o","output_type":"stream","text":["a"]}]
update y 1;clear later;show x 2;update y 3 -> [{"data":{"text/plain":["2"]},"metadata":{},"output_type":"display_data"}]
show x 0;update x 1 -> [{"data":{"text/plain":["1"]},"metadata":{},"output_type":"display_data"}]"#;

const STORED: &str =
    r#"data text/x+json a -> [{"data":{"text/x+json":"a"},"metadata":{},"output_type":"display_data"}]
data image/svg+xml <s> -> [{"data":{"image/svg+xml":["<s>"]},"metadata":{},"output_type":"display_data"}]
data image/png a -> [{"data":{"image/png":"a"},"metadata":{},"output_type":"display_data"}]
input 3;result none 1 -> [{"data":{"text/plain":["1"]},"execution_count":null,"metadata":{},"output_type":"execute_result"}]
error E v -> [{"ename":"E","evalue":"v","output_type":"error","traceback":["v"]}]"#;

const JOINED: &str = r#"stream o a;stream o b -> [{"name":"o","output_type":"stream","text":["ab"]}]
stream o a;stream e b;stream o c -> [{"name":"o","output_type":"stream","text":["a"]},{"name":"e","output_type":"stream","text":["b"]},{"name":"o","output_type":"stream","text":["c"]}]"#;

const UPDATED: &str =
    r#"[{"data":{"text/plain":["9"]},"metadata":{},"output_type":"display_data"},{"data":{"text/plain":["9"]},"metadata":{},"output_type":"display_data"},{"data":{"text/plain":["3"]},"metadata":{},"output_type":"display_data"},{"data":{"text/plain":["0"]},"execution_count":8,"metadata":{},"output_type":"execute_result"}]"#;

#[test]
fn clears_act_as_they_say(rt: HostRuntime) -> Result<(), Fail> {
    let wrong = first_wrong(rt.alloc(), false, CLEARS)?;
    assert!(rt; wrong.is_none(), "{wrong:?}");
    Ok(())
}

#[test]
fn outputs_are_stored_as_nbformat_writes_them(rt: HostRuntime) -> Result<(), Fail> {
    let wrong = first_wrong(rt.alloc(), false, STORED)?;
    assert!(rt; wrong.is_none(), "{wrong:?}");
    Ok(())
}

#[test]
fn neighbouring_streams_of_one_name_are_joined(rt: HostRuntime) -> Result<(), Fail> {
    let wrong = first_wrong(rt.alloc(), true, JOINED)?;
    assert!(rt; wrong.is_none(), "{wrong:?}");
    Ok(())
}

/// Gives the first cell two outputs of a display, and the third one their update.
fn update_from_another_cell(alloc: Global, fold: &mut Fold) -> Result<(), NoMemory>
    requires cells { cells_of fold.old ≡ 3 }
    requires fresh { next_of fold.old ≡ 0 }
    ensures { cells_of fold.new ≡ cells_of fold.old }
{
    fold.start(0);
    give(alloc, fold, "show x 1;show x 2;show y 3;input 7;result 8 0")?;
    fold.start(2);
    give(alloc, fold, "update x 9")?;
    let date = Text::of(alloc, "R")?;
    fold.reply(Some(&date))
}

/// Whether the first cell shows what the third one updated.
fn shows_update(alloc: Global, fold: &mut Fold) -> Result<bool, NoMemory>
    requires cells { cells_of fold.old ≡ 3 }
    requires fresh { next_of fold.old ≡ 0 }
{
    update_from_another_cell(alloc, fold)?;
    let said = outputs_text(alloc, fold, 0)?;
    Ok(said.bytes() == UPDATED.as_bytes())
}

/// Whether an update reaches the outputs of another cell.
fn update_reaches(alloc: Global) -> Result<bool, NoMemory> {
    let mut fold = Fold::new(alloc, 3, false)?;
    let is_updated = shows_update(alloc, &mut fold);
    drop(fold);
    is_updated
}

#[test]
fn an_update_reaches_every_cell(rt: HostRuntime) -> Result<(), Fail> {
    let is_updated = update_reaches(rt.alloc())?;
    assert!(rt; is_updated);
    Ok(())
}

/// The first cell has the count of its result, and the second one none.
fn expect_counts(rt: &impl Abort, alloc: Global, fold: &mut Fold) -> Result<(), Fail>
    requires cells { cells_of fold.old ≡ 3 }
    requires fresh { next_of fold.old ≡ 0 }
{
    update_from_another_cell(alloc, fold)?;
    let count = fold.count(0);
    assert!(rt; count.is_some_and(|n| n.as_str() == "8"));
    assert!(rt; fold.count(1).is_none());
    Ok(())
}

#[test]
fn a_cell_has_the_count_that_was_said_last(rt: HostRuntime) -> Result<(), Fail> {
    let mut fold = Fold::new(rt.alloc(), 3, false)?;
    let end = expect_counts(&rt, rt.alloc(), &mut fold);
    drop(fold);
    end
}

/// The dates of a cell that was begun, was idle and was replied to.
fn dates_text(alloc: Global, fold: &mut Fold) -> Result<Bytes, NoMemory>
    requires cells { cells_of fold.old ≡ 1 }
    requires fresh { next_of fold.old ≡ 0 }
{
    fold.start(0);
    give(alloc, fold, "input 7;status idle")?;
    let date = Text::of(alloc, "R")?;
    fold.reply(Some(&date))?;
    tree_text(alloc, Json::Obj(fold.dates(0)?))
}

fn dates_of_one(alloc: Global) -> Result<Bytes, NoMemory> {
    let mut fold = Fold::new(alloc, 1, false)?;
    let said = dates_text(alloc, &mut fold);
    drop(fold);
    said
}

#[test]
fn dates_are_those_of_the_last_messages(rt: HostRuntime) -> Result<(), Fail> {
    let said = dates_of_one(rt.alloc())?;
    let dates =
        r#"{"iopub.execute_input":"2026-11-27T09:00:00.123456Z","iopub.status.idle":"2026-11-27T09:00:00.123456Z","shell.execute_reply":"R"}"#;
    assert!(rt; said.bytes() == dates.as_bytes());
    Ok(())
}

/// The dates of a cell whose second idle and whose reply have none.
fn dates_without_a_last(alloc: Global, fold: &mut Fold) -> Result<Bytes, NoMemory>
    requires cells { cells_of fold.old ≡ 1 }
    requires fresh { next_of fold.old ≡ 0 }
{
    fold.start(0);
    give(alloc, fold, "input 7;status idle")?;
    fold.take(&Content::Status(State::Idle), None)?;
    fold.reply(None)?;
    tree_text(alloc, Json::Obj(fold.dates(0)?))
}

fn dates_of_an_undated_one(alloc: Global) -> Result<Bytes, NoMemory> {
    let mut fold = Fold::new(alloc, 1, false)?;
    let said = dates_without_a_last(alloc, &mut fold);
    drop(fold);
    said
}

#[test]
fn a_last_message_without_a_date_leaves_no_key(rt: HostRuntime) -> Result<(), Fail> {
    let said = dates_of_an_undated_one(rt.alloc())?;
    let dates = r#"{"iopub.execute_input":"2026-11-27T09:00:00.123456Z"}"#;
    assert!(rt; said.bytes() == dates.as_bytes());
    Ok(())
}

/// Whether a cell that updates an output of the first one touches these two of four, and nothing
/// was touched before.
fn touches_both(alloc: Global, fold: &mut Fold) -> Result<bool, NoMemory>
    requires cells { cells_of fold.old ≡ 4 }
    requires fresh { next_of fold.old ≡ 0 }
{
    fold.start(0);
    give(alloc, fold, "show x 1")?;
    fold.start(1);
    give(alloc, fold, "stream o a")?;
    fold.rest();
    let rested = fold.touched().as_slice().is_empty();
    fold.start(3);
    give(alloc, fold, "update x 2")?;
    Ok(rested && fold.touched().as_slice() == [0u32, 3].as_slice())
}

#[test]
fn an_update_touches_the_cells_that_show_it(rt: HostRuntime) -> Result<(), Fail> {
    let mut fold = Fold::new(rt.alloc(), 4, false)?;
    let both = touches_both(rt.alloc(), &mut fold);
    drop(fold);
    assert!(rt; both?);
    Ok(())
}

/// Whether the cell has that many outputs, and each is this one.
fn all_are(
    alloc: Global,
    fold: &Fold,
    cell: u32,
    outputs: usize,
    one: &str,
) -> Result<bool, NoMemory>
    requires { cell < cells_of fold.now }
{
    let items = fold.outputs(cell)?;
    for item in items.as_slice() {
        let said = write_compact(alloc, item)?;
        if said.bytes() != one.as_bytes() {
            return Ok(false);
        }
    }
    Ok(items.len() == outputs)
}

/// Gives the first of two cells many outputs of one display, and the second one, which updates it,
/// another.
fn update_many(alloc: Global, fold: &mut Fold, outputs: u32) -> Result<(), NoMemory>
    requires cells { cells_of fold.old ≡ 2 }
    requires fresh { next_of fold.old ≡ 0 }
    ensures { cells_of fold.new ≡ cells_of fold.old }
{
    fold.start(0);
    show_often(alloc, fold, outputs)?;
    fold.start(1);
    give(alloc, fold, "show x 2;update y 3;update x 4")
}

/// Gives the cell that runs so many outputs of one display.
fn show_often(alloc: Global, fold: &mut Fold, outputs: u32) -> Result<(), NoMemory>
    requires { 0 < next_of fold.old }
    ensures next { next_of fold.new ≡ next_of fold.old }
    ensures cells { cells_of fold.new ≡ cells_of fold.old }
{
    let show = content(alloc, "show x 1")?;
    let end = give_often(fold, &show, outputs);
    drop(show);
    end
}

/// Gives the cell that runs this message so many times.
fn give_often(fold: &mut Fold, content: &Content, times: u32) -> Result<(), NoMemory>
    requires { 0 < next_of fold.old }
    ensures next { next_of fold.new ≡ next_of fold.old }
    ensures cells { cells_of fold.new ≡ cells_of fold.old }
{
    for given in 0..times {
        fold.take(content, None)?;
    }
    Ok(())
}

const FOUR: &str = r#"{"data":{"text/plain":["4"]},"metadata":{},"output_type":"display_data"}"#;

/// All outputs of both cells show the last update.
fn expect_fours(rt: &impl Abort, alloc: Global, fold: &mut Fold) -> Result<(), Fail>
    requires cells { cells_of fold.old ≡ 2 }
    requires fresh { next_of fold.old ≡ 0 }
{
    update_many(alloc, fold, 10_000)?;
    let first = all_are(alloc, fold, 0, 10_000, FOUR)?;
    assert!(rt; first);
    let second = all_are(alloc, fold, 1, 1, FOUR)?;
    assert!(rt; second);
    Ok(())
}

#[test]
fn ten_thousand_outputs_of_one_display_show_its_last_update(rt: HostRuntime) -> Result<(), Fail> {
    let mut fold = Fold::new(rt.alloc(), 2, false)?;
    let end = expect_fours(&rt, rt.alloc(), &mut fold);
    drop(fold);
    end
}
