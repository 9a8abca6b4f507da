//! The parts of a cell that a run changes, and how they are put into it.
ghost use Rattle.std.specs.Prelude.{◌≡◌, ◌<◌, length, slice_get, slice_set, codes, Some, IfOk};
ghost use Rattle.std.specs.Option.{option_copied};
ghost use Rattle.jtext.specs.declared.json.Json.TheVariants as json;
ghost use Rattle.jtext.specs.Edit.{set_field};
ghost use Rattle.nb_model.specs.declared.cell.Cell as whole;
ghost use Rattle.progress_save.specs.Prefix as prefixes;

use jtext::{Fields, Items, Json, NoMemory, NumText, Text, copy, set_field, set_within};
use nb_model::{Cell, Cells, Kind};
use std::alloc::Global;

/// The metadata with the mark of a settled cell: Papermill's status, and whether the run stopped at
/// it.
pub(crate) fn with_mark(alloc: Global, stopped: bool, metadata: Json) -> Result<Json, NoMemory>
    ensures { IfOk result (λ m. m ≡ prefixes.with_mark stopped metadata) }
{
    let status = if stopped { "failed" } else { "completed" };
    let exception = Json::Bool(stopped);
    let metadata = set_within(alloc, "papermill", "exception", exception, metadata)?;
    let status = Json::Str(Text::of(alloc, status)?);
    set_within(alloc, "papermill", "status", status, metadata)
}

/// A copy of the metadata with these dates as its `execution`.
pub(crate) fn with_dates(alloc: Global, dates: Fields, metadata: &Json) -> Result<Json, NoMemory>
    ensures { IfOk result (λ m. m ≡ set_field (codes "execution") (json.Obj dates) metadata.now) }
{
    set_field(alloc, "execution", Json::Obj(dates), copy(alloc, metadata)?)
}

/// A copy of the count.
pub(crate) fn copy_count(
    alloc: Global,
    count: Option<&NumText>,
) -> Result<Option<NumText>, NoMemory>
    ensures { IfOk result (λ r. r ≡ option_copied count.entry) }
{
    match count {
        Some(count) => Ok(Some(NumText::of_number(alloc, count.as_str())?)),
        None => Ok(None),
    }
}

/// Gives the cell at this index other metadata. It takes no memory.
pub(crate) fn put_metadata(alloc: Global, cells: &mut Cells, i: usize, metadata: Json)
    requires { i < length cells.old }
    ensures cell { (c : whole.Cell) → slice_get cells.old i ≡ Some c →
        cells.new ≡ slice_set cells.old i (record c { metadata = metadata }) }
    ensures count { length cells.new ≡ length cells.old }
{
    let mut cell = cells.put(i, blank_cell(alloc));
    cell.metadata = metadata;
    let _ = cells.put(i, cell);
}

/// Gives the cell at this index other outputs, another count and other metadata. It takes no
/// memory.
pub(crate) fn put_run(
    alloc: Global,
    cells: &mut Cells,
    i: usize,
    outputs: Items,
    count: Option<NumText>,
    metadata: Json,
)
    requires { i < length cells.old }
    ensures cell { (c : whole.Cell) → slice_get cells.old i ≡ Some c →
        cells.new ≡ slice_set cells.old i
        (record c { outputs = outputs; count = count; metadata = metadata }) }
    ensures count { length cells.new ≡ length cells.old }
{
    let mut cell = cells.put(i, blank_cell(alloc));
    cell.outputs = outputs;
    cell.count = count;
    cell.metadata = metadata;
    let _ = cells.put(i, cell);
}

/// What holds a cell's place while the cell is out of its list.
fn blank_cell(alloc: Global) -> Cell {
    Cell {
        kind: Kind::Raw,
        id: Text::new(alloc),
        metadata: Json::Null,
        source: Json::Null,
        attachments: None,
        outputs: Items::new(alloc),
        count: None,
    }
}
