//! Saves that make the texts of some cells alone.
ghost use Rattle.std.specs.Prelude.{◌≡◌, ◌<◌, length};
ghost use Rattle.progress_save.specs.State.{Fits};

use crate::notebooks::prepared;
use crate::saves::{begin, disk, left_at, save};
use crate::seen::SeenDisk;
use jtext::Text;
use nb_model::{Cell, Notebook};
use progress_save::{Progress, laws};
use std::test::Fail;

/// Puts another cell in place of the second one, and marks it.
fn change(progress: &mut Progress, n: &mut Notebook, cell: Cell)
    requires second { 1 < length n.old.cells }
    requires kept { Fits progress.old n.old.cells }
    ensures { Fits progress.new n.new.cells }
{
    laws::kept_texts_fit();
    progress.mark(1);
    let _ = n.cells.put(1, cell);
}

/// The second cell under another id.
fn other_cell(rt: &HostRuntime) -> Result<Cell, Fail> {
    let mut notebook = prepared(rt)?;
    if notebook.cells.len() != 2 {
        return Err("another notebook".into());
    }
    let mut cell = notebook.cells.take(1);
    cell.id = Text::of(rt.alloc(), "c")?;
    Ok(cell)
}

// Saves the notebook with its own second cell and with the other one: what is left then.
fn saves_both<W: SeenDisk>(
    w: &mut W,
    rt: &HostRuntime,
    progress: &mut Progress,
    path: &Text,
    n: &mut Notebook,
) -> Result<&'static str, Fail>
    requires second { 1 < length n.old.cells }
    requires kept { Fits progress.old n.old.cells }
{
    if save(progress, w, n, 0) != Ok(()) {
        return Ok("not saved");
    }
    change(progress, n, other_cell(rt)?);
    if save(progress, w, n, 0) != Ok(()) {
        return Ok("not saved again");
    }
    Ok(left_at(rt.alloc(), w, path, n)?)
}

// The same with a progress that is begun for it.
fn saves_twice<W: SeenDisk>(
    w: &mut W,
    rt: &HostRuntime,
    n: &mut Notebook,
) -> Result<&'static str, Fail>
    requires { 1 < length n.old.cells }
{
    let path = Text::of(rt.alloc(), "o")?;
    let mut progress = begin(rt.alloc(), &path, n)?;
    let left = saves_both(w, rt, &mut progress, &path, n);
    drop(progress);
    left
}

#[test]
fn a_marked_cell_has_its_new_text(rt: HostRuntime) -> Result<(), Fail> {
    let mut notebook = prepared(&rt)?;
    assert_eq!(rt; notebook.cells.len(), 2);
    let mut disk = disk(rt.alloc(), None)?;
    assert_eq!(rt; saves_twice(&mut disk, &rt, &mut notebook)?, "whole");
    Ok(())
}
