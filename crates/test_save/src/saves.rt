//! Saves over a disk in memory, and calls of it that fail.
ghost use Rattle.std.specs.Prelude.{IfOk};
ghost use Rattle.progress_save.specs.State.{Fits};

use crate::notebooks::{STOPPED, prepared, stopped};
use crate::seen::SeenDisk;
use jtext::{NoMemory, Text};
use nb_model::Notebook;
use nb_text::text;
use progress_save::{Progress, ProgressFault, laws};
use save_disk::SaveFault;
use std::alloc::Global;
use std::test::Fail;
use world::{Disk, Say};
use world_mem::{Files, MemDisk, Sizes};

/// A disk without files, on which the call with this number fails.
pub(crate) fn disk(alloc: Global, fail: Option<u64>) -> Result<MemDisk, NoMemory> {
    let mut fails = Sizes::new(alloc);
    if let Some(number) = fail {
        fails.push(number)?;
    }
    MemDisk::new(alloc, Files::new(alloc), fails)
}

/// The saves of a notebook to an output, of which none was made.
pub(crate) fn begin(alloc: Global, output: &Text, n: &Notebook) -> Result<Progress, NoMemory>
    ensures { IfOk result (λ progress. Fits progress n.now.cells) }
{
    Progress::new(alloc, output)
}

/// Saves the notebook, of which so many cells are settled.
pub(crate) fn save<W: Disk + Say>(
    progress: &mut Progress,
    w: &mut W,
    n: &Notebook,
    p: u32,
) -> Result<(), ProgressFault>
    requires { Fits progress.old n.now.cells }
    ensures { Fits progress.new n.now.cells }
{
    laws::kept_texts_fit();
    progress.save_prefix(w, n, p)
}

/// What stands at the path: no file, the whole text of the notebook, or another text.
pub(crate) fn left_at<W: SeenDisk>(
    alloc: Global,
    w: &W,
    path: &Text,
    n: &Notebook,
) -> Result<&'static str, NoMemory> {
    let wanted = text(alloc, n)?;
    match w.bytes_at(path) {
        Some(bytes) if bytes == wanted.bytes() => Ok("whole"),
        Some(_) => Ok("other"),
        None => Ok("no"),
    }
}

/// A line an output: in a folder, without one, in the root, and beside the folder that it names.
const OUTPUTS: &str = "\
d/o
o
/o
d/../o";

// Whether a save to this output leaves the notebook's text there, and says this line.
fn saves<W: SeenDisk>(
    w: &mut W,
    alloc: Global,
    output: &str,
    n: &Notebook,
    line: &str,
) -> Result<bool, NoMemory> {
    let path = Text::of(alloc, output)?;
    let mut progress = begin(alloc, &path, n)?;
    let answer = save(&mut progress, w, n, 0);
    let left = left_at(alloc, w, &path, n)?;
    Ok(answer == Ok(()) && left == "whole" && w.heard() == line.as_bytes())
}

#[test]
fn a_save_writes_the_text_and_says_its_line(rt: HostRuntime) -> Result<(), Fail> {
    let alloc = rt.alloc();
    let notebook = prepared(&rt)?;
    for output in OUTPUTS.lines() {
        let line = format!(in alloc; "saved 0/2 {output}\n")?;
        let mut disk = disk(alloc, None)?;
        assert!(rt;
            saves(&mut disk, alloc, output, &notebook, line.as_str())?,
            "{output}"
        );
    }
    Ok(())
}

// Whether a save of this notebook leaves this text at `o`, and says that one cell is settled.
fn saves_first<W: SeenDisk>(
    w: &mut W,
    alloc: Global,
    n: &Notebook,
    text: &str,
) -> Result<bool, NoMemory> {
    let path = Text::of(alloc, "o")?;
    let mut progress = begin(alloc, &path, n)?;
    let answer = save(&mut progress, w, n, 1);
    Ok(
        answer == Ok(())
            && w.bytes_at(&path) == Some(text.as_bytes())
            && w.heard() == b"saved 1/2 o\n".as_slice(),
    )
}

#[test]
fn a_settled_prefix_is_saved_with_its_count(rt: HostRuntime) -> Result<(), Fail> {
    let alloc = rt.alloc();
    let notebook = stopped(&rt)?;
    let mut disk = disk(alloc, None)?;
    assert!(rt; saves_first(&mut disk, alloc, &notebook, STOPPED)?);
    Ok(())
}

/// A line a call that fails: its number, whether the output is there, what is said, and what the
/// save answers. The calls are the create, the one write, the sync, the rename, the sync of the
/// folder, and the one line that is said; one more isn't made.
const FAILING: &str = "\
0 no - write
1 no - write
2 no - sync
3 no - rename
4 whole - directory sync
5 whole - ok
6 whole line ok";

// Whether a save leaves this output, says this and has this answer.
fn fails<W: SeenDisk>(
    w: &mut W,
    alloc: Global,
    progress: &mut Progress,
    n: &Notebook,
    row: &str,
) -> Result<bool, Fail>
    requires { Fits progress.old n.now.cells }
    ensures { Fits progress.new n.now.cells }
{
    let answer = save(progress, w, n, 0);
    let (output, row) = row.split_once(' ').ok_or("no output")?;
    let (line, name) = row.split_once(' ').ok_or("no line")?;
    let left = left_at(alloc, w, &Text::of(alloc, "o")?, n)?;
    Ok(left == output && heard(w) == line && name_of(&answer) == name)
}

// Whether a next save is refused and calls nothing.
fn is_closed<W: SeenDisk>(w: &mut W, progress: &mut Progress, n: &Notebook) -> bool
    requires { Fits progress.old n.now.cells }
{
    let calls = w.calls();
    save(progress, w, n, 0) == Err(ProgressFault::Closed) && w.calls() == calls
}

// What was said: the line of the save, nothing, or something else.
fn heard<W: SeenDisk>(w: &W) -> &'static str {
    match w.heard() {
        b"saved 0/2 o\n" => "line",
        b"" => "-",
        _ => "other",
    }
}

fn name_of(answer: &Result<(), ProgressFault>) -> &'static str {
    match answer {
        Ok(()) => "ok",
        Err(ProgressFault::Save(SaveFault::Write)) => "write",
        Err(ProgressFault::Save(SaveFault::Sync)) => "sync",
        Err(ProgressFault::Save(SaveFault::Rename)) => "rename",
        Err(ProgressFault::Save(SaveFault::DirSync)) => "directory sync",
        Err(ProgressFault::Closed) => "closed",
        Err(ProgressFault::NoMemory) => "no memory",
    }
}

// Whether the save answers as the row says, and whether it makes a next one be refused where it
// failed.
fn fails_and_closes<W: SeenDisk>(
    w: &mut W,
    alloc: Global,
    n: &Notebook,
    row: &str,
) -> Result<bool, Fail> {
    let path = Text::of(alloc, "o")?;
    let mut progress = begin(alloc, &path, n)?;
    let failed = !row.ends_with("ok");
    let fails = fails(w, alloc, &mut progress, n, row)?;
    Ok(fails && failed == is_closed(w, &mut progress, n))
}

#[test]
fn each_failed_call_has_its_fault_and_closes(rt: HostRuntime) -> Result<(), Fail> {
    let alloc = rt.alloc();
    let notebook = prepared(&rt)?;
    for row in FAILING.lines() {
        let (number, row) = row.split_once(' ').ok_or("no number")?;
        let number = number.parse::<u64>().map_err(|_| "no number")?;
        let mut disk = disk(alloc, Some(number))?;
        assert!(rt;
            fails_and_closes(&mut disk, alloc, &notebook, row)?,
            "call {number}"
        );
    }
    Ok(())
}
