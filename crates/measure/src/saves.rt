//! The saves that are timed.
ghost use Rattle.std.specs.Prelude.{◌≡◌, ◌<◌, ℕ, None, length, IfOk, OnOk};
ghost use Rattle.progress_save.specs.State.{Fits, kept_text};

use anyhow::{Result, bail};
use jtext::{NoMemory, Text, read};
use nb_model::{Cell, Notebook, of_json};
use progress_save::{Progress, ProgressFault, laws};
use std::alloc::Global;
use std::time::Instant;
use std::{fs, process};
use world::{Disk, Say};
use world_real::RealWorld;

/// The most cells that are changed.
const MOST: usize = 1_000_000;

/// How deep lists and objects may nest.
const DEEP: u32 = 128;

/// Saves the first notebook as often as it has cells, each time with one more cell of the second one,
/// and prints the milliseconds of all saves together.
pub fn measure_files(rt: &HostRuntime, first: &str, second: &str, output: &str) -> Result<()> {
    let first = notebook(rt, first)?;
    let second = notebook(rt, second)?;
    measure(*rt, first, second, output)
}

// The notebook in this file.
fn notebook(rt: &HostRuntime, file: &str) -> Result<Notebook> {
    let bytes = fs::read(rt, file)?;
    let Ok(tree) = read(rt.alloc(), bytes.as_slice(), DEEP) else {
        bail!("{file} is no JSON");
    };
    let Ok(notebook) = of_json(rt.alloc(), tree) else {
        bail!("{file} is no notebook");
    };
    Ok(notebook)
}

// Saves the notebook as often as it has cells, each time with a cell of the other one in place of
// its own.
fn measure(rt: HostRuntime, notebook: Notebook, others: Notebook, output: &str) -> Result<()> {
    let Ok(progress) = saves_to(rt.alloc(), output) else {
        bail!("no memory");
    };
    let Ok(mut world) = RealWorld::new(rt, rt.alloc(), process::id(rt.process())) else {
        bail!("no memory");
    };
    let start = Instant::now(&rt)?;
    if save_each(&mut world, progress, notebook, others).is_err() {
        bail!("not saved");
    }
    let took = start.elapsed(&rt)?.as_millis();
    println!(&rt; "saves {took}")?;
    Ok(())
}

fn saves_to(alloc: Global, output: &str) -> Result<Progress, NoMemory>
    ensures { IfOk result (λ p. (i : ℕ) → kept_text p i ≡ None) }
{
    let output = Text::of(alloc, output)?;
    Progress::new(alloc, &output)
}

/// The saves, one for each cell.
fn save_each<W: Disk + Say>(
    w: &mut W,
    progress: Progress,
    notebook: Notebook,
    others: Notebook,
) -> Result<(), ProgressFault>
    requires { (i : ℕ) → kept_text progress i ≡ None }
{
    let mut progress = progress;
    let mut notebook = notebook;
    for (i, cell) in others.cells.into_vec().into_iter().enumerate() {
        if i < notebook.cells.len() && i < MOST {
            save_changed(&mut progress, w, &mut notebook, i as u32, cell)?;
        }
    }
    Ok(())
}

/// Saves the notebook with this cell in place of the one at this index.
fn save_changed<W: Disk + Say>(
    progress: &mut Progress,
    w: &mut W,
    n: &mut Notebook,
    i: u32,
    cell: Cell,
) -> Result<(), ProgressFault>
    requires place { i < length n.old.cells }
    requires kept { Fits progress.old n.old.cells }
    ensures { OnOk result (Fits progress.new n.new.cells) }
{
    laws::kept_texts_fit();
    progress.mark(i);
    let _ = n.cells.put(i as usize, cell);
    progress.save_prefix(w, n, i)
}
