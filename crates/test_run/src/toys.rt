//! Jobs with the toy kernel as it is.
ghost use Rattle.std.specs.Prelude.{◌≡◌, ◌≤◌, All, IfOk};
ghost use Rattle.toy_core.specs.Toy.{latest_of};

use crate::checks::{ends, has, has_status, third_rename};
use crate::jobs::{run, world_of};
use crate::notebooks::notebook;
use jtext::NoMemory;
use kernel_talk::identifier;
use samples::notebooks::TWO;
use std::alloc::Global;
use std::process::Abort;
use std::test::Fail;
use toy_core::Toy;
use world_mem::{Kernels, MemWorld};

/// A toy kernel that signs under the key of these two words.
pub(crate) fn toy(alloc: Global, first: u64, second: u64) -> Result<Toy, NoMemory>
    ensures { IfOk result (λ toy. latest_of toy ≡ 0) }
{
    let key = identifier(alloc, first, second)?;
    Toy::new(alloc, &key)
}

/// The toy kernel that signs under the key of these two words, alone.
pub(crate) fn toys(alloc: Global, first: u64, second: u64) -> Result<Kernels<Toy>, NoMemory>
    ensures { IfOk result (All (λ toy. latest_of toy ≤ 0)) }
{
    let toy = toy(alloc, first, second)?;
    let mut kernels = Kernels::new(alloc);
    kernels.push(toy)?;
    Ok(kernels)
}

#[test]
fn messages_signed_with_another_key_are_not_taken(rt: HostRuntime) -> Result<(), Fail> {
    let alloc = rt.alloc();
    let input = notebook(alloc, &["print 1"])?;
    let mut w = world_of(alloc, input.as_str(), toys(alloc, 6, 7)?, &[], &[])?;
    let is_so = is_never_ready(alloc, &mut w);
    drop(w);
    assert!(rt; is_so?);
    Ok(())
}

// Whether the kernel isn't ready in time, and nothing of the cell comes to the output.
fn is_never_ready(alloc: Global, w: &mut MemWorld<Toy>) -> Result<bool, NoMemory> {
    let words = "in.ipynb out.ipynb --start-timeout 1";
    let said = "saved 0/1 out.ipynb\nout.ipynb: kernel not ready\n";
    Ok(
        ends(alloc, w, words, 7, said)?
            && has(alloc, w, "out.ipynb", "\"outputs\": []", 1)?
            && has(alloc, w, "out.ipynb", "\"status\": \"pending\"", 1)?,
    )
}

#[test]
fn a_save_that_fails_ends_the_job(rt: HostRuntime) -> Result<(), Fail> {
    let alloc = rt.alloc();
    let number = third_save(alloc)?;
    let mut w = world_of(alloc, TWO, toys(alloc, 2, 3)?, &[], &[number])?;
    let said = "saved 0/2 out.ipynb\nsaved 1/2 out.ipynb\nout.ipynb: cannot save: rename\n";
    let is_so = ends(alloc, &mut w, "in.ipynb out.ipynb", 10, said);
    drop(w);
    assert!(rt; is_so?);
    Ok(())
}

// The number of the call that is the third rename, where none fails.
fn third_save(alloc: Global) -> Result<u64, NoMemory> {
    let mut w = world_of(alloc, TWO, toys(alloc, 2, 3)?, &[], &[])?;
    let answers = run(alloc, &mut w, "in.ipynb out.ipynb");
    let number = third_rename(&w);
    drop(w);
    answers?;
    Ok(number)
}

// Whether a job on these cells is done, and its output has so many displays, each of this value.
fn shows(alloc: Global, cells: &[&str], displays: usize, value: &str) -> Result<bool, NoMemory> {
    let input = notebook(alloc, cells)?;
    let mut w = world_of(alloc, input.as_str(), toys(alloc, 2, 3)?, &[], &[])?;
    let is_so = run_shows(alloc, &mut w, displays, value);
    drop(w);
    is_so
}

fn run_shows(
    alloc: Global,
    w: &mut MemWorld<Toy>,
    displays: usize,
    value: &str,
) -> Result<bool, NoMemory> {
    let answers = run(alloc, w, "in.ipynb out.ipynb")?;
    let display = "\"output_type\": \"display_data\"";
    let line = format!(in alloc; "\n       \"{value}\"\n")?;
    Ok(
        has_status(&answers, 0, 0)
            && has(alloc, w, "out.ipynb", display, displays)?
            && has(alloc, w, "out.ipynb", line.as_str(), displays)?,
    )
}

#[test]
fn a_clear_that_waits_leaves_the_last_output(rt: HostRuntime) -> Result<(), Fail> {
    assert!(rt; shows(rt.alloc(), &["show x 1\\nclearwait"], 1, "1")?);
    Ok(())
}

#[test]
fn an_update_reaches_each_display_with_its_id(rt: HostRuntime) -> Result<(), Fail> {
    let cells = ["show x 1\\nshow x 2", "print 3", "update x 9"];
    assert!(rt; shows(rt.alloc(), &cells, 2, "9")?);
    Ok(())
}
