//! The marks of the cells and their outputs in what a job leaves.
use crate::checks::{has, has_status, marks, often_in_save, starts};
use crate::jobs::{run, world_of};
use crate::notebooks::{notebook, notebook_with};
use crate::toys::toys;
use jtext::NoMemory;
use std::alloc::Global;
use std::process::Abort;
use std::test::Fail;
use toy_core::Toy;
use world_mem::MemWorld;

// Whether a job on this input ends with this status, and leaves these marks and outputs.
fn leaves(
    alloc: Global,
    input: &str,
    words: &str,
    status: u8,
    wanted: &str,
) -> Result<bool, NoMemory> {
    let mut w = world_of(alloc, input, toys(alloc, 2, 3)?, &[], &[])?;
    let is_so = run_leaves(alloc, &mut w, words, status, wanted);
    drop(w);
    is_so
}

fn run_leaves(
    alloc: Global,
    w: &mut MemWorld<Toy>,
    words: &str,
    status: u8,
    wanted: &str,
) -> Result<bool, NoMemory> {
    let answers = run(alloc, w, words)?;
    let found = marks(alloc, w, "out.ipynb")?;
    Ok(has_status(&answers, 0, status) && found.as_str() == wanted)
}

#[test]
fn the_cells_behind_an_error_stay_pending(rt: HostRuntime) -> Result<(), Fail> {
    let cells = ["print 1", "raise E \\\"no\\\"", "print 2"];
    let input = notebook(rt.alloc(), &cells)?;
    let text = input.as_str();
    let stopped = "completed stream failed error pending ";
    let done = "completed stream completed error completed stream ";
    let words = "in.ipynb out.ipynb";
    assert!(rt; leaves(rt.alloc(), text, words, 1, stopped)?);
    let named = "in.ipynb out.ipynb --allow-error-name E";
    assert!(rt; leaves(rt.alloc(), text, named, 0, done)?);
    let tagged = notebook_with(rt.alloc(), &cells, "\"tags\":[\"raises-exception\"]")?;
    assert!(rt; leaves(rt.alloc(), tagged.as_str(), words, 0, done)?);
    Ok(())
}

#[test]
fn the_outputs_of_a_kernel_that_dies_are_kept(rt: HostRuntime) -> Result<(), Fail> {
    let alloc = rt.alloc();
    let input = notebook(alloc, &["print 1", "print 2\\ndie", "print 3"])?;
    let mut w = world_of(alloc, input.as_str(), toys(alloc, 2, 3)?, &[], &[])?;
    let is_so = keeps_outputs(alloc, &mut w);
    drop(w);
    assert!(rt; is_so?);
    Ok(())
}

fn keeps_outputs(alloc: Global, w: &mut MemWorld<Toy>) -> Result<bool, NoMemory> {
    let wanted = "completed stream failed stream pending ";
    Ok(
        run_leaves(alloc, w, "in.ipynb out.ipynb", 8, wanted)?
            && has(alloc, w, "out.ipynb", "\n      \"2\\n\"\n", 1)?
            && has(alloc, w, "out.ipynb", "\n      \"3\\n\"\n", 0)?,
    )
}

#[test]
fn cells_of_text_are_completed_without_a_kernel(rt: HostRuntime) -> Result<(), Fail> {
    let alloc = rt.alloc();
    let input =
        "{\"cells\":[{\"cell_type\":\"markdown\",\"id\":\"a\",\"metadata\":{},\"source\":\"x\"},{\"cell_type\":\"markdown\",\"id\":\"b\",\"metadata\":{},\"source\":\"y\"}],\"metadata\":{},\"nbformat\":4,\"nbformat_minor\":5}";
    let mut w = world_of(alloc, input, toys(alloc, 2, 3)?, &[], &[])?;
    let is_so = run_leaves(
        alloc,
        &mut w,
        "in.ipynb out.ipynb",
        0,
        "completed completed ",
    );
    let started = starts(&w);
    drop(w);
    assert!(rt; is_so?);
    assert_eq!(rt; started, 0);
    Ok(())
}

#[test]
fn an_update_comes_to_no_save_before_it(rt: HostRuntime) -> Result<(), Fail> {
    let alloc = rt.alloc();
    let input = notebook(alloc, &["show x 1\\nshow x 2", "print 3", "update x 9"])?;
    let mut w = world_of(alloc, input.as_str(), toys(alloc, 2, 3)?, &[], &[])?;
    let is_so = updates_late(alloc, &mut w);
    drop(w);
    assert!(rt; is_so?);
    Ok(())
}

// Whether both displays have the value of the second one in the save of two cells, and the update's in
// the last.
fn updates_late(alloc: Global, w: &mut MemWorld<Toy>) -> Result<bool, NoMemory> {
    let answers = run(alloc, w, "in.ipynb out.ipynb")?;
    Ok(
        has_status(&answers, 0, 0)
            && often_in_save(alloc, w, 2, "\n       \"2\"\n")? == 2
            && often_in_save(alloc, w, 2, "\n       \"9\"\n")? == 0
            && often_in_save(alloc, w, 3, "\n       \"9\"\n")? == 2,
    )
}

#[test]
fn a_clear_that_waits_clears_before_the_next_output(rt: HostRuntime) -> Result<(), Fail> {
    let alloc = rt.alloc();
    let input = notebook(alloc, &["show x 1\\nclearwait\\nprint 2"])?;
    let words = "in.ipynb out.ipynb";
    assert!(rt; leaves(alloc, input.as_str(), words, 0, "completed stream ")?);
    Ok(())
}

#[test]
fn streams_are_joined_where_that_was_asked_for(rt: HostRuntime) -> Result<(), Fail> {
    let alloc = rt.alloc();
    let input = notebook(alloc, &["print 1\\nprint 2"])?;
    let text = input.as_str();
    let parted = "completed stream stream ";
    assert!(rt; leaves(alloc, text, "in.ipynb out.ipynb", 0, parted)?);
    let words = "in.ipynb out.ipynb --merge-streams";
    assert!(rt; leaves(alloc, text, words, 0, "completed stream ")?);
    Ok(())
}
