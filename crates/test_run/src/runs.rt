//! Whole jobs with the toy kernel as it is.
use crate::checks::{self, has_said, has_status, holds};
use crate::jobs::{run_two, world_by, world_of};
use crate::notebooks::{notebook, notebook_with};
use crate::plays::pair;
use crate::rule::Trick;
use crate::scripted::Scripted;
use crate::toys::toys;
use jtext::NoMemory;
use samples::notebooks::{TWO, TWO_SAVED};
use std::alloc::Global;
use std::process::Abort;
use std::test::Fail;
use toy_core::Toy;
use world_mem::{MemWorld, Script, Sizes};

// Whether a job on this input, asked for by these words, has this status and says this.
fn ends(alloc: Global, input: &str, words: &str, status: u8, said: &str) -> Result<bool, NoMemory> {
    let mut w = world_of(alloc, input, toys(alloc, 2, 3)?, &[], &[])?;
    let is_so = checks::ends(alloc, &mut w, words, status, said);
    drop(w);
    is_so
}

// Whether a job in this world is done, and its output is what comes out of `TWO`.
fn is_two(alloc: Global, w: &mut MemWorld<Toy>) -> Result<bool, NoMemory> {
    let said = "saved 0/2 out.ipynb\nsaved 1/2 out.ipynb\nsaved 2/2 out.ipynb\nout.ipynb: done\n";
    Ok(
        checks::ends(alloc, w, "in.ipynb out.ipynb", 0, said)?
            && holds(alloc, w, "out.ipynb", TWO_SAVED)?,
    )
}

#[test]
fn a_notebook_is_executed(rt: HostRuntime) -> Result<(), Fail> {
    let alloc = rt.alloc();
    let mut w = world_of(alloc, TWO, toys(alloc, 2, 3)?, &[], &[])?;
    let is_so = is_two(alloc, &mut w);
    drop(w);
    assert!(rt; is_so?);
    Ok(())
}

#[test]
fn refused_connects_are_made_again(rt: HostRuntime) -> Result<(), Fail> {
    let alloc = rt.alloc();
    let script = Script {
        start_ms: 0,
        pieces: Sizes::new(alloc),
        fails: Sizes::new(alloc),
        refusals: 8,
    };
    let mut w = world_by(alloc, TWO, toys(alloc, 2, 3)?, script)?;
    let is_so = is_two(alloc, &mut w);
    drop(w);
    assert!(rt; is_so?);
    Ok(())
}

#[test]
fn octets_come_one_by_one(rt: HostRuntime) -> Result<(), Fail> {
    let alloc = rt.alloc();
    let mut w = world_of(alloc, TWO, toys(alloc, 2, 3)?, &[1], &[])?;
    let is_so = is_two(alloc, &mut w);
    drop(w);
    assert!(rt; is_so?);
    Ok(())
}

#[test]
fn an_error_stops_the_run(rt: HostRuntime) -> Result<(), Fail> {
    let cells = ["print 1", "raise E \\\"no\\\"", "print 2"];
    let input = notebook(rt.alloc(), &cells)?;
    assert!(rt;
        ends(
            rt.alloc(),
            input.as_str(),
            "in.ipynb out.ipynb",
            1,
            "saved 0/3 out.ipynb\nsaved 1/3 out.ipynb\nsaved 2/3 out.ipynb\nout.ipynb: cell 1: error \"E\"\n"
        )?
    );
    let done =
        "saved 0/3 out.ipynb\nsaved 1/3 out.ipynb\nsaved 2/3 out.ipynb\nsaved 3/3 out.ipynb\nout.ipynb: done\n";
    assert!(rt;
        ends(
            rt.alloc(),
            input.as_str(),
            "in.ipynb out.ipynb --allow-error-name E",
            0,
            done
        )?
    );
    assert!(rt;
        ends(
            rt.alloc(),
            input.as_str(),
            "in.ipynb out.ipynb --allow-errors",
            0,
            done
        )?
    );
    let tagged = notebook_with(rt.alloc(), &cells, "\"tags\":[\"raises-exception\"]")?;
    assert!(rt; ends(rt.alloc(), tagged.as_str(), "in.ipynb out.ipynb", 0, done)?);
    Ok(())
}

#[test]
fn a_deadline_interrupts_or_stops(rt: HostRuntime) -> Result<(), Fail> {
    let input = notebook(rt.alloc(), &["sleep 60000"])?;
    assert!(rt;
        ends(
            rt.alloc(),
            input.as_str(),
            "in.ipynb out.ipynb --execution-timeout 1 --interrupt",
            1,
            "saved 0/1 out.ipynb\nsaved 1/1 out.ipynb\nout.ipynb: cell 0: error \"KeyboardInterrupt\"\n"
        )?
    );
    assert!(rt;
        ends(
            rt.alloc(),
            input.as_str(),
            "in.ipynb out.ipynb --execution-timeout 1",
            9,
            "saved 0/1 out.ipynb\nsaved 1/1 out.ipynb\nout.ipynb: cell 0: timed out\n"
        )?
    );
    assert!(rt;
        ends(
            rt.alloc(),
            input.as_str(),
            "in.ipynb out.ipynb",
            0,
            "saved 0/1 out.ipynb\nsaved 1/1 out.ipynb\nout.ipynb: done\n"
        )?
    );
    Ok(())
}

#[test]
fn a_kernel_that_dies_is_lost(rt: HostRuntime) -> Result<(), Fail> {
    let input = notebook(rt.alloc(), &["print 1", "print 2\\ndie", "print 3"])?;
    assert!(rt;
        ends(
            rt.alloc(),
            input.as_str(),
            "in.ipynb out.ipynb",
            8,
            "saved 0/3 out.ipynb\nsaved 1/3 out.ipynb\nsaved 2/3 out.ipynb\nout.ipynb: kernel lost\n"
        )?
    );
    Ok(())
}

#[test]
fn two_jobs_run_side_by_side(rt: HostRuntime) -> Result<(), Fail> {
    let alloc = rt.alloc();
    let input = notebook(alloc, &["sleep 5000"])?;
    let mut w = world_of(
        alloc,
        input.as_str(),
        pair(alloc, Trick::Nothing)?,
        &[],
        &[],
    )?;
    let is_so = are_done(alloc, &mut w);
    drop(w);
    assert!(rt; is_so?);
    Ok(())
}

// Whether two jobs are done, which begin side by side, and of which each says so as it ends.
fn are_done(alloc: Global, w: &mut MemWorld<Scripted>) -> Result<bool, NoMemory> {
    let answers = run_two(alloc, w, "in.ipynb a.ipynb", "in.ipynb b.ipynb")?;
    let said =
        "saved 0/1 a.ipynb\nsaved 0/1 b.ipynb\nsaved 1/1 a.ipynb\na.ipynb: done\nsaved 1/1 b.ipynb\nb.ipynb: done\n";
    let are_two = answers.len() == 2 && has_status(&answers, 0, 0) && has_status(&answers, 1, 0);
    Ok(are_two && has_said(w, said))
}

#[test]
fn a_notebook_without_code_is_saved_twice(rt: HostRuntime) -> Result<(), Fail> {
    let input =
        "{\"cells\":[{\"cell_type\":\"markdown\",\"id\":\"a\",\"metadata\":{},\"source\":\"x\"},{\"cell_type\":\"markdown\",\"id\":\"b\",\"metadata\":{},\"source\":\"y\"}],\"metadata\":{},\"nbformat\":4,\"nbformat_minor\":5}";
    assert!(rt;
        ends(
            rt.alloc(),
            input,
            "in.ipynb out.ipynb",
            0,
            "saved 0/2 out.ipynb\nsaved 2/2 out.ipynb\nout.ipynb: done\n"
        )?
    );
    Ok(())
}

#[test]
fn a_kernel_that_is_not_there_is_refused(rt: HostRuntime) -> Result<(), Fail> {
    assert!(rt;
        ends(
            rt.alloc(),
            TWO,
            "in.ipynb out.ipynb -k other",
            3,
            "out.ipynb: cannot read /usr/local/share/jupyter/kernels/other/kernel.json\n"
        )?
    );
    assert!(rt;
        ends(
            rt.alloc(),
            TWO,
            "in.ipynb out.ipynb -k a/b",
            5,
            "out.ipynb: kernel spec: bad name\n"
        )?
    );
    Ok(())
}
