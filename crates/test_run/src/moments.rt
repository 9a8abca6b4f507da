//! The moments by which jobs end, and the pings that they send until then.
use crate::checks::{has, has_status, last_moment, marks, pings};
use crate::jobs::{run, run_two, world_by, world_of};
use crate::notebooks::notebook;
use crate::plays::pair;
use crate::rule::Trick;
use crate::scripted::Scripted;
use crate::toys::toys;
use jtext::NoMemory;
use samples::notebooks::TWO;
use std::alloc::Global;
use std::process::Abort;
use std::test::Fail;
use toy_core::Toy;
use world_mem::{MemWorld, Script, Sizes};

// The last moment of a job with this input and these words that ends with this status.
fn ends_at(alloc: Global, input: &str, words: &str, status: u8) -> Result<Option<u64>, NoMemory> {
    let mut w = world_of(alloc, input, toys(alloc, 2, 3)?, &[], &[])?;
    let moment = run_ends_at(alloc, &mut w, words, status);
    drop(w);
    moment
}

fn run_ends_at(
    alloc: Global,
    w: &mut MemWorld<Toy>,
    words: &str,
    status: u8,
) -> Result<Option<u64>, NoMemory> {
    let answers = run(alloc, w, words)?;
    Ok(if has_status(&answers, 0, status) {
        Some(last_moment(w))
    } else {
        None
    })
}

#[test]
fn a_reply_at_the_moment_of_the_deadline_is_in_time(rt: HostRuntime) -> Result<(), Fail> {
    let alloc = rt.alloc();
    let words = "in.ipynb out.ipynb --execution-timeout 1";
    let input = notebook(alloc, &["sleep 1000"])?;
    assert!(rt; ends_at(alloc, input.as_str(), words, 0)?.is_some());
    let input = notebook(alloc, &["sleep 1001"])?;
    assert!(rt; ends_at(alloc, input.as_str(), words, 9)?.is_some());
    Ok(())
}

#[test]
fn jobs_sleep_side_by_side(rt: HostRuntime) -> Result<(), Fail> {
    let alloc = rt.alloc();
    let input = notebook(alloc, &["sleep 5000"])?;
    let kernels = pair(alloc, Trick::Nothing)?;
    let mut w = world_of(alloc, input.as_str(), kernels, &[], &[])?;
    let are_done = sleep_together(alloc, &mut w);
    drop(w);
    assert!(rt; are_done?);
    Ok(())
}

fn sleep_together(alloc: Global, w: &mut MemWorld<Scripted>) -> Result<bool, NoMemory> {
    let answers = run_two(alloc, w, "in.ipynb a.ipynb", "in.ipynb b.ipynb")?;
    let last = last_moment(w);
    Ok(has_status(&answers, 0, 0) && has_status(&answers, 1, 0) && 5_000 <= last && last < 10_000)
}

#[test]
fn a_connect_that_was_refused_waits_before_it_is_made_again(rt: HostRuntime) -> Result<(), Fail> {
    let alloc = rt.alloc();
    let script = Script {
        start_ms: 0,
        pieces: Sizes::new(alloc),
        fails: Sizes::new(alloc),
        refusals: 8,
    };
    let mut w = world_by(alloc, TWO, toys(alloc, 2, 3)?, script)?;
    let moment = run_ends_at(alloc, &mut w, "in.ipynb out.ipynb", 0);
    drop(w);
    assert!(rt; moment?.is_some_and(|ms| 400 <= ms));
    Ok(())
}

#[test]
fn a_kernel_that_never_says_that_it_is_ready_is_given_up(rt: HostRuntime) -> Result<(), Fail> {
    let alloc = rt.alloc();
    let mut w = world_of(alloc, TWO, pair(alloc, Trick::NoInfo)?, &[], &[])?;
    let is_so = is_given_up(alloc, &mut w);
    drop(w);
    assert!(rt; is_so?);
    Ok(())
}

// Whether the job ends one second after its kernel's start, with the save of no cell.
fn is_given_up(alloc: Global, w: &mut MemWorld<Scripted>) -> Result<bool, NoMemory> {
    let answers = run(alloc, w, "in.ipynb out.ipynb --start-timeout 1")?;
    let marks = marks(alloc, w, "out.ipynb")?;
    Ok(
        has_status(&answers, 0, 7)
            && 1_000 <= last_moment(w)
            && marks.as_str() == "pending pending "
            && has(alloc, w, "out.ipynb", "\"outputs\": []", 2)?,
    )
}

#[test]
fn a_kernel_is_lost_behind_the_eleventh_ping(rt: HostRuntime) -> Result<(), Fail> {
    let alloc = rt.alloc();
    let input = notebook(alloc, &["sleep 60000"])?;
    let kernels = pair(alloc, Trick::NoEcho)?;
    let mut w = world_of(alloc, input.as_str(), kernels, &[], &[])?;
    let is_so = is_lost_behind_pings(alloc, &mut w);
    drop(w);
    assert!(rt; is_so?);
    Ok(())
}

// Whether eleven pings were taken, the last of them before the look by which the kernel is lost.
fn is_lost_behind_pings(alloc: Global, w: &mut MemWorld<Scripted>) -> Result<bool, NoMemory> {
    let answers = run(alloc, w, "in.ipynb out.ipynb")?;
    Ok(has_status(&answers, 0, 8) && pings(w) == (11, Some(0)))
}
