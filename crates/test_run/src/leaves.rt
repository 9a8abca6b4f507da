//! Jobs that are left as soon as they end: nothing more is read of their kernels.
use crate::checks::{has_failed_put, has_status, last_put, limit_after, moment_before};
use crate::jobs::{run, run_within, world_of};
use crate::notebooks::notebook;
use crate::plays::play_within;
use crate::rule::Trick;
use crate::toys::toys;
use jtext::NoMemory;
use samples::notebooks::TWO;
use std::alloc::Global;
use std::process::Abort;
use std::test::Fail;
use toy_core::Toy;
use world_mem::MemWorld;

/// So many waits are made before the cell of these tests is done.
const FEW: u64 = 12;

#[test]
fn nothing_is_read_behind_a_frame_that_breaks_the_last_reply(rt: HostRuntime) -> Result<(), Fail> {
    let alloc = rt.alloc();
    let input = notebook(alloc, &["print 1"])?;
    let words = "in.ipynb out.ipynb";
    let played = play_within(
        alloc,
        Trick::BrokenReply,
        input.as_str(),
        words,
        &[],
        100_000,
    )?;
    assert!(rt; played.has_status(0, 15));
    assert_eq!(rt; played.says("out.ipynb: bad peer on shell: 5 at"), 1);
    assert_eq!(rt; played.gets("execute_reply"), 1);
    assert_eq!(rt; played.gets("\"stream\""), 0);
    assert_eq!(rt; played.has("\"outputs\": []"), 1);
    assert_eq!(rt; played.has("\"status\": \"failed\""), 1);
    Ok(())
}

#[test]
fn nothing_is_read_behind_a_frame_that_breaks_the_first_reply(rt: HostRuntime) -> Result<(), Fail> {
    let alloc = rt.alloc();
    let words = "in.ipynb out.ipynb";
    let played = play_within(alloc, Trick::BrokenInfo, TWO, words, &[], 100_000)?;
    assert!(rt; played.has_status(0, 15));
    assert_eq!(rt; played.gets("kernel_info_reply"), 1);
    assert_eq!(rt; played.gets("\"idle\""), 0);
    assert_eq!(rt; played.says("saved"), 1);
    assert_eq!(rt; played.has("\"status\": \"pending\""), 2);
    Ok(())
}

#[test]
fn a_flood_behind_a_broken_stream_is_not_read(rt: HostRuntime) -> Result<(), Fail> {
    let alloc = rt.alloc();
    let words = "in.ipynb out.ipynb";
    let played = play_within(alloc, Trick::Flood, TWO, words, &[], 100_000)?;
    assert!(rt; played.has_status(0, 15));
    assert_eq!(rt; played.gets("\"stream\""), 0);
    Ok(())
}

#[test]
fn a_farewell_that_fails_after_the_last_wait_is_no_fault(rt: HostRuntime) -> Result<(), Fail> {
    let alloc = rt.alloc();
    let number = farewell(alloc)?;
    assert!(rt; is_spent(alloc, &[], false)?);
    assert!(rt; is_spent(alloc, &[number], true)?);
    Ok(())
}

// The number of the call that writes the farewell of a job whose waits are all made.
fn farewell(alloc: Global) -> Result<u64, NoMemory> {
    let input = notebook(alloc, &["sleep 60000"])?;
    let mut w = world_of(alloc, input.as_str(), toys(alloc, 2, 3)?, &[], &[])?;
    let answers = run_within(alloc, &mut w, "in.ipynb out.ipynb", FEW);
    let number = last_put(&w);
    drop(w);
    answers?;
    Ok(number)
}

// Whether a job ends by its waits, where calls of these numbers fail, and so a write or none.
fn is_spent(alloc: Global, fails: &[u64], has_failed: bool) -> Result<bool, NoMemory> {
    let input = notebook(alloc, &["sleep 60000"])?;
    let mut w = world_of(alloc, input.as_str(), toys(alloc, 2, 3)?, &[], fails)?;
    let is_so = ends_spent(alloc, &mut w, has_failed);
    drop(w);
    is_so
}

fn ends_spent(alloc: Global, w: &mut MemWorld<Toy>, has_failed: bool) -> Result<bool, NoMemory> {
    let answers = run_within(alloc, w, "in.ipynb out.ipynb", FEW)?;
    Ok(has_status(&answers, 0, 16) && has_failed_put(w) == has_failed)
}

#[test]
fn the_first_question_waits_for_nothing(rt: HostRuntime) -> Result<(), Fail> {
    let alloc = rt.alloc();
    let mut w = world_of(alloc, TWO, toys(alloc, 2, 3)?, &[], &[])?;
    let asks = asks_at_once(alloc, &mut w);
    drop(w);
    assert!(rt; asks?);
    Ok(())
}

// Whether the first question comes at the first moment, right after the subscription was taken.
fn asks_at_once(alloc: Global, w: &mut MemWorld<Toy>) -> Result<bool, NoMemory> {
    let answers = run(alloc, w, "in.ipynb out.ipynb")?;
    Ok(
        has_status(&answers, 0, 0)
            && limit_after(w, "SUBSCRIBE") == Some(0)
            && moment_before(w, "kernel_info_request") == Some(0),
    )
}
