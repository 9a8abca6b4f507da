//! Kernels that break the grammar of the wire.
use crate::checks::holds;
use crate::jobs::{program, world_of};
use crate::notebooks::ONE;
use crate::plays::{pair, play, play_two};
use crate::rule::Trick;
use crate::scripted::Scripted;
use jtext::NoMemory;
use samples::notebooks::{TWO, TWO_SAVED};
use std::alloc::Global;
use std::process::Abort;
use std::test::Fail;
use world_mem::MemWorld;

#[test]
fn a_broken_greeting_ends_the_job(rt: HostRuntime) -> Result<(), Fail> {
    let played = play(rt.alloc(), Trick::BadGreeting)?;
    assert!(rt; played.has_status(0, 15));
    assert!(rt; played.has_line(0, "out.ipynb: bad peer on shell: 1 at 0\n"));
    Ok(())
}

#[test]
fn a_frame_of_too_many_octets_ends_the_job(rt: HostRuntime) -> Result<(), Fail> {
    let played = play(rt.alloc(), Trick::HugeFrame)?;
    assert!(rt; played.has_status(0, 15));
    assert!(rt; played.has_line(0, "out.ipynb: bad peer on shell: 5 at 102\n"));
    Ok(())
}

#[test]
fn an_error_command_ends_the_job(rt: HostRuntime) -> Result<(), Fail> {
    let played = play(rt.alloc(), Trick::ErrorCommand)?;
    assert!(rt; played.has_status(0, 15));
    assert!(rt; played.has_line(0, "out.ipynb: bad peer on control: 8 at 101\n"));
    Ok(())
}

#[test]
fn a_second_ready_is_passed_over(rt: HostRuntime) -> Result<(), Fail> {
    let played = play(rt.alloc(), Trick::SecondReady)?;
    assert!(rt; played.is_done(rt.alloc(), ONE)?);
    assert_eq!(rt; played.gets("READY"), 5);
    Ok(())
}

#[test]
fn a_broken_kernel_leaves_the_other_job_alone(rt: HostRuntime) -> Result<(), Fail> {
    let played = play_two(rt.alloc(), Trick::BadGreeting)?;
    assert!(rt; played.has_status(0, 15));
    assert!(rt; played.has_line(0, "a.ipynb: bad peer on shell: 1 at 0\n"));
    assert!(rt; played.has_status(1, 0));
    assert!(rt; played.has_line(1, "b.ipynb: done\n"));
    assert!(rt; played.has_outputs(rt.alloc(), ONE)?);
    Ok(())
}

#[test]
fn a_batch_answers_the_status_of_its_broken_kernel(rt: HostRuntime) -> Result<(), Fail> {
    let alloc = rt.alloc();
    let kernels = pair(alloc, Trick::BadGreeting)?;
    let mut w = world_of(alloc, TWO, kernels, &[], &[])?;
    let is_so = answers_for_the_broken_one(alloc, &mut w);
    drop(w);
    assert!(rt; is_so?);
    Ok(())
}

// Whether the program answers the first job's status, and the second one's output is whole.
fn answers_for_the_broken_one(alloc: Global, w: &mut MemWorld<Scripted>) -> Result<bool, NoMemory> {
    Ok(program(alloc, w, "--jobs jobs.json")? == 15 && holds(alloc, w, "b.ipynb", TWO_SAVED)?)
}
