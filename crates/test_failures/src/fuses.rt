//! The disk fails for good behind each number of its calls.
use crate::calls::{is_safe_run, reference};
use jtext::{Bytes, List, NoMemory};
use sample_runs::{Reference, Row, is_of_disk, status, world};
use std::alloc::Global;
use std::test::Fail;
use toy_core::Toy;
use world_mem::MemWorld;

// The numbers of the calls of the disk in a run in which no call fails.
fn disk_calls(alloc: Global) -> Result<Vec<usize>, NoMemory> {
    let mut w = world(alloc, Row::Two, None)?;
    let calls = disk_calls_of(alloc, &mut w);
    drop(w);
    calls
}

fn disk_calls_of(alloc: Global, w: &mut MemWorld<Toy>) -> Result<Vec<usize>, NoMemory> {
    let _done = status(alloc, Row::Two, w)?;
    let mut calls = Vec::new(alloc);
    let mut number: usize = 0;
    if let Some(entries) = w.journal() {
        for entry in entries.iter() {
            if is_of_disk(entry) {
                calls.push(number)?;
            }
            number = number.saturating_add(1);
        }
    }
    Ok(calls)
}

// Whether the run behind a fuse of so many calls is safe and has this status.
fn burns_safely(alloc: Global, fuse: u64, code: u8, texts: &List<Bytes>) -> Result<bool, Fail> {
    let mut w = world(alloc, Row::Two, None)?;
    w.fuse(fuse);
    let is_so = is_safe_run(alloc, &mut w, code, texts);
    drop(w);
    is_so
}

// The first fuse behind which a run isn't safe.
fn first_unsafe(alloc: Global, reference: &Reference) -> Result<Option<u64>, Fail> {
    let Some(texts) = reference.texts.first() else {
        return Ok(Some(0));
    };
    let calls = disk_calls(alloc)?;
    let mut fuse: u64 = 0;
    for number in calls.iter() {
        let code = match reference.statuses.get(*number) {
            Some(code) => *code,
            None => 0,
        };
        if !burns_safely(alloc, fuse, code, texts)? {
            return Ok(Some(fuse));
        }
        fuse = fuse.saturating_add(1);
    }
    Ok(None)
}

#[test]
fn behind_each_fuse_a_run_fails_safely(rt: HostRuntime) -> Result<(), Fail> {
    let alloc = rt.alloc();
    let reference = reference(alloc)?;
    let found = first_unsafe(alloc, &reference);
    drop(reference);
    assert_eq!(rt; found?, None);
    Ok(())
}
