//! Each call of a run fails in turn. It fails safely where the run has the status of that call, its
//! child is ended, and each image of each moment has the save that was acknowledged last or the next.
use jtext::{Bytes, List};
use sample_runs::{
    Reference, Row, each_image_is_safe, ends_its_children, is_left_alone, status, world,
};
use samples::notebooks::TWO_SAVED;
use std::alloc::Global;
use std::test::Fail;
use toy_core::Toy;
use world_mem::MemWorld;

/// The output of the run.
const OUT: &str = "out.ipynb";

/// The run with no failing call. Its last save has the outputs of both cells.
pub(crate) fn reference(alloc: Global) -> Result<Reference, Fail> {
    let reference = Reference::of(alloc, Row::Two)?;
    if reference.status == 0 && last_is(&reference, TWO_SAVED) {
        return Ok(reference);
    }
    Err("a run in which no call fails isn't done")?
}

fn last_is(reference: &Reference, text: &str) -> bool {
    match reference.texts.first() {
        Some(texts) => match texts.get(2) {
            Some(last) => texts.len() == 3 && last.bytes() == text.as_bytes(),
            None => false,
        },
        None => false,
    }
}

/// Whether the run there has this status, ends its child and leaves whole saves, and nothing of a save is
/// done once a call of one failed.
pub(crate) fn is_safe_run(
    alloc: Global,
    w: &mut MemWorld<Toy>,
    code: u8,
    texts: &List<Bytes>,
) -> Result<bool, Fail> {
    let answered = status(alloc, Row::Two, w)?;
    Ok(
        answered == code
            && ends_its_children(w)
            && is_left_alone(w, OUT)
            && each_image_is_safe(w, Row::Two, OUT, texts)?,
    )
}

// Whether the run in which the call with this number fails is so.
fn fails_safely(alloc: Global, number: u64, code: u8, texts: &List<Bytes>) -> Result<bool, Fail> {
    let mut w = world(alloc, Row::Two, Some(number))?;
    let is_so = is_safe_run(alloc, &mut w, code, texts);
    drop(w);
    is_so
}

// The first call from this one on, every fourth, that doesn't fail safely.
fn first_unsafe(alloc: Global, from: u64) -> Result<Option<u64>, Fail> {
    let reference = reference(alloc)?;
    let found = first_unsafe_by(alloc, &reference, from);
    drop(reference);
    found
}

fn first_unsafe_by(alloc: Global, reference: &Reference, from: u64) -> Result<Option<u64>, Fail> {
    let Some(texts) = reference.texts.first() else {
        return Ok(Some(0));
    };
    let mut number: u64 = 0;
    for code in reference.statuses.iter() {
        if number % 4 == from && !fails_safely(alloc, number, *code, texts)? {
            return Ok(Some(number));
        }
        number = number.saturating_add(1);
    }
    Ok(None)
}

#[test]
fn calls_0_4_8_and_so_on_fail_safely(rt: HostRuntime) -> Result<(), Fail> {
    assert_eq!(rt; first_unsafe(rt.alloc(), 0)?, None);
    Ok(())
}

#[test]
fn calls_1_5_9_and_so_on_fail_safely(rt: HostRuntime) -> Result<(), Fail> {
    assert_eq!(rt; first_unsafe(rt.alloc(), 1)?, None);
    Ok(())
}

#[test]
fn calls_2_6_10_and_so_on_fail_safely(rt: HostRuntime) -> Result<(), Fail> {
    assert_eq!(rt; first_unsafe(rt.alloc(), 2)?, None);
    Ok(())
}

#[test]
fn calls_3_7_11_and_so_on_fail_safely(rt: HostRuntime) -> Result<(), Fail> {
    assert_eq!(rt; first_unsafe(rt.alloc(), 3)?, None);
    Ok(())
}
