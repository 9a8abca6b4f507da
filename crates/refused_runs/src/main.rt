//! Runs a row over the world in memory and says whether it was safe: `refused_runs two` or
//! `refused_runs batch`. Where one request for memory was refused on the way, as `bench/refuse.py` has it,
//! the run still has to end its children and leave whole saves, with a status that the refusal allows.
#![tactic(auto)]

use jtext::NoMemory;
use sample_runs::{
    Reference, Row, acknowledged, each_image_is_safe, ends_its_children, status, world,
};
use std::alloc::Global;
use std::process::ExitCode;
use std::{env, io};
use toy_core::Toy;
use world_mem::{ImageFault, MemWorld};

/// What came of a run.
#[derive(Clone, Copy, Debug, Drop, PartialEq, Eq)]
enum Verdict {
    Safe,
    /// Memory was refused before the run began, or while it was looked over.
    NotSeen,
    WrongStatus,
    ChildLeft,
    UnsafeImage,
}

impl Verdict {
    fn text(self) -> &'static str {
        match self {
            Verdict::Safe => "safe",
            Verdict::NotSeen => "not seen",
            Verdict::WrongStatus => "wrong status",
            Verdict::ChildLeft => "child left",
            Verdict::UnsafeImage => "unsafe image",
        }
    }
}

fn main(rt: HostRuntime) -> ExitCode {
    let row = match row_of(&rt) {
        Ok(Some(row)) => row,
        Ok(None) => return ExitCode::from(2),
        Err(_) => return ExitCode::from(0),
    };
    let verdict = match judge(rt.alloc(), row) {
        Ok(verdict) => verdict,
        Err(NoMemory) => Verdict::NotSeen,
    };
    let printed = println!(&rt; "{}", verdict.text());
    match (verdict, printed) {
        (Verdict::Safe, Ok(())) => ExitCode::from(0),
        (Verdict::NotSeen, _) => ExitCode::from(0),
        (_, _) => ExitCode::from(1),
    }
}

fn row_of(rt: &HostRuntime) -> io::Result<Option<Row>> {
    let mut args = env::args(rt)?;
    args.next();
    let words: Vec<String> = args.collect(rt.alloc())?;
    Ok(match words.as_slice() {
        [word] => match word.as_str() {
            "two" => Some(Row::Two),
            "batch" => Some(Row::Batch),
            _ => None,
        },
        _ => None,
    })
}

fn judge(alloc: Global, row: Row) -> Result<Verdict, NoMemory> {
    let reference = Reference::of(alloc, row)?;
    let verdict = judge_beside(alloc, row, &reference);
    drop(reference);
    verdict
}

fn judge_beside(alloc: Global, row: Row, reference: &Reference) -> Result<Verdict, NoMemory> {
    if !is_whole(reference) {
        return Ok(Verdict::NotSeen);
    }
    let mut w = world(alloc, row, None)?;
    let verdict = judge_by(alloc, row, reference, &mut w);
    drop(w);
    verdict
}

// Whether the reference ran to its end and its journal was told: memory may have been refused to it too.
fn is_whole(reference: &Reference) -> bool {
    reference.status == 0 && !reference.statuses.is_empty()
}

fn judge_by(
    alloc: Global,
    row: Row,
    reference: &Reference,
    w: &mut MemWorld<Toy>,
) -> Result<Verdict, NoMemory> {
    let code = status(alloc, row, w)?;
    if !may_answer(w, row, reference, code) {
        return Ok(Verdict::WrongStatus);
    }
    if w.journal().is_none() {
        // Once memory for an entry is refused the journal is told no more, and no image can be made.
        return Ok(Verdict::Safe);
    }
    if !ends_its_children(w) {
        return Ok(Verdict::ChildLeft);
    }
    judge_images(w, row, reference)
}

// Whether a run may answer this status: 12; 10, 11 and 14 where the world was refused memory; 0 where
// all saves are acknowledged, or the journal is told no more.
fn may_answer(w: &MemWorld<Toy>, row: Row, reference: &Reference, code: u8) -> bool {
    match code {
        0 => w.journal().is_none() || are_all_saved(w, row, reference),
        10 | 11 | 14 => w.journal().is_none() || w.starved() != 0,
        _ => code == 12,
    }
}

fn are_all_saved(w: &MemWorld<Toy>, row: Row, reference: &Reference) -> bool {
    for (output, texts) in row.outputs().iter().zip(reference.texts.iter()) {
        if acknowledged(w, output) != texts.len() {
            return false;
        }
    }
    true
}

fn judge_images(w: &MemWorld<Toy>, row: Row, reference: &Reference) -> Result<Verdict, NoMemory> {
    for (output, texts) in row.outputs().iter().zip(reference.texts.iter()) {
        match each_image_is_safe(w, row, output, texts) {
            Ok(true) => {}
            Ok(false) => return Ok(Verdict::UnsafeImage),
            Err(ImageFault::NoMemory) => return Err(NoMemory),
            Err(_) => return Ok(Verdict::UnsafeImage),
        }
    }
    Ok(Verdict::Safe)
}
