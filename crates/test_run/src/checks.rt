//! What a run has left.
use crate::jobs::run;
use job_end::Answer;
use jtext::{Bytes, List, NoMemory, Text};
use std::alloc::Global;
use world::{Entry, KernelSide};
use world_mem::MemWorld;

/// Whether the job that ended as this one, from 0, has this status.
pub(crate) fn has_status(answers: &List<Answer>, place: usize, status: u8) -> bool {
    match answers.get(place) {
        Some(answer) => answer.status == status,
        None => false,
    }
}

/// Whether the job of these words, alone, ends with this status, and just this is said.
pub(crate) fn ends<K: KernelSide>(
    alloc: Global,
    w: &mut MemWorld<K>,
    words: &str,
    status: u8,
    said: &str,
) -> Result<bool, NoMemory> {
    let answers = run(alloc, w, words)?;
    Ok(answers.len() == 1 && has_status(&answers, 0, status) && has_said(w, said))
}

/// Whether just this was said.
pub(crate) fn has_said<K: KernelSide>(w: &MemWorld<K>, text: &str) -> bool {
    w.said().bytes() == text.as_bytes()
}

/// Whether the file at this path holds just this text.
pub(crate) fn holds<K: KernelSide>(
    alloc: Global,
    w: &MemWorld<K>,
    path: &str,
    text: &str,
) -> Result<bool, NoMemory> {
    match w.file(&Text::of(alloc, path)?) {
        Some(file) => Ok(file.bytes() == text.as_bytes()),
        None => Ok(false),
    }
}

/// The marks of the cells in the file at this path and the types of their outputs, in their order, each
/// with a space behind it.
pub(crate) fn marks<K: KernelSide>(
    alloc: Global,
    w: &MemWorld<K>,
    path: &str,
) -> Result<String, NoMemory> {
    let mut marks = String::new(alloc);
    if let Some(file) = w.file(&Text::of(alloc, path)?) {
        if let Ok(text) = std::str::from_utf8(file.bytes()) {
            for line in text.lines() {
                put_mark(&mut marks, line.trim())?;
            }
        }
    }
    Ok(marks)
}

// Adds the value of a line that says how a cell ended or of which type an output is.
fn put_mark(marks: &mut String, line: &str) -> Result<(), NoMemory> {
    let value = match line.split_once(": \"") {
        Some(("\"status\"", value)) => value,
        Some(("\"output_type\"", value)) => value,
        _ => return Ok(()),
    };
    if let Some((word, _)) = value.split_once('"') {
        marks.push_str(word)?;
        marks.push_str(" ")?;
    }
    Ok(())
}

/// How often this text stands in the save of this number, from 0, onto `out.ipynb`.
pub(crate) fn often_in_save<K: KernelSide>(
    alloc: Global,
    w: &MemWorld<K>,
    number: usize,
    text: &str,
) -> Result<usize, NoMemory> {
    let mut saves: usize = 0;
    let mut save = Bytes::new(alloc);
    if let Some(entries) = w.journal() {
        for entry in entries.iter() {
            match entry {
                Entry::Wrote { path, bytes, .. } => {
                    if saves == number && path.as_str() == "out.ipynb.nbrun-tmp" {
                        save.add(bytes.bytes())?;
                    }
                }
                Entry::Renamed { .. } => saves = saves.saturating_add(1),
                _ => {}
            }
        }
    }
    Ok(count(save.bytes(), text.as_bytes()))
}

/// How often this text stands in what was sent.
pub(crate) fn sends<K: KernelSide>(w: &MemWorld<K>, text: &str) -> usize {
    let mut often: usize = 0;
    if let Some(entries) = w.journal() {
        for entry in entries.iter() {
            if let Entry::Put { bytes, .. } = entry {
                often = often.saturating_add(count(bytes.bytes(), text.as_bytes()));
            }
        }
    }
    often
}

/// How many kernels were started.
pub(crate) fn starts<K: KernelSide>(w: &MemWorld<K>) -> usize {
    let mut starts: usize = 0;
    if let Some(entries) = w.journal() {
        for entry in entries.iter() {
            if let Entry::Started { .. } = entry {
                starts = starts.saturating_add(1);
            }
        }
    }
    starts
}

/// How many pings were taken, and the limit of the first wait after the last one.
pub(crate) fn pings<K: KernelSide>(w: &MemWorld<K>) -> (usize, Option<u32>) {
    let mut pings: usize = 0;
    let mut limit = None;
    if let Some(entries) = w.journal() {
        for entry in entries.iter() {
            match entry {
                Entry::Put { bytes, .. } => {
                    if holds_text(bytes.bytes(), "\x04ping") {
                        pings = pings.saturating_add(1);
                        limit = None;
                    }
                }
                Entry::Waited { ms, .. } => limit = limit.or(Some(*ms)),
                _ => {}
            }
        }
    }
    (pings, limit)
}

/// Whether this text stands so often in the file at this path.
pub(crate) fn has<K: KernelSide>(
    alloc: Global,
    w: &MemWorld<K>,
    path: &str,
    text: &str,
    often: usize,
) -> Result<bool, NoMemory> {
    match w.file(&Text::of(alloc, path)?) {
        Some(file) => Ok(count(file.bytes(), text.as_bytes()) == often),
        None => Ok(false),
    }
}

// How often these octets stand in those, also where the places overlap.
fn count(octets: &[u8], wanted: &[u8]) -> usize {
    let mut often: usize = 0;
    for place in 0..octets.len() {
        if let Some(rest) = octets.get(place..) {
            if rest.starts_with(wanted) {
                often = often.saturating_add(1);
            }
        }
    }
    often
}

/// The last moment of the journal.
pub(crate) fn last_moment<K: KernelSide>(w: &MemWorld<K>) -> u64 {
    let mut last = 0;
    if let Some(entries) = w.journal() {
        for entry in entries.iter() {
            if let Entry::Moment { ms } = entry {
                last = *ms;
            }
        }
    }
    last
}

/// The number of the call that is the third rename.
pub(crate) fn third_rename<K: KernelSide>(w: &MemWorld<K>) -> u64 {
    let mut number: u64 = 0;
    let mut renames: u32 = 0;
    if let Some(entries) = w.journal() {
        for entry in entries.iter() {
            if let Entry::Renamed { .. } = entry {
                renames = renames.saturating_add(1);
                if renames == 3 {
                    return number;
                }
            }
            number = number.saturating_add(1);
        }
    }
    number
}

/// The number of the last call that put bytes.
pub(crate) fn last_put<K: KernelSide>(w: &MemWorld<K>) -> u64 {
    let mut number: u64 = 0;
    let mut last: u64 = 0;
    if let Some(entries) = w.journal() {
        for entry in entries.iter() {
            if let Entry::Put { .. } = entry {
                last = number;
            }
            number = number.saturating_add(1);
        }
    }
    last
}

/// Whether a write has failed.
pub(crate) fn has_failed_put<K: KernelSide>(w: &MemWorld<K>) -> bool {
    let mut has = false;
    if let Some(entries) = w.journal() {
        for entry in entries.iter() {
            if let Entry::PutFailed { .. } = entry {
                has = true;
            }
        }
    }
    has
}

/// The limit of the first wait after bytes with this text were put.
pub(crate) fn limit_after<K: KernelSide>(w: &MemWorld<K>, text: &str) -> Option<u32> {
    let mut was_put = false;
    if let Some(entries) = w.journal() {
        for entry in entries.iter() {
            match entry {
                Entry::Put { bytes, .. } => was_put = was_put || holds_text(bytes.bytes(), text),
                Entry::Waited { ms, .. } => {
                    if was_put {
                        return Some(*ms);
                    }
                }
                _ => {}
            }
        }
    }
    None
}

/// The last moment before bytes with this text were put.
pub(crate) fn moment_before<K: KernelSide>(w: &MemWorld<K>, text: &str) -> Option<u64> {
    let mut last = 0;
    if let Some(entries) = w.journal() {
        for entry in entries.iter() {
            match entry {
                Entry::Moment { ms } => last = *ms,
                Entry::Put { bytes, .. } => {
                    if holds_text(bytes.bytes(), text) {
                        return Some(last);
                    }
                }
                _ => {}
            }
        }
    }
    None
}

// Whether this text stands there.
fn holds_text(octets: &[u8], text: &str) -> bool {
    0 < count(octets, text.as_bytes())
}
