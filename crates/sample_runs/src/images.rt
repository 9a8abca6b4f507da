//! What a crash may leave at each moment of a run.
use crate::kinds::is_of_disk;
use crate::row::Row;
use crate::worlds::{SPEC, SPEC_PATH};
use jtext::{Bytes, List, NoMemory, Text};
use std::alloc::Global;
use std::mem;
use toy_core::Toy;
use world::{Did, Entry};
use world_mem::{Files, ImageFault, MemWorld};

/// How many images of one moment are looked at, for each output. The paths come in the order of their
/// bytes, so these show each content that the outputs may have.
const IMAGES: u64 = 8;

const IMAGES_OF_TWO: u64 = 64;

/// The end of the name of an output's temporary file.
const TEMPORARY: &str = ".nbrun-tmp";

fn is_temporary_of(path: &str, output: &str) -> bool {
    let path = path.as_bytes();
    path.len() == output.len().saturating_add(TEMPORARY.len())
        && path.starts_with(output.as_bytes())
        && path.ends_with(TEMPORARY.as_bytes())
}

/// The texts of all saves of an output, in their order: what was written to its temporary file.
pub(crate) fn texts_of(
    alloc: Global,
    w: &MemWorld<Toy>,
    output: &str,
) -> Result<List<Bytes>, NoMemory> {
    let mut texts = List::new(alloc);
    let mut text = Bytes::new(alloc);
    if let Some(entries) = w.journal() {
        for entry in entries.iter() {
            match entry {
                Entry::Wrote { path, bytes, .. } => {
                    if is_temporary_of(path.as_str(), output) {
                        text.add(bytes.bytes())?;
                    }
                }
                Entry::Renamed { to, .. } => {
                    if to.as_str() == output {
                        texts.push(mem::replace(&mut text, Bytes::new(alloc)))?;
                    }
                }
                _ => {}
            }
        }
    }
    Ok(texts)
}

/// How many saves of an output were acknowledged.
pub fn acknowledged(w: &MemWorld<Toy>, output: &str) -> usize {
    let mut saves: usize = 0;
    let mut renamed = false;
    if let Some(entries) = w.journal() {
        for entry in entries.iter() {
            if renamed && is_done_sync(entry) {
                saves = saves.saturating_add(1);
            }
            renamed = is_done_rename(entry, output);
        }
    }
    saves
}

fn is_done_rename(entry: &Entry, output: &str) -> bool {
    match entry {
        Entry::Renamed { to, did, .. } => *did == Did::Done && to.as_str() == output,
        _ => false,
    }
}

fn is_done_sync(entry: &Entry) -> bool {
    match entry {
        Entry::DirSynced { did, .. } => *did == Did::Done,
        _ => false,
    }
}

/// Whether no call of the disk names this output or its temporary file once one of these failed.
pub fn is_left_alone(w: &MemWorld<Toy>, output: &str) -> bool {
    let mut has_failed = false;
    let mut renamed = false;
    if let Some(entries) = w.journal() {
        for entry in entries.iter() {
            if has_failed && is_of_save(entry, output) {
                return false;
            }
            has_failed = has_failed || fails_save(entry, output, renamed);
            renamed = is_done_rename(entry, output);
        }
    }
    true
}

// Whether this is a call of a save of the output that failed; the folder is synced behind a rename.
fn fails_save(entry: &Entry, output: &str, renamed: bool) -> bool {
    match entry {
        Entry::Created { did, .. } | Entry::Wrote { did, .. } => {
            *did == Did::Failed && is_of_save(entry, output)
        }
        Entry::Synced { did, .. } | Entry::Renamed { did, .. } => {
            *did == Did::Failed && is_of_save(entry, output)
        }
        Entry::DirSynced { did, .. } => *did == Did::Failed && renamed,
        _ => false,
    }
}

// Whether the call names the output or its temporary file.
fn is_of_save(entry: &Entry, output: &str) -> bool {
    match entry {
        Entry::Created { path, .. } | Entry::Wrote { path, .. } => is_path_of(path, output),
        Entry::Synced { path, .. } | Entry::Removed { path, .. } => is_path_of(path, output),
        Entry::Renamed { from, to, .. } => is_path_of(from, output) || is_path_of(to, output),
        _ => false,
    }
}

fn is_path_of(path: &Text, output: &str) -> bool {
    path.as_str() == output || is_temporary_of(path.as_str(), output)
}

/// Whether at each moment of a run each image has at this output what was acknowledged last or the
/// next of these texts, and every input as it was.
pub fn each_image_is_safe(
    w: &MemWorld<Toy>,
    row: Row,
    output: &str,
    texts: &List<Bytes>,
) -> Result<bool, ImageFault> {
    let Some(entries) = w.journal() else {
        return Ok(false);
    };
    let mut moment: u64 = 0;
    let mut saves: usize = 0;
    let mut renamed = false;
    for entry in entries.iter() {
        // Nothing else changes what a crash leaves: the moments between two of these calls are as the second one's.
        if is_of_disk(entry) {
            let near = Near::of(row, output, texts, saves);
            if !is_safe_at(w, row, moment, &near)? {
                return Ok(false);
            }
        }
        moment = moment.saturating_add(1);
        if renamed && is_done_sync(entry) {
            saves = saves.saturating_add(1);
        }
        renamed = is_done_rename(entry, output);
    }
    let near = Near::of(row, output, texts, saves);
    is_safe_at(w, row, moment, &near)
}

/// What may stand at an output at a moment.
#[derive(Clone, Copy, Drop)]
struct Near<'a> {
    output: &'a str,
    // The save that was acknowledged last, or what stood there before any.
    last: Option<&'a [u8]>,
    next: Option<&'a [u8]>,
}

impl<'a> Near<'a> {
    // Where so many saves are acknowledged.
    fn of(row: Row, output: &'a str, texts: &'a List<Bytes>, saves: usize) -> Near<'a> {
        let last = match saves.checked_sub(1) {
            Some(place) => texts.get(place).map(|text| text.bytes()),
            None => row.old().map(|text| text.as_bytes()),
        };
        Near {
            output,
            last,
            next: texts.get(saves).map(|text| text.bytes()),
        }
    }

    fn is_in(&self, files: &Files) -> bool {
        let stands = file_in(files, self.output);
        stands == self.last || (stands.is_some() && stands == self.next)
    }
}

fn is_safe_at(w: &MemWorld<Toy>, row: Row, moment: u64, near: &Near) -> Result<bool, ImageFault> {
    let images = match row {
        Row::Two | Row::Over => IMAGES,
        Row::Batch => IMAGES_OF_TWO,
    };
    for choice in 0..images {
        let files = w.image(moment, choice)?;
        let is_so = near.is_in(&files) && keeps_inputs(&files, row);
        drop(files);
        if !is_so {
            return Ok(false);
        }
    }
    Ok(true)
}

fn keeps_inputs(files: &Files, row: Row) -> bool {
    for (path, text) in row.inputs() {
        if file_in(files, path) != Some(text.as_bytes()) {
            return false;
        }
    }
    file_in(files, SPEC_PATH) == Some(SPEC.as_bytes())
}

fn file_in<'a>(files: &'a Files, path: &str) -> Option<&'a [u8]> {
    for (name, bytes) in files.as_slice() {
        if name.as_str() == path {
            return Some(bytes.bytes());
        }
    }
    None
}
