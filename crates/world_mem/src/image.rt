//! The files that a crash may leave.
ghost use Rattle.std.specs.Prelude.{◌≡◌, ◌/◌, ◌++◌, ◌∷◌, [], None, length, reverse};
ghost use Rattle.std.specs.Prelude.{option_map, IfOk};
ghost use Rattle.world_mem.specs.Image.{choices_of, all_choices, file_of, pick, IsPicked};

use crate::Files;
use crate::folder::Folder;
use crate::known_paths::KnownPaths;
use crate::path_state::PathState;
use jtext::{Bytes, NoMemory, Text};
use std::alloc::Global;
use world::{Entry, Left};

/// What is picked at a path.
#[derive(Drop)]
struct Picked {
    // The file, or none.
    bytes: Option<Bytes>,
    // What is left of the number.
    rest: u64,
}

/// The files that a crash may leave after these entries, the oldest first, where those of `start`
/// were there before, picked by `choice`. The paths are taken in the order of their bytes; a path
/// with m options takes the option `choice % m`, and `choice / m` goes to the next. What may be
/// anything counts as three options: absent, no byte, and the one byte `X`.
pub(crate) fn image(
    alloc: Global,
    start: &Folder,
    entries: &[Entry],
    choice: u64,
) -> Result<Files, NoMemory>
    ensures { IfOk result (λ files.
        IsPicked start.now.files.items (reverse entries.now) choice files) }
{
    let known = KnownPaths::after(alloc, start, entries)?;
    let mut files = Files::new(alloc);
    let mut rest = choice;
    for (path, state) in known.items() {
        let picked = pick(alloc, start.get(path), state, rest)?;
        keep(alloc, &mut files, path, picked.bytes)?;
        rest = picked.rest;
    }
    Ok(files)
}

// Adds a file, where there is one.
fn keep(alloc: Global, files: &mut Files, path: &Text, bytes: Option<Bytes>) -> Result<(), NoMemory>
    ensures { IfOk result (λ _. files.new ≡ files.old ++ file_of path.now bytes) }
{
    if let Some(bytes) = bytes {
        files.push((path.copy(alloc)?, bytes))?;
    }
    Ok(())
}

// What a number picks at a path in this state, with this file at the start.
fn pick(
    alloc: Global,
    old: Option<&Bytes>,
    state: &PathState,
    number: u64,
) -> Result<Picked, NoMemory>
    ensures bytes { IfOk result (λ picked. picked.bytes
        ≡ pick (all_choices (option_map (λ b. b.now) old.entry) state.now.options) number) }
    ensures rest { IfOk result (λ picked. picked.rest
        ≡ number / length (all_choices (option_map (λ b. b.now) old.entry) state.now.options)) }
{
    let mut choices = expand(alloc, old, state.options())?;
    let count = choices.len() as u64;
    let bytes = choices.swap_remove((number % count) as usize);
    Ok(Picked {
        bytes,
        rest: number / count,
    })
}

// What these options stand for at a path with this file at the start.
fn expand(
    alloc: Global,
    old: Option<&Bytes>,
    options: &[Left],
) -> Result<Vec<Option<Bytes>>, NoMemory>
    ensures { IfOk result (λ v.
        v.items ≡ all_choices (option_map (λ b. b.now) old.entry) options.now) }
{
    let mut choices = Vec::new(alloc);
    for option in options {
        add_choices(alloc, old, option, &mut choices)?;
    }
    Ok(choices)
}

// Adds what an option stands for.
fn add_choices(
    alloc: Global,
    old: Option<&Bytes>,
    option: &Left,
    choices: &mut Vec<Option<Bytes>>,
) -> Result<(), NoMemory>
    ensures { IfOk result (λ _. choices.new.items
        ≡ choices.old.items ++ choices_of (option_map (λ b. b.now) old.entry) option.now) }
{
    match option {
        Left::Old => add(choices, copy(alloc, old)?),
        Left::Absent => add(choices, None),
        Left::Whole(bytes) => add(choices, Some(Bytes::of(alloc, bytes.bytes())?)),
        Left::Any => {
            add(choices, None)?;
            add(choices, Some(Bytes::new(alloc)))?;
            add(choices, Some(Bytes::of(alloc, b"X")?))
        }
    }
}

fn add(choices: &mut Vec<Option<Bytes>>, choice: Option<Bytes>) -> Result<(), NoMemory>
    ensures { IfOk result (λ _. choices.new.items ≡ choices.old.items ++ choice ∷ []) }
{
    if choices.push(choice).is_err() {
        return Err(NoMemory);
    }
    Ok(())
}

fn copy(alloc: Global, bytes: Option<&Bytes>) -> Result<Option<Bytes>, NoMemory>
    ensures { IfOk result (λ r. r ≡ option_map (λ b. b.now) bytes.entry) }
{
    match bytes {
        Some(bytes) => Ok(Some(Bytes::of(alloc, bytes.bytes())?)),
        None => Ok(None),
    }
}
