//! `Reference`, a run in which no call fails.
use crate::images::texts_of;
use crate::kinds::{kind_of_call, kind_of_last_call};
use crate::row::Row;
use crate::worlds::{status, world};
use jtext::{Bytes, List, NoMemory};
use std::alloc::Global;
use toy_core::Toy;
use world::{Did, Entry};
use world_mem::MemWorld;

/// How many saves a job of these runs makes: of the prepared notebook, and one after each cell.
const SAVES_OF_TWO: usize = 3;

const SAVES_OF_ONE: usize = 2;

/// A run in which no call fails, by which those with one are judged.
#[derive(Drop)]
pub struct Reference {
    /// The exit status, 0.
    pub status: u8,
    /// The exit status that each call makes where it fails, by the numbers of the calls.
    pub statuses: Vec<u8>,
    /// The texts of the saves of each output.
    pub texts: Vec<List<Bytes>>,
}

impl Reference {
    /// The run of this row.
    pub fn of(alloc: Global, row: Row) -> Result<Reference, NoMemory> {
        let mut w = world(alloc, row, None)?;
        let made = Reference::by(alloc, row, &mut w);
        drop(w);
        made
    }

    fn by(alloc: Global, row: Row, w: &mut MemWorld<Toy>) -> Result<Reference, NoMemory> {
        let status = status(alloc, row, w)?;
        let mut texts = Vec::new(alloc);
        for output in row.outputs() {
            texts.push(texts_of(alloc, w, output)?)?;
        }
        Ok(Reference {
            status,
            statuses: statuses(alloc, row, w)?,
            texts,
        })
    }
}

/// How many saves the jobs of a row make together.
pub(crate) fn saves_of(row: Row) -> usize {
    match row {
        Row::Two | Row::Over => SAVES_OF_TWO,
        Row::Batch => 2 * SAVES_OF_ONE,
    }
}

// The status of each call where it fails, by the journal. The jobs take leave once all saves are acknowledged.
fn statuses(alloc: Global, row: Row, w: &MemWorld<Toy>) -> Result<Vec<u8>, NoMemory> {
    let mut statuses = Vec::new(alloc);
    let mut saves: usize = 0;
    if let Some(entries) = w.journal() {
        for entry in entries.iter() {
            let code = if saves < saves_of(row) {
                kind_of_call(entry)
            } else {
                kind_of_last_call(entry)
            };
            statuses.push(code)?;
            if let Entry::DirSynced { did, .. } = entry {
                if *did == Did::Done {
                    saves = saves.saturating_add(1);
                }
            }
        }
    }
    Ok(statuses)
}
