//! `of_json`, from a tree to the notebook that it is.
ghost use Rattle.std.specs.Prelude.{◌≡◌, ℕ, not, cond, true, None, IfOk, IfErr, OnOk, [], List as Plain, codes};
ghost use Rattle.std.specs.Str.{bytes_eq};
ghost use Rattle.std.specs.BTreeSet.{contains_text};
ghost use Rattle.jtext.specs.Look as look;
ghost use Rattle.nb_model.specs.Valid.{is_notebook};
ghost use Rattle.nb_model.specs.Reading as reading;
ghost use Rattle.nb_model.specs.Faults as faults;

use crate::parts::notebook_of;
use crate::places::notebook_place;
use crate::validity::{has_version, id_of};
use crate::{NbFault, Notebook};
use jtext::{Json, NoMemory, Text, field};
use std::alloc::Global;
use std::collections::BTreeSet;

/// The notebook that a tree is, by the schema of nbformat 4.5 and with distinct ids. Nothing of the
/// tree is copied. Otherwise the fault of the tree: its version, then the first place where the
/// schema fails, then the first id that stands twice.
pub fn of_json(alloc: Global, t: Json) -> Result<Notebook, NbFault>
    ensures valid { IfOk result (λ _. is_notebook t ≡ true) }
    ensures read { IfOk result (λ n. n ≡ reading.notebook_of t) }
    ensures faultless { IfOk result (λ _. faults.fault_of t ≡ None) }
    ensures refused { IfErr result (λ f. faults.Refuses t f) }
{
    if let Some(fault) = fault_of(alloc, &t)? {
        return Err(fault);
    }
    Ok(notebook_of(alloc, t)?)
}

fn fault_of(alloc: Global, t: &Json) -> Result<Option<NbFault>, NoMemory>
    ensures { IfOk result (λ r. r ≡ faults.fault_of t.now) }
{
    if !t.is_object() {
        return Ok(Some(NbFault::Shape {
            pointer: Text::new(alloc),
        }));
    }
    if !has_version(t) {
        return Ok(Some(NbFault::Version));
    }
    fault_within(alloc, t)
}

/// The fault of an object that has its version.
fn fault_within(alloc: Global, t: &Json) -> Result<Option<NbFault>, NoMemory>
    ensures { IfOk result (λ r. r ≡ faults.fault_within t.now) }
{
    if let Some(pointer) = notebook_place(alloc, t)? {
        return Ok(Some(NbFault::Shape { pointer }));
    }
    match repeated_in(alloc, t)? {
        Some(id) => Ok(Some(NbFault::SameId { id })),
        None => Ok(None),
    }
}

fn repeated_in(alloc: Global, t: &Json) -> Result<Option<Text>, NoMemory>
    ensures { IfOk result (λ r. r
        ≡ faults.repeated_id [] (look.items (reading.value_at (codes "cells") t.now))) }
{
    match field(t, "cells") {
        Some(v) => repeated_id(alloc, v.items()),
        None => Ok(None),
    }
}

/// The first id that an earlier cell has.
fn repeated_id(alloc: Global, cells: &[Json]) -> Result<Option<Text>, NoMemory>
    ensures { IfOk result (λ r. r ≡ faults.repeated_id [] cells.now) }
{
    let mut seen = BTreeSet::new(alloc);
    let mut rest = cells;
    while let Some((first, others)) = rest.split_first() {
        let id = id_of(first);
        if !add(alloc, &mut seen, id)? {
            return Ok(Some(Text::of(alloc, id)?));
        }
        rest = others;
    }
    Ok(None)
}

/// Adds the id, and says whether it is new.
fn add(alloc: Global, seen: &mut BTreeSet<String>, id: &str) -> Result<bool, NoMemory>
    ensures added { IfOk result (λ b. b ≡ not (contains_text seen.old id.now)) }
    ensures seen { OnOk result ((q : Plain ℕ) → contains_text seen.new q
        ≡ cond (bytes_eq id.now q) true (contains_text seen.old q)) }
{
    let owned = String::from_str(alloc, id)?;
    let added = seen.insert(owned)?;
    Ok(added)
}
