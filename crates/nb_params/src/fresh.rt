//! The id of a cell that is injected.
ghost use Rattle.std.specs.Prelude.{◌≡◌, ◌<◌, ◌^◌, List as Plain, ℕ, IfOk, map, string_bytes, codes};
ghost use Rattle.std.specs.List.{list_any};
ghost use Rattle.std.specs.Str.{bytes_eq};
ghost use Rattle.std.specs.BTreeSet.{contains_text};
ghost use Rattle.nb_params.specs.Injected as injected;

use jtext::{NoMemory, Text};
use nb_model::Cell;
use std::alloc::Global;
use std::collections::BTreeSet;

/// An id that none of the cells has: `injected-parameters`, or with the least number from 1.
pub(crate) fn fresh_id(alloc: Global, cells: &[Cell]) -> Result<Text, NoMemory>
    ensures { IfOk result (λ id. id ≡ injected.fresh_id (injected.ids cells.now)) }
{
    if has_id(cells, "injected-parameters") {
        let taken = ids_of(alloc, cells)?;
        let id = least_free(alloc, &taken, cells.len())?;
        Ok(id)
    } else {
        let id = Text::of(alloc, "injected-parameters")?;
        Ok(id)
    }
}

fn has_id(cells: &[Cell], id: &str) -> bool
    ensures { result ≡ list_any (λ c. bytes_eq id.now c.id) cells.now }
{
    cells.iter().any(|cell| id == cell.id.as_str())
}

fn ids_of(alloc: Global, cells: &[Cell]) -> Result<BTreeSet<String>, NoMemory>
    ensures { IfOk result (λ ids. (q : Plain ℕ)
        → contains_text ids q ≡ list_any (bytes_eq q) (injected.ids cells.now)) }
{
    let mut ids = BTreeSet::new(alloc);
    for cell in cells {
        ids.insert(String::from_str(alloc, cell.id.as_str())?)?;
    }
    Ok(ids)
}

/// The id with the least number from 1 that isn't taken, after at most so many that are.
fn least_free(alloc: Global, taken: &BTreeSet<String>, steps: usize) -> Result<Text, NoMemory>
    requires { steps < 2 ^ 63 }
    ensures { IfOk result (λ id. (ids : Plain (Plain ℕ))
        → ((q : Plain ℕ) → contains_text taken.now q ≡ list_any (bytes_eq q) ids)
        → id ≡ injected.numbered_id (injected.free_from steps 1 ids)) }
{
    for i in 0..steps {
        let id = numbered_id(alloc, i + 1)?;
        if !taken.contains(id.as_str()) {
            return Ok(Text::of_string(id));
        }
    }
    Ok(Text::of_string(numbered_id(alloc, steps + 1)?))
}

fn numbered_id(alloc: Global, n: usize) -> Result<String, NoMemory>
    ensures { IfOk result (λ s. string_bytes s ≡ injected.numbered_id n) }
{
    Ok(format!(in alloc; "injected-parameters-{n}")?)
}
