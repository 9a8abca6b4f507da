//! From the bytes of the input to the notebook with its parameters.
ghost use Rattle.std.specs.Prelude.{◌≡◌, ℕ, List as Plain, IfOk, IfErr};
ghost use Rattle.words.specs.declared.ask.Ask as asks;
ghost use Rattle.nb_load.specs.Loaded.{Gives, IsNotebook, Accepts, Refuses};

use crate::LoadFault;
use jtext::{Bytes, Json, JsonFault, read};
use nb_migrate::of_any;
use nb_model::{NbFault, Notebook};
use nb_params::{InjectFault, inject};
use std::alloc::Global;
use words::Ask;

/// How deep lists and objects may nest.
const DEEP: u32 = 128;

/// The notebook that the bytes give (nbformat 4.0 to 4.5), raised to 4.5, with the parameters that
/// are asked for; else the first of the faults in that order. The bytes are let go.
pub fn load(alloc: Global, bytes: Bytes, ask: &Ask) -> Result<Notebook, LoadFault>
    ensures ok { IfOk result (Accepts ask.now bytes) }
    ensures err { IfErr result (Refuses ask.now bytes) }
{
    notebook_of(alloc, bytes.bytes(), ask)
}

fn notebook_of(alloc: Global, bytes: &[u8], ask: &Ask) -> Result<Notebook, LoadFault>
    ensures ok { IfOk result (Accepts ask.now bytes.now) }
    ensures err { IfErr result (Refuses ask.now bytes.now) }
{
    let tree = parse(alloc, bytes)?;
    let notebook = accept(alloc, tree)?;
    with_parameters(alloc, notebook, ask)
}

// The tree that the bytes spell.
fn parse(alloc: Global, bytes: &[u8]) -> Result<Json, LoadFault>
    ensures ok { IfOk result (Gives bytes.now) }
    ensures err { IfErr result (λ e. (ask : asks.Ask) → Refuses ask bytes.now e) }
{
    match read(alloc, bytes, DEEP) {
        Ok(tree) => Ok(tree),
        Err(JsonFault::NoMemory) => Err(LoadFault::NoMemory),
        Err(fault) => Err(LoadFault::NotJson(fault)),
    }
}

// The notebook that the tree of the bytes is.
fn accept(alloc: Global, tree: Json) -> Result<Notebook, LoadFault>
    ensures ok { IfOk result (λ n. (bytes : Plain ℕ) → Gives bytes tree → IsNotebook bytes n) }
    ensures err { IfErr result (λ e. (ask : asks.Ask) (bytes : Plain ℕ) →
        Gives bytes tree → Refuses ask bytes e) }
{
    match of_any(alloc, tree) {
        Ok(notebook) => Ok(notebook),
        Err(NbFault::NoMemory) => Err(LoadFault::NoMemory),
        Err(fault) => Err(LoadFault::NotNotebook(fault)),
    }
}

// The notebook with the parameters.
fn with_parameters(alloc: Global, notebook: Notebook, ask: &Ask) -> Result<Notebook, LoadFault>
    ensures ok { IfOk result (λ n. (bytes : Plain ℕ) →
        IsNotebook bytes notebook → Accepts ask.now bytes n) }
    ensures err { IfErr result (λ e. (bytes : Plain ℕ) →
        IsNotebook bytes notebook → Refuses ask.now bytes e) }
{
    match inject(alloc, notebook, &ask.params, ask.report) {
        Ok(notebook) => Ok(notebook),
        Err(InjectFault::NoTranslator { language }) => Err(LoadFault::NoTranslator { language }),
        Err(InjectFault::NoMemory) => Err(LoadFault::NoMemory),
    }
}
