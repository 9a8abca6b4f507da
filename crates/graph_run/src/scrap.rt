//! One take: the output of the job is read, and its scrap is looked for.
ghost use Rattle.std.specs.Prelude.{◌≡◌, ◌⊎◌, ◌≤◌, Ok, Err, IfOk, IfErr, ℕ, List as Plain};
ghost use Rattle.jtext.specs.Depth.{depth};
ghost use Rattle.jtext.specs.Keyed.{Keyed};
ghost use Rattle.nb_load.specs.Loaded.{Gives, IsNotebook};
ghost use Rattle.world.specs.Counts.{DiskCause};
ghost use Rattle.world.specs.Told.{Between};
ghost use Rattle.said_lines.specs.Between.{DiskRose};
ghost use Rattle.graph_run.specs.declared.refusal.Refusal.TheVariants as refusal;
ghost use Rattle.graph_run.specs.Tests as spec;

use crate::{Refusal, Workflow};
use job_graph::Take;
use jtext::{Json, JsonFault, Text, copy, field, read};
use nb_load::LoadFault;
use nb_migrate::of_any;
use nb_model::{NbFault, Notebook};
use scrap_book::scraps;
use std::alloc::Global;
use world::{Disk, ReadFile};

/// The most bytes of an output.
const MOST: u64 = 33_554_432;

/// How deep lists and objects may nest.
const DEEP: u32 = 128;

/// The value that a take gives, by one read of the output of its job.
pub(crate) fn taken_value<W: Disk>(
    alloc: Global,
    w: &mut W,
    flow: &Workflow,
    take: &Take,
) -> Result<Json, Refusal>
    ensures told { Between W.journal w.old w.new
        (λ before after. spec.Takes flow.now take.now before result after) }
    ensures parameter { IfOk result (λ v. Keyed v × (depth v ≤ 124)) }
    ensures read_fault { (path : Plain ℕ) → result ≡ Err (refusal.NotRead path) →
        DiskRose W.counts w.old w.new }
    ensures counts { DiskCause (W.counts w.old) (W.counts w.new) ⊥ }
{
    let path = Text::of(alloc, flow.output_of(take.job as usize))?;
    match w.read_file(alloc, &path, MOST) {
        ReadFile::Whole(bytes) => scrap_in(alloc, bytes.bytes(), flow, take),
        ReadFile::Big => Err(Refusal::TooLarge),
        ReadFile::Failed => Err(Refusal::NotRead { path }),
        ReadFile::NoMemory => Err(Refusal::NoMemory),
    }
}

// The value of the scrap in the notebook that the bytes give.
fn scrap_in(alloc: Global, bytes: &[u8], flow: &Workflow, take: &Take) -> Result<Json, Refusal>
    ensures found { IfOk result (spec.HasScrap bytes.now take.now.scrap) }
    ensures parameter { IfOk result (λ v. Keyed v × (depth v ≤ 124)) }
    ensures refused { IfErr result (λ e.
        (e ≡ refusal.NoMemory) ⊎ spec.GivesNoValue flow.now take.now bytes.now e) }
{
    let notebook = notebook_of(alloc, bytes)?;
    let found = Json::Obj(scraps(alloc, &notebook)?);
    match field(&found, take.scrap.as_str()) {
        Some(value) => Ok(copy(alloc, value)?),
        None => Err(Refusal::NoScrap {
            scrap: take.scrap.copy(alloc)?,
            job: Text::of(alloc, flow.name_of(take.job as usize))?,
        }),
    }
}

// The notebook that the bytes give.
fn notebook_of(alloc: Global, bytes: &[u8]) -> Result<Notebook, Refusal>
    ensures read { IfOk result (IsNotebook bytes.now) }
    ensures refused { IfErr result (λ e. (e ≡ refusal.NoMemory) ⊎ spec.IsUnread bytes.now e) }
{
    match load(alloc, bytes) {
        Ok(notebook) => Ok(notebook),
        Err(LoadFault::NotJson(fault)) => Err(Refusal::NotLoaded(LoadFault::NotJson(fault))),
        Err(LoadFault::NotNotebook(fault)) => {
            Err(Refusal::NotLoaded(LoadFault::NotNotebook(fault)))
        }
        Err(LoadFault::NoTranslator { language }) => {
            Err(Refusal::NotLoaded(LoadFault::NoTranslator { language }))
        }
        Err(LoadFault::NoMemory) => Err(Refusal::NoMemory),
    }
}

fn load(alloc: Global, bytes: &[u8]) -> Result<Notebook, LoadFault>
    ensures read { IfOk result (λ n. IsNotebook bytes.now n) }
    ensures refused { IfErr result (λ f. spec.Refuses bytes.now f) }
{
    match parse(alloc, bytes) {
        Ok(tree) => accept(alloc, tree),
        Err(fault) => Err(fault),
    }
}

// The tree that the bytes spell.
fn parse(alloc: Global, bytes: &[u8]) -> Result<Json, LoadFault>
    ensures ok { IfOk result (Gives bytes.now) }
    ensures err { IfErr result (λ f. spec.Refuses bytes.now f) }
{
    match read(alloc, bytes, DEEP) {
        Ok(tree) => Ok(tree),
        Err(JsonFault::NoMemory) => Err(LoadFault::NoMemory),
        Err(fault) => Err(LoadFault::NotJson(fault)),
    }
}

// The notebook that the tree of the bytes is.
fn accept(alloc: Global, tree: Json) -> Result<Notebook, LoadFault>
    ensures ok { IfOk result (λ n. (bytes : Plain ℕ) → Gives bytes tree → IsNotebook bytes n) }
    ensures err { IfErr result (λ f. (bytes : Plain ℕ) →
        Gives bytes tree → spec.Refuses bytes f) }
{
    match of_any(alloc, tree) {
        Ok(notebook) => Ok(notebook),
        Err(NbFault::NoMemory) => Err(LoadFault::NoMemory),
        Err(fault) => Err(LoadFault::NotNotebook(fault)),
    }
}
