//! From the bytes of the input to the text that is saved.
ghost use Rattle.std.specs.Prelude.{◌≡◌, ◌⊎◌, ◌<◌, ℕ, List as Plain, length, IfOk, IfErr};
ghost use Rattle.nb_load.specs.Loaded.{Gives, IsNotebook};
ghost use Rattle.nb_model.specs.declared.notebook.Notebook as notebooks;
ghost use Rattle.nb_text.specs.Notebooks as texts;
ghost use Rattle.report_text.specs.Reading as readings;
ghost use Rattle.report_run.specs.declared.end.End.TheVariants as ending;
ghost use Rattle.report_run.specs.declared.form.Form as kinds;
ghost use Rattle.report_run.specs.declared.form.Form.TheVariants as forms;
ghost use Rattle.report_run.specs.Made as made;

use crate::end::End;
use crate::form::Form;
use jtext::{Bytes, Json, JsonFault, read};
use nb_load::LoadFault;
use nb_migrate::of_any;
use nb_model::{NbFault, Notebook};
use nb_text::text;
use report_text::{ScriptFault, page, script, unscript};
use std::alloc::Global;

/// How deep lists and objects may nest.
const DEEP: u32 = 128;

/// The text that a report of that form makes of the bytes, or how the report ends.
pub(crate) fn make(alloc: Global, form: Form, bytes: &[u8]) -> Result<Bytes, End>
    ensures made { IfOk result (made.Gives form bytes.now) }
    ensures some { IfOk result (λ text. 0 < length text) }
    ensures refused { IfErr result (λ e.
        (e ≡ ending.NoMemory) ⊎ made.CannotMake form bytes.now e) }
{
    match form {
        Form::Script => script_of(alloc, bytes),
        Form::Page => page_of(alloc, bytes),
        Form::Notebook => notebook_text(alloc, bytes),
    }
}

fn script_of(alloc: Global, bytes: &[u8]) -> Result<Bytes, End>
    ensures made { IfOk result (made.Gives forms.Script bytes.now) }
    ensures some { IfOk result (λ text. 0 < length text) }
    ensures refused { IfErr result (λ e.
        (e ≡ ending.NoMemory) ⊎ made.CannotMake forms.Script bytes.now e) }
{
    match notebook_of(alloc, bytes) {
        Ok(notebook) => Ok(script(alloc, &notebook)?),
        Err(end) => Err(end),
    }
}

fn page_of(alloc: Global, bytes: &[u8]) -> Result<Bytes, End>
    ensures made { IfOk result (made.Gives forms.Page bytes.now) }
    ensures some { IfOk result (λ text. 0 < length text) }
    ensures refused { IfErr result (λ e.
        (e ≡ ending.NoMemory) ⊎ made.CannotMake forms.Page bytes.now e) }
{
    match notebook_of(alloc, bytes) {
        Ok(notebook) => Ok(page(alloc, &notebook)?),
        Err(end) => Err(end),
    }
}

/// The text of the notebook that is read of a script.
fn notebook_text(alloc: Global, bytes: &[u8]) -> Result<Bytes, End>
    ensures made { IfOk result (made.Gives forms.Notebook bytes.now) }
    ensures some { IfOk result (λ text. 0 < length text) }
    ensures refused { IfErr result (λ e.
        (e ≡ ending.NoMemory) ⊎ made.CannotMake forms.Notebook bytes.now e) }
{
    match unscript(alloc, bytes) {
        Ok(notebook) => Ok(text(alloc, &notebook)?),
        Err(ScriptFault::Line { number }) => Err(End::NotScript { number }),
        Err(ScriptFault::NoMemory) => Err(End::NoMemory),
    }
}

/// The notebook that the bytes give, or how the report ends.
fn notebook_of(alloc: Global, bytes: &[u8]) -> Result<Notebook, End>
    ensures read { IfOk result (λ n. IsNotebook bytes.now n) }
    ensures refused { IfErr result (λ e. (k : kinds.Form) → (k ≡ forms.Notebook → ⊥) →
        (e ≡ ending.NoMemory) ⊎ made.CannotMake k bytes.now e) }
{
    match load(alloc, bytes) {
        Ok(notebook) => Ok(notebook),
        Err(LoadFault::NotJson(fault)) => Err(End::NotLoaded(LoadFault::NotJson(fault))),
        Err(LoadFault::NotNotebook(fault)) => Err(End::NotLoaded(LoadFault::NotNotebook(fault))),
        Err(LoadFault::NoTranslator { language }) => {
            Err(End::NotLoaded(LoadFault::NoTranslator { language }))
        }
        Err(LoadFault::NoMemory) => Err(End::NoMemory),
    }
}

fn load(alloc: Global, bytes: &[u8]) -> Result<Notebook, LoadFault>
    ensures read { IfOk result (λ n. IsNotebook bytes.now n) }
    ensures refused { IfErr result (λ f. made.Refuses bytes.now f) }
{
    match parse(alloc, bytes) {
        Ok(tree) => accept(alloc, tree),
        Err(fault) => Err(fault),
    }
}

// The tree that the bytes spell.
fn parse(alloc: Global, bytes: &[u8]) -> Result<Json, LoadFault>
    ensures ok { IfOk result (Gives bytes.now) }
    ensures err { IfErr result (λ f. made.Refuses bytes.now f) }
{
    match read(alloc, bytes, DEEP) {
        Ok(tree) => Ok(tree),
        Err(JsonFault::NoMemory) => Err(LoadFault::NoMemory),
        Err(fault) => Err(LoadFault::NotJson(fault)),
    }
}

// The notebook that the tree of the bytes is.
fn accept(alloc: Global, tree: Json) -> Result<Notebook, LoadFault>
    ensures ok { IfOk result (λ n. (bytes : Plain ℕ) → Gives bytes tree → IsNotebook bytes n) }
    ensures err { IfErr result (λ f. (bytes : Plain ℕ) →
        Gives bytes tree → made.Refuses bytes f) }
{
    match of_any(alloc, tree) {
        Ok(notebook) => Ok(notebook),
        Err(NbFault::NoMemory) => Err(LoadFault::NoMemory),
        Err(fault) => Err(LoadFault::NotNotebook(fault)),
    }
}
