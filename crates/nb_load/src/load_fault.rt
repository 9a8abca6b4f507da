//! `LoadFault`, why bytes give no notebook for a job.
ghost use Rattle.std.specs.Prelude.{◌≡◌, ◌++◌, codes, string_bytes, IfOk};
ghost use Rattle.jtext.specs.Messages.{json_message};
ghost use Rattle.jtext.specs.Print.{quote};
ghost use Rattle.nb_load.specs.Reasons.{reason, notebook_reason};

use jtext::{Bytes, Json, JsonFault, NoMemory, Text, write_compact};
use nb_model::NbFault;
use std::alloc::Global;

/// Why bytes give no notebook for a job.
#[derive(Debug, Drop)]
pub enum LoadFault {
    /// They are no JSON text nested at most 128 deep.
    NotJson(JsonFault),
    /// Their tree is no notebook of nbformat 4.0 to 4.5.
    NotNotebook(NbFault),
    /// Parameters can't be written in the language of the notebook's cells.
    NoTranslator {
        /// That language.
        language: Text,
    },
    /// A growth was refused.
    NoMemory,
}

impl LoadFault {
    /// What is said of it, with the place that it names; nothing where memory was refused.
    pub fn reason(&self, alloc: Global) -> Result<Bytes, NoMemory>
        ensures { IfOk result (λ b. b ≡ reason self.now) }
    {
        match self {
            LoadFault::NotJson(fault) => {
                let text = json_text(alloc, *fault)?;
                Bytes::of(alloc, text.as_bytes())
            }
            LoadFault::NotNotebook(fault) => notebook_text(alloc, fault),
            LoadFault::NoTranslator { language } => no_translator(alloc, language),
            LoadFault::NoMemory => Ok(Bytes::new(alloc)),
        }
    }
}

fn json_text(alloc: Global, fault: JsonFault) -> Result<String, NoMemory>
    ensures { IfOk result (λ s. string_bytes s ≡ json_message fault) }
{
    Ok(format!(in alloc; "{fault}")?)
}

fn notebook_text(alloc: Global, fault: &NbFault) -> Result<Bytes, NoMemory>
    ensures { IfOk result (λ b. b ≡ notebook_reason fault.now) }
{
    match fault {
        NbFault::Version => Bytes::of(alloc, b"not nbformat 4.5: version"),
        NbFault::Shape { pointer } => join(alloc, "not nbformat 4.5: shape at ", pointer),
        NbFault::SameId { id } => join(alloc, "not nbformat 4.5: same id ", id),
        NbFault::NoMemory => Ok(Bytes::new(alloc)),
    }
}

fn join(alloc: Global, first: &str, second: &Text) -> Result<Bytes, NoMemory>
    ensures { IfOk result (λ b. b ≡ first.now ++ second.now) }
{
    let mut text = Bytes::of(alloc, first.as_bytes())?;
    text.add(second.bytes())?;
    Ok(text)
}

fn no_translator(alloc: Global, language: &Text) -> Result<Bytes, NoMemory>
    ensures { IfOk result (λ b. b ≡ codes "no translator for " ++ quote language.now) }
{
    let name = Json::Str(Text::of(alloc, language.as_str())?);
    let name = write_compact(alloc, &name)?;
    let mut text = Bytes::of(alloc, b"no translator for ")?;
    text.add(name.bytes())?;
    Ok(text)
}
