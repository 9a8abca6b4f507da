//! From the words to what they ask for.
ghost use Rattle.std.specs.Prelude.{◌≡◌, ◌⊎◌, Some, IfOk, IfErr};
ghost use Rattle.words.specs.declared.usage.Usage.TheVariants as usage;
ghost use Rattle.report_run.specs.Words as spec;

use crate::form::Form;
use crate::request::Request;
use jtext::Text;
use std::alloc::Global;
use words::Usage;

/// What the words after `report` ask for. Their first fault is named with its index, which counts
/// `report` as 0.
pub fn read_words(alloc: Global, words: &[String]) -> Result<Request, Usage>
    ensures asked { IfOk result (spec.IsRequest (spec.texts words.now)) }
    ensures refused { IfErr result (λ u.
        (u ≡ usage.NoMemory) ⊎ (spec.refusal (spec.texts words.now) ≡ Some u)) }
{
    let Some((form, paths)) = words.split_first() else {
        return Err(Usage::Missing);
    };
    let Some(form) = form_of(form.as_str()) else {
        return Err(Usage::Unknown { i: 1 });
    };
    let Some((input, rest)) = paths.split_first() else {
        return Err(Usage::Missing);
    };
    if has_hyphen(input.as_str()) {
        return Err(Usage::Unknown { i: 2 });
    }
    let Some((output, more)) = rest.split_first() else {
        return Err(Usage::Missing);
    };
    if has_hyphen(output.as_str()) {
        return Err(Usage::Unknown { i: 3 });
    }
    if !more.is_empty() {
        return Err(Usage::Extra { i: 4 });
    }
    if is_written(input.as_str(), output.as_str()) {
        return Err(Usage::SamePath { i: 3 });
    }
    Ok(Request {
        form,
        input: Text::of(alloc, input.as_str())?,
        output: Text::of(alloc, output.as_str())?,
    })
}

/// The form that the word names.
fn form_of(word: &str) -> Option<Form>
    ensures { result ≡ spec.form_of word.now }
{
    if word == "script" {
        Some(Form::Script)
    } else if word == "page" {
        Some(Form::Page)
    } else if word == "notebook" {
        Some(Form::Notebook)
    } else {
        None
    }
}

fn has_hyphen(word: &str) -> bool
    ensures { result ≡ spec.has_hyphen word.now }
{
    match word.as_bytes().first() {
        Some(octet) => *octet == b'-',
        None => false,
    }
}

/// Whether a report with that output would write over that input.
fn is_written(input: &str, output: &str) -> bool
    ensures { result ≡ spec.is_written input.now output.now }
{
    if input == output {
        return true;
    }
    match input.strip_prefix(output) {
        Some(rest) => rest == ".nbrun-tmp",
        None => false,
    }
}
