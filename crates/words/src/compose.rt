//! A command, from the parts of its words.
ghost use Rattle.std.specs.Prelude.{◌≡◌, ◌≤◌, ◌*◌, map, string_bytes, option_map, IfOk, IfSome};
ghost use Rattle.words.specs.Asked as spec;

use crate::choice::Choice;
use crate::form::{Form, has};
use crate::number::{count, seconds};
use crate::parameters::parameters;
use crate::part::{Part, word};
use crate::path::path_text;
use crate::{Ask, Command};
use jtext::{NoMemory, Text, Texts};
use std::alloc::Global;

/// What the words ask for, where they are not refused.
pub(crate) fn command(alloc: Global, words: &[String], parts: &[Part]) -> Result<Command, NoMemory>
    ensures { IfOk result (λ r. r ≡ spec.command_of (map string_bytes words.now) parts.now) }
{
    match Form::of(parts) {
        Form::One => {
            let input = path_text(words, parts, 0);
            let output = path_text(words, parts, 1);
            Ok(Command::One(ask(alloc, words, parts, input, output)?))
        }
        Form::Batch => Ok(Command::Many {
            file: Text::of(alloc, jobs_file(words, parts))?,
            common: ask(alloc, words, parts, "", "")?,
        }),
        Form::Exercise => Ok(Command::Exercise(cells(words, parts))),
    }
}

fn ask(
    alloc: Global,
    words: &[String],
    parts: &[Part],
    input: &str,
    output: &str,
) -> Result<Ask, NoMemory>
    ensures { IfOk result (λ r.
        r ≡ spec.ask_of input.now output.now (map string_bytes words.now) parts.now) }
{
    Ok(Ask {
        input: Text::of(alloc, input)?,
        output: Text::of(alloc, output)?,
        kernel: kernel(alloc, words, parts)?,
        kernel_path: Text::of(alloc, kernel_path(words, parts))?,
        cwd: Text::of(alloc, cwd(words, parts))?,
        params: parameters(alloc, words, parts)?,
        prepare: has(parts, Choice::PrepareOnly),
        report: has(parts, Choice::ReportMode),
        merge: has(parts, Choice::MergeStreams),
        all_errors: has(parts, Choice::AllowErrors),
        interrupt: has(parts, Choice::Interrupt),
        heartbeat: !has(parts, Choice::NoHeartbeat),
        names: error_names(alloc, words, parts)?,
        start_ms: start_ms(words, parts),
        limit_ms: milliseconds(words, parts, Choice::ExecutionTimeout),
    })
}

/// The value of the option, if it is given.
fn option_value<'a>(words: &'a [String], parts: &[Part], choice: Choice) -> Option<&'a str>
    ensures { option_map (λ r. r.now) result
        ≡ spec.option_value choice (map string_bytes words.now) parts.now }
{
    match parts.iter().find(|part| part.kind.is_choice(choice)) {
        Some(part) => Some(word(words, part.first)),
        None => None,
    }
}

fn kernel(alloc: Global, words: &[String], parts: &[Part]) -> Result<Option<Text>, NoMemory>
    ensures { IfOk result (λ r. r ≡ spec.kernel (map string_bytes words.now) parts.now) }
{
    match option_value(words, parts, Choice::Kernel) {
        Some(name) => Ok(Some(Text::of(alloc, name)?)),
        None => Ok(None),
    }
}

fn kernel_path<'a>(words: &'a [String], parts: &[Part]) -> &'a str
    ensures { result.now ≡ spec.kernel_path (map string_bytes words.now) parts.now }
{
    option_value(words, parts, Choice::KernelPath).unwrap_or("/usr/local/share/jupyter/kernels")
}

fn cwd<'a>(words: &'a [String], parts: &[Part]) -> &'a str
    ensures { result.now ≡ spec.cwd (map string_bytes words.now) parts.now }
{
    option_value(words, parts, Choice::Cwd).unwrap_or(".")
}

fn jobs_file<'a>(words: &'a [String], parts: &[Part]) -> &'a str
    ensures { result.now ≡ spec.jobs_file (map string_bytes words.now) parts.now }
{
    option_value(words, parts, Choice::Jobs).unwrap_or("")
}

fn start_ms(words: &[String], parts: &[Part]) -> u64
    ensures { result ≡ spec.start_ms (map string_bytes words.now) parts.now }
{
    milliseconds(words, parts, Choice::StartTimeout).unwrap_or(60_000)
}

fn milliseconds(words: &[String], parts: &[Part], choice: Choice) -> Option<u64>
    ensures exact { result ≡ spec.milliseconds choice (map string_bytes words.now) parts.now }
    ensures range { IfSome result (λ n. (1000 ≤ n) × (n ≤ 999999999000)) }
{
    match option_value(words, parts, choice) {
        Some(text) => match seconds(text.as_bytes()) {
            Some(n) => Some(n * 1000),
            None => None,
        },
        None => None,
    }
}

fn cells(words: &[String], parts: &[Part]) -> u32
    ensures exact { result ≡ spec.cells (map string_bytes words.now) parts.now }
    ensures range { result ≤ 200 }
{
    match option_value(words, parts, Choice::Exercise) {
        Some(text) => match count(text.as_bytes()) {
            Some(n) => n as u32,
            None => 0,
        },
        None => 0,
    }
}

/// The names of the errors that are allowed, in their order.
fn error_names(alloc: Global, words: &[String], parts: &[Part]) -> Result<Texts, NoMemory>
    ensures { IfOk result (λ r. r ≡ spec.error_names (map string_bytes words.now) parts.now) }
{
    let mut names = Texts::new(alloc);
    for part in parts {
        if part.kind.is_choice(Choice::AllowErrorName) {
            names.push(Text::of(alloc, word(words, part.first))?)?;
        }
    }
    Ok(names)
}
