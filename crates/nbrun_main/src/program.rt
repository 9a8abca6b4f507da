//! The start of the program, and what it does with its words.
ghost use Rattle.std.specs.Prelude.{◌≡◌, ◌<◌, ◌⊎◌, ◌^◌, None, Some, List as Plain, ℕ, length};
ghost use Rattle.words.specs.Refusals.{refusal};
ghost use Rattle.nbrun_top.specs.Asked.{IsNoReport, IsNoGraph, IsPlain};
ghost use Rattle.nbrun_top.specs.Asked.{report_words, graph_words, texts};
ghost use Rattle.report_run.specs.Promise as reports;
ghost use Rattle.graph_run.specs.Promise as graphs;
ghost use Rattle.nbrun_top.specs.Promise.{Promise};
ghost use Rattle.world.specs.Told.{Between};
ghost use Rattle.said_lines.specs.Between.{SayRose};
ghost use Rattle.nbrun_main.specs.Printed.{Prints, IsRun, text_to_print as text_for_words};

use crate::help::text_to_print;
use crate::hints::give_hint;
use crate::printing::{print, refuse};
use crate::same_files::refusal;
use batch_run::Limits;
use jtext::{NoMemory, Text};
use nbrun_top::run;
use std::alloc::Global;
use std::io::ErrorKind;
use std::process::ExitCode;
use std::rt::Files;
use std::{env, io, process};
use world::World;
use world_real::RealWorld;

/// The words are refused.
const REFUSED: u8 = 2;

/// What was asked for can't be said.
const NOT_SAID: u8 = 11;

/// Memory was refused before the run began.
const NO_MEMORY: u8 = 12;

/// The arguments or the working folder can't be read.
const NOT_GIVEN: u8 = 20;

/// Does what the program's arguments ask for over the real world, and answers the exit status. It
/// is 20 where the arguments or the working folder can't be read as text, and 12 where memory is
/// refused before the run begins; then nothing is said.
pub fn start(rt: HostRuntime) -> ExitCode {
    match given(&rt) {
        Ok((words, here)) => ExitCode::from(answer(rt, words.as_slice(), here)),
        Err(e) => ExitCode::from(not_given(e.kind())),
    }
}

/// Does what these words ask for over the real world in this working folder, and answers the exit
/// status. After one other than 0 a line on the standard error stream may help.
pub fn answer(rt: HostRuntime, words: &[String], here: Text) -> u8 {
    let alloc = rt.alloc();
    match RealWorld::new(rt, alloc, process::id(rt.process())) {
        Ok(mut w) => {
            let status = run_apart(&rt, alloc, words, here, &mut w);
            if status != 0 {
                give_hint(&rt, alloc, words, status, &w);
            }
            status
        }
        Err(NoMemory) => NO_MEMORY,
    }
}

// Does what the words ask for, unless an output is the same file as an input or another output.
fn run_apart<R: Files, W: World>(
    files: &R,
    alloc: Global,
    words: &[String],
    here: Text,
    w: &mut W,
) -> u8 {
    match refusal(files, alloc, words, w) {
        Ok(Some(usage)) => refuse(alloc, &usage, w),
        Ok(None) => run_words(alloc, words, here, w),
        Err(NoMemory) => NO_MEMORY,
    }
}

// The words after the program's name, and the working folder.
fn given(rt: &HostRuntime) -> io::Result<(Vec<String>, Text)> {
    let mut args = env::args(rt)?;
    args.next();
    let words = args.collect(rt.alloc())?;
    let folder = env::current_dir(rt)?;
    let here = String::from_str(rt.alloc(), folder.as_path().as_os_str())?;
    Ok((words, Text::of_string(here)))
}

// The status where the words or the folder could not be had, by the kind of the error.
fn not_given(kind: ErrorKind) -> u8
    ensures memory { kind ≡ ErrorKind.OutOfMemory → result ≡ 12 }
    ensures other { (kind ≡ ErrorKind.OutOfMemory → ⊥) → result ≡ 20 }
{
    match kind {
        ErrorKind::OutOfMemory => NO_MEMORY,
        _ => NOT_GIVEN,
    }
}

/// Does what these words ask for over a world, and answers the exit status. The words are the
/// arguments without the program's name, and `here` is the working folder. `--help`, `-h` and
/// `--version` say their text where they stand alone, no words say the help, and all other words are
/// those of a run.
#[tactic(auto, using(crate::proofs::NoWords::no_words_are_refused))]
pub fn run_words<W: World>(alloc: Global, words: &[String], here: Text, w: &mut W) -> u8
    // The text is said whole with status 0, or else a say has failed and the status is 11.
    ensures printed { (text : Plain ℕ) → text_for_words (texts words.now) ≡ Some text →
        0 < length words.now →
        Between W.journal w.old w.new (λ before. Prints text 0 11 before result) }
    ensures printed_status { (text : Plain ℕ) → text_for_words (texts words.now) ≡ Some text →
        0 < length words.now → (result ≡ 0) ⊎ (result ≡ 11) }
    // Without words the status is 2, whatever could be said of the text.
    ensures helped { (text : Plain ℕ) → text_for_words (texts words.now) ≡ Some text →
        length words.now ≡ 0 →
        Between W.journal w.old w.new (λ before. Prints text 2 2 before result) }
    ensures helped_status { length words.now ≡ 0 → result ≡ 2 }

    // A text that isn't printed whole is so because a say failed.
    ensures printed_fault { (text : Plain ℕ) → text_for_words (texts words.now) ≡ Some text →
        result ≡ 11 → SayRose W.counts w.old w.new }
    // The status is 2 only where the words are refused.
    ensures refused { IsNoReport (texts words.now) → IsNoGraph (texts words.now) →
        IsPlain (texts words.now) → result ≡ 2 → refusal (texts words.now) ≡ None → ⊥ }

    // All other words are those of a run, which keeps its promise with at most 2^40 waits.
    ensures promise { IsRun (texts words.now) → IsNoReport (texts words.now) →
        IsNoGraph (texts words.now) →
        Promise W.journal W.counts w.old w.new (texts words.now) here (2 ^ 40) result }
    // A report keeps its own promise, by the words after the first.
    ensures report { (rest : Plain (Plain ℕ)) → IsRun (texts words.now) →
        report_words (texts words.now) ≡ Some rest →
        reports.Promise W.journal W.counts w.old w.new rest result }
    // And so does a graph.
    ensures graph { (rest : Plain (Plain ℕ)) → IsRun (texts words.now) →
        graph_words (texts words.now) ≡ Some rest →
        graphs.Promise W.journal W.counts w.old w.new rest here (2 ^ 40) result }
{
    match text_to_print(words) {
        Some(text) if words.is_empty() => print(w, text.as_bytes(), REFUSED, REFUSED),
        Some(text) => print(w, text.as_bytes(), 0, NOT_SAID),
        None => run(alloc, words, &Limits::usual(here), w),
    }
}
