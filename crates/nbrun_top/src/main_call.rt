//! The top call.
ghost use Rattle.std.specs.Prelude.{◌≡◌, ◌⊎◌, None, Some, ℕ, List as Seq, option_map};
ghost use Rattle.words.specs.declared.usage.Usage as usages;
ghost use Rattle.words.specs.Refusals.{refusal};
ghost use Rattle.nbrun_top.specs.Asked.{IsPlain, IsExecuting, IsExercise, IsNoExercise, texts};
ghost use Rattle.nbrun_top.specs.Asked.{IsNoReport, IsNoGraph, report_words, graph_words};
ghost use Rattle.nbrun_top.specs.Asked.{words_after};
ghost use Rattle.report_run.specs.Promise as reports;
ghost use Rattle.graph_run.specs.Promise as graphs;
ghost use Rattle.world.specs.Told.{Between};
ghost use Rattle.said_lines.specs.Between.{FromStart, SayRose, SayFailed};
ghost use Rattle.nbrun_top.specs.Ended.{Ended};
ghost use Rattle.nbrun_top.specs.Exercised.{Exercised};
ghost use Rattle.nbrun_top.specs.ExerciseLine.{IsOutcome};
ghost use Rattle.nbrun_top.specs.Executed.{Executed, IsCounted, WaitsAtMost};
ghost use Rattle.nbrun_top.specs.Promise.{Promise};
ghost use Rattle.said_lines.specs.Speech.{heard};

use crate::execution::{run_file, run_one};
use crate::exercise_run::run_exercise;
use crate::plain_run::run_plain;
use crate::task::Task;
use batch_run::Limits;
use graph_run::graph;
use report_run::report;
use std::alloc::Global;
use world::World;

/// Does what the words ask for, says how it ended, and answers the exit status. The words are the
/// arguments without the program's name. The promises are the headline: `specs/Promise.antt` has the
/// clauses of all words but a report's and a graph's, `report_run` those of a report and `graph_run`
/// those of a graph, each with what it says.
pub fn run<W: World>(alloc: Global, words: &[String], limits: &Limits, w: &mut W) -> u8
    ensures promise { IsNoReport (texts words.now) → IsNoGraph (texts words.now) →
        Promise W.journal W.counts w.old w.new
        (texts words.now) limits.now.here limits.now.turns result }
    // A report, by the words after the first.
    ensures report { (rest : Seq (Seq ℕ)) → report_words (texts words.now) ≡ Some rest →
        reports.Promise W.journal W.counts w.old w.new rest result }
    // A graph, by the words after the first.
    ensures graph { (rest : Seq (Seq ℕ)) → graph_words (texts words.now) ≡ Some rest →
        graphs.Promise W.journal W.counts w.old w.new
        rest limits.now.here limits.now.turns result }
{
    match report_words(words) {
        Some(rest) => report(alloc, rest, w),
        None => run_unreported(alloc, words, limits, w),
    }
}

/// The words after `report`, where that is the first one: those of a report.
pub fn report_words(words: &[String]) -> Option<&[String]>
    ensures { option_map (λ rest. texts rest.now) result ≡ report_words (texts words.now) }
{
    words_after(words, "report")
}

/// The words after `graph`, where that is the first one: those of a graph.
pub fn graph_words(words: &[String]) -> Option<&[String]>
    ensures { option_map (λ rest. texts rest.now) result ≡ graph_words (texts words.now) }
{
    words_after(words, "graph")
}

// The words after this one, where it is the first.
fn words_after<'a>(words: &'a [String], name: &str) -> Option<&'a [String]>
    ensures { option_map (λ rest. texts rest.now) result
        ≡ words_after name.now (texts words.now) }
{
    match words.split_first() {
        Some((first, rest)) if first.as_str() == name => Some(rest),
        _ => None,
    }
}

// All that is no report.
fn run_unreported<W: World>(alloc: Global, words: &[String], limits: &Limits, w: &mut W) -> u8
    ensures promise { IsNoGraph (texts words.now) → Promise W.journal W.counts w.old w.new
        (texts words.now) limits.now.here limits.now.turns result }
    ensures graph { (rest : Seq (Seq ℕ)) → graph_words (texts words.now) ≡ Some rest →
        graphs.Promise W.journal W.counts w.old w.new
        rest limits.now.here limits.now.turns result }
{
    match graph_words(words) {
        Some(rest) => graph(alloc, rest, limits, w),
        None => run_others(alloc, words, limits, w),
    }
}

// All that is neither a report nor a graph.
fn run_others<W: World>(alloc: Global, words: &[String], limits: &Limits, w: &mut W) -> u8
    ensures promise { Promise W.journal W.counts w.old w.new
        (texts words.now) limits.now.here limits.now.turns result }
{
    status(alloc, words, limits, w)
}

// The status, once all is done and said.
fn status<W: World>(alloc: Global, words: &[String], limits: &Limits, w: &mut W) -> u8
    ensures causes { IsPlain (texts words.now) → Between W.journal w.old w.new
        (Ended (texts words.now) result
        (SayRose W.counts w.old w.new) (SayFailed W.counts w.new)) }
    ensures silent { IsPlain (texts words.now) → SayFailed W.counts w.old →
        Between W.journal w.old w.new (λ before after. heard after ≡ heard before) }
    ensures executed { IsExecuting (texts words.now) → FromStart W.journal w.old w.new
        (Executed (texts words.now) limits.now.here
        (SayRose W.counts w.old w.new) (SayFailed W.counts w.new) result) }
    ensures exercised { (n : ℕ) → IsExercise (texts words.now) n → Between W.journal w.old w.new
        (λ before after. Exercised (IsOutcome n)
        (SayRose W.counts w.old w.new) (SayFailed W.counts w.new) before result after) }
    ensures usage { (u : usages.Usage) → refusal (texts words.now) ≡ Some u →
        (result ≡ 2) ⊎ (result ≡ 12) }
    ensures refused { IsPlain (texts words.now) → result ≡ 2 →
        refusal (texts words.now) ≡ None → ⊥ }
    ensures counted { IsNoExercise (texts words.now) →
        IsCounted limits.now.turns (W.counts w.old) (W.counts w.new) result }
    ensures waits { WaitsAtMost W.counts w.old w.new limits.now.turns }
    ensures heard { result ≡ 0 → SayRose W.counts w.old w.new → ⊥ }
{
    match Task::of(alloc, words) {
        Task::Plain(plain) => run_plain(alloc, plain, w),
        Task::One(ask) => run_one(alloc, ask, limits, w),
        Task::Many { file, common } => run_file(alloc, &file, &common, limits, w),
        Task::Exercise(cells) => run_exercise(alloc, cells, limits, w),
    }
}
