//! Laws of graphs that ran. The functions do nothing: their contracts are the laws.
ghost use Rattle.std.specs.Prelude.{◌≡◌, ℕ, List, Some, Err, Result, Contains, false, slice_get};
ghost use Rattle.std.specs.List.{list_all};
ghost use Rattle.words.specs.declared.ask.Ask as asks;
ghost use Rattle.world.specs.Counts.{Counts};
ghost use Rattle.world.specs.Moments.{Since};
ghost use Rattle.world.specs.Touched.{Spares};
ghost use Rattle.world.specs.declared.entry.Entry.{Entry};
ghost use Rattle.batch_run.specs.Batch.{IsNoPath, numbered};
ghost use Rattle.graph_run.specs.Tests.{HasPassed, HasFailed, Tests, is_done, needs_of, status_of};
ghost use Rattle.graph_run.specs.Waves.{Runs, RunsWave};
ghost use Rattle.graph_run.specs.declared.ended.Ended as ends;
ghost use Rattle.graph_run.specs.declared.refusal.Refusal as refusals;
ghost use Rattle.graph_run.specs.declared.refusal.Refusal.TheVariants as refusal;
ghost use Rattle.graph_run.specs.declared.standing.Standing as standings;
ghost use Rattle.graph_run.specs.declared.workflow.Workflow as workflows;

/// Of the jobs of a wave just those are run that have passed: each job that such a one needs has ended
/// with 0 before the wave, and what is asked of it is the file's, with what it took.
pub fn jobs_wait_for_what_they_need()
    ensures { (f : workflows.Workflow) (here : List ℕ) (turns : ℕ) (wave : List ℕ)
        (s then : standings.Standing) (before after : List Entry) (new : Counts)
        (r : RunsWave f here turns wave s before then new after) (k : ℕ) (a : asks.Ask) →
        slice_get r.tested.asks k ≡ Some a →
        (job : ℕ) × (slice_get r.tested.jobs k ≡ Some job) × HasPassed f s.ended job a }
{}

/// What has ended before a wave was a job of an earlier one.
pub fn ended_jobs_are_of_earlier_waves()
    ensures { (f : workflows.Workflow) (here : List ℕ) (turns : ℕ) (from new : Counts)
        (before after : List Entry) (waves : List (List ℕ)) (s : standings.Standing) →
        Runs f here turns from before waves s new after → (job status : ℕ) →
        status_of job s.ended ≡ Some status →
        (wave : List ℕ) × Contains waves wave × Contains wave job }
{}

/// A path that no job of a wave writes is left alone on the wave's part of the journal.
pub fn waves_leave_other_paths()
    ensures { (f : workflows.Workflow) (here : List ℕ) (turns : ℕ) (wave : List ℕ)
        (s then : standings.Standing) (before after : List Entry) (new : Counts)
        (r : RunsWave f here turns wave s before then new after) (path : List ℕ) →
        IsNoPath (numbered 0 r.tested.asks) path → Since (Spares path) before after }
{}

/// A job of a wave that isn't run was refused by its test. It is skipped exactly where one that it
/// needs hasn't ended with 0.
pub fn refusals_have_their_causes()
    ensures failed { (f : workflows.Workflow) (here : List ℕ) (turns : ℕ) (wave : List ℕ)
        (s then : standings.Standing) (before after : List Entry) (new : Counts)
        (r : RunsWave f here turns wave s before then new after) (k : ℕ) (e : ends.Ended) →
        slice_get r.tested.refused k ≡ Some e → HasFailed f s.ended e }
    ensures skipped { (f : workflows.Workflow) (ended : List ends.Ended) (job : ℕ)
        (before after : List Entry) (r : Result asks.Ask refusals.Refusal) →
        Tests f ended job before r after → r ≡ Err refusal.Skipped →
        list_all (is_done ended) (needs_of f job) ≡ false }
    ensures only { (f : workflows.Workflow) (ended : List ends.Ended) (job : ℕ)
        (before after : List Entry) (r : Result asks.Ask refusals.Refusal) →
        Tests f ended job before r after →
        list_all (is_done ended) (needs_of f job) ≡ false → r ≡ Err refusal.Skipped }
{}
