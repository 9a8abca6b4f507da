//! Before the first wait: what others do puts out nothing for a job, gets it nothing, and renames
//! nothing onto its output.
ghost use Rattle.std.specs.Prelude.{◌≡◌, ◌≢◌, ℕ, true, List, [], Result};
ghost use Rattle.world.specs.declared.chan.Chan as chan;
ghost use Rattle.world.specs.declared.entry.Entry.{Entry};
ghost use Rattle.world.specs.Moments.{Since};
ghost use Rattle.job_saves.specs.Calls.{Cast, IsCall};
ghost use Rattle.ready_loop.specs.declared.fault.LoopFault as fault;
ghost use Rattle.ready_loop.specs.Begins.{Begins, CloseMoment};
ghost use Rattle.ready_loop.specs.History.{History};
ghost use Rattle.ready_loop.specs.Offers.{JobMoment};
ghost use Rattle.ready_loop.specs.Standing.{IsOfLoop};
ghost use Rattle.run_journal.specs.Job.{Job};
ghost use Rattle.run_journal.specs.Parts.{bytes_put};
ghost use Rattle.run_journal.specs.Saves.{renamed_texts};
ghost use Rattle.job_journal.specs.Quiet.{IsQuietNow, is_unread};
ghost use Rattle.other_jobs.specs.Elsewhere.{SavesElsewhere};
ghost use Rattle.other_jobs.specs.Unput.{is_unput};

/// The calls of jobs put out nothing for a job, nor do first connects and closes, nor what the loop
/// offers to another job. Before anything was put out for it, its connections have taken no byte.
pub fn nothing_is_put_at_first()
    ensures bytes { (j : Job) (now : List Entry) → is_unput j now ≡ true → (c : chan.Chan) →
        bytes_put j c now ≡ [] }
    ensures calls { (j : Job) (c : Cast) (before now : List Entry) →
        Since (IsCall c) before now → is_unput j now ≡ is_unput j before }
    ensures begins { (j : Job) (job : ℕ) (ports : List ℕ) (chans : List chan.Chan)
        (result : Result (Unit {0}) fault.LoopFault) (before now : List Entry) →
        Begins job ports chans result before now → is_unput j now ≡ is_unput j before }
    ensures closes { (j : Job) (h : History) (before now : List Entry) →
        Since (CloseMoment h) before now → is_unput j now ≡ is_unput j before }
    ensures offers { (j : Job) (job : ℕ) (h : History) (before now : List Entry) →
        job ≢ j.number → Since (JobMoment job h) before now →
        is_unput j now ≡ is_unput j before }
{}

/// The calls of jobs get nothing for a job, nor do first connects, nor what is quiet for it.
pub fn nothing_is_got_at_first()
    ensures calls { (j : Job) (c : Cast) (before now : List Entry) →
        Since (IsCall c) before now → is_unread j now ≡ is_unread j before }
    ensures begins { (j : Job) (job : ℕ) (ports : List ℕ) (chans : List chan.Chan)
        (result : Result (Unit {0}) fault.LoopFault) (before now : List Entry) →
        Begins job ports chans result before now → is_unread j now ≡ is_unread j before }
    ensures quiet { (j : Job) (before now : List Entry) → Since (IsQuietNow j) before now →
        is_unread j now ≡ is_unread j before }
{}

/// Nothing is renamed onto a job's output by what is quiet for it, by calls of jobs that save
/// elsewhere, and by the loop.
pub fn nothing_is_renamed_at_first()
    ensures quiet { (j : Job) (before now : List Entry) → Since (IsQuietNow j) before now →
        renamed_texts j now ≡ renamed_texts j before }
    ensures calls { (j : Job) (c : Cast) (before now : List Entry) → SavesElsewhere c j.output →
        Since (IsCall c) before now → renamed_texts j now ≡ renamed_texts j before }
    ensures loops { (j : Job) (before now : List Entry) → Since IsOfLoop before now →
        renamed_texts j now ≡ renamed_texts j before }
{}
