//! What a turn and a read of the loop make of the jobs that it concerns, and of the others.
ghost use Rattle.std.specs.Prelude.{◌≡◌, ◌≢◌, ◌≤◌, ℕ, false, List, is_some, length};
ghost use Rattle.world.specs.declared.chan.Chan.TheVariants.{Iopub};
ghost use Rattle.world.specs.declared.conn.Conn as conn;
ghost use Rattle.world.specs.declared.entry.Entry.{Entry};
ghost use Rattle.world.specs.Places.{time};
ghost use Rattle.kernel_lines.specs.Line.{taken_of};
ghost use Rattle.job_end.specs.declared.answer.Answer as answer;
ghost use Rattle.run_journal.specs.Parts.{bytes_put};
ghost use Rattle.job_journal.specs.Plot.{Plot, facts};
ghost use Rattle.job_run.specs.declared.job.Job as job;
ghost use Rattle.job_run.specs.Due.{WantsLook};
ghost use Rattle.job_run.specs.JobStanding.{JobStands};
ghost use Rattle.job_run.specs.Queues.{line_of};
ghost use Rattle.job_run.specs.Run.{outcome_of};
ghost use Rattle.other_jobs.specs.Reads.{BringsBytes};
ghost use Rattle.other_jobs.specs.Turns.{BringsMoment};
ghost use Rattle.job_turns.specs.OwedTo.{StandsEnded, StandsOwed, clock, nothing, piece};

/// After a turn each job that runs is to be told its moment. The job wants no last look, and knows
/// how many octets were put on IOPub. A job that has ended stays so.
pub fn turns_bring_the_clock()
    ensures stands { (ms : ℕ) (p : Plot) (j : job.Job) (before after : List Entry) →
        BringsMoment ms before after → time before ≤ ms → is_some (outcome_of j) ≡ false →
        WantsLook j false →
        taken_of (line_of j Iopub) ≡ length (bytes_put (facts p) Iopub before) →
        JobStands p j before → StandsOwed (clock ms) p j after }
    ensures ended { (ms : ℕ) (p : Plot) (a : answer.Answer) (before after : List Entry) →
        BringsMoment ms before after → StandsEnded p a before → StandsEnded p a after }
{}

/// After a read of the loop the job of the connection is to be told the piece. It concerns no other
/// job.
pub fn reads_bring_a_piece()
    ensures own { (conn : conn.Conn) (room : ℕ) (bytes : List ℕ) (p : Plot) (j : job.Job)
        (before after : List Entry) → BringsBytes conn room bytes before after →
        conn.job ≡ (facts p).number → is_some (outcome_of j) ≡ false → JobStands p j before →
        StandsOwed (piece conn.chan bytes) p j after }
    ensures others { (conn : conn.Conn) (room : ℕ) (bytes : List ℕ) (p : Plot) (j : job.Job)
        (before after : List Entry) → BringsBytes conn room bytes before after →
        conn.job ≢ (facts p).number → StandsOwed nothing p j before →
        StandsOwed nothing p j after }
    ensures ended { (conn : conn.Conn) (room : ℕ) (bytes : List ℕ) (p : Plot) (a : answer.Answer)
        (before after : List Entry) → BringsBytes conn room bytes before after →
        conn.job ≢ (facts p).number → StandsEnded p a before → StandsEnded p a after }
{}
