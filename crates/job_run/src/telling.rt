//! What a job is told, what it answers, and its end.

use crate::Job;
use crate::look::Look;
use crate::outcome::{is_starved, outcome_of};
use job_end::{Answer, End};
use job_saves::laws;
use jtext::{Bytes, NoMemory};
use world::{Chan, Disk, Kids, Say};

impl Job {
    ghost use Rattle.std.specs.Prelude.{◌≡◌, ◌<◌, ◌^◌, List, true, false, None, Some};
    ghost use Rattle.std.specs.Prelude.{is_some, OnOk, OnErr};
    ghost use Rattle.world.specs.declared.entry.Entry.{Entry};
    ghost use Rattle.world.specs.Counts.{Counts, CountsGrow};
    ghost use Rattle.job_saves.specs.Calls.{Cast};
    ghost use Rattle.job_saves.specs.Children.{HasEnd};
    ghost use Rattle.job_saves.specs.Course.{Origin, HasCalled, keeps_open};
    ghost use Rattle.job_run.specs.Task.{task_of_job, output_of_job, ports_of_job};
    ghost use Rattle.job_run.specs.Task.{pings_kernel};
    ghost use Rattle.job_end.specs.declared.answer.Answer.{Answer as TheAnswer};
    ghost use Rattle.job_end.specs.declared.end.End.TheVariants as ending;
    ghost use Rattle.job_run.specs.Told.{IsOutside, IsEnding};
    ghost use Rattle.job_run.specs.Run.{Runs, RunsOn, KeepsRun, EndsWith, EndsOnce};
    ghost use Rattle.job_run.specs.Run.{IsLost, IsSpent, HasStarved};
    ghost use Rattle.job_run.specs.Run.{HasRole, CallsInRole, KeepsRole};
    ghost use Rattle.job_run.specs.Run.{number_of, outcome_of as outcome};
    ghost use Rattle.job_run.specs.Steps.{JobKeeps, JobStays, JobGoesOn};
    ghost use Rattle.job_run.specs.Due.{IsDue, WantsLook};
    ghost use Rattle.job_run.specs.Queues.{HandsOutOn, NotesTaken};
    ghost use Rattle.world.specs.Moments.{Since, Told};
    ghost use Rattle.world.specs.Places.{time};
    ghost use Rattle.run_journal.specs.Job.{Job as Facts};
    ghost use Rattle.run_journal.specs.Why.{fault_on};
    ghost use Rattle.job_journal.specs.Plot.{Plot, facts};
    ghost use Rattle.job_journal.specs.Quiet.{IsQuietNow};
    ghost use Rattle.job_journal.specs.Ended.{HasAnswered};
    ghost use Rattle.job_run.specs.JobStanding.{IsGotFor, IsTurnedFor, JobStands};
    ghost use Rattle.job_run.specs.JobStanding.{JobStandsUntold, KeepsStanding};

    /// Its number among the jobs of the run.
    pub fn number(&self) -> u8
        ensures { result ≡ number_of self.now }
    {
        self.number
    }

    /// The ports of its kernel: for shell, iopub, stdin, control and heartbeat.
    pub fn ports(&self) -> [u16; 5]
        ensures { result ≡ ports_of_job self.now }
    {
        self.ports
    }

    /// Whether its kernel is pinged.
    pub fn has_heartbeat(&self) -> bool
        ensures { result ≡ pings_kernel self.now }
    {
        self.run.terms.heartbeat
    }

    /// How it ended, once it has.
    pub fn outcome(&self) -> Option<&Answer>
        ensures { is_some result ≡ is_some (outcome self.now) }
    {
        self.outcome.as_ref()
    }

    fn is_over(&self) -> bool
        ensures { result ≡ is_some self.now.outcome }
    {
        self.outcome.is_some()
    }

    /// Hands out what is queued on this channel, where there is anything.
    pub fn hand_out(&mut self, chan: Chan) -> Option<Bytes>
        ensures stays { JobStays self.old self.new }
        ensures queue { HandsOutOn chan self.old self.new result }
    {
        self.run.lines.take(chan)
    }

    /// So many octets of this channel were taken since its connection was begun.
    pub fn on_taken(&mut self, chan: Chan, taken: u64)
        ensures course { KeepsRun self.old self.new }
        ensures calls { KeepsRole self.old self.new }
        ensures keeps { JobKeeps self.old self.new }
        ensures outcome { outcome self.new ≡ outcome self.old }
        ensures stands { KeepsStanding self.old self.new }
        ensures notes { NotesTaken chan taken self.old self.new }
    {
        self.run.lines.on_taken(chan, taken);
    }

    /// The clock stands at this moment, which the job has still to be told after its begin.
    pub fn read_clock(&mut self, ms: u64)
        requires { ms < 2 ^ 47 }
        ensures course { KeepsRun self.old self.new }
        ensures calls { KeepsRole self.old self.new }
        ensures keeps { JobKeeps self.old self.new }
        ensures outcome { outcome self.new ≡ outcome self.old }
        // Where the job stood for the journal but for its clock, and this is the moment of the last
        // clock entry, the job stands for the journal.
        ensures stands { (p : Plot) (now : List Entry) → time now ≡ ms →
            JobStandsUntold p self.old now → JobStands p self.new now }
    {
        if self.is_over() {
            return;
        }
        self.run.turn_clock(ms);
    }

    /// Whether a last look of the job is to be made.
    pub fn wants_look(&self) -> bool
        ensures { WantsLook self.now result }
    {
        !self.is_over() && self.run.core.wants_look()
    }

    /// The next moment at which the clock brings something, in milliseconds since 1970-01-01 UTC.
    pub fn due(&self) -> Option<u64>
        ensures { IsDue self.now result }
    {
        if self.is_over() {
            return None;
        }
        self.run.due()
    }

    /// A piece came on this channel.
    pub fn on_piece<W: Disk + Say>(
        &mut self,
        w: &mut W,
        chan: Chan,
        piece: &[u8],
    ) -> Result<(), NoMemory>
        ensures goes { JobGoesOn W.journal W.counts w.old w.new self.old self.new result }
        // Where the piece was just got on this connection of the job, which ran and stood for the
        // journal before, the job stands for the journal again.
        ensures stands { (p : Plot) → Told (W.journal w.old) (W.journal w.new) (λ before after.
            IsGotFor p self.old chan piece.now before → JobStands p self.new after) }
        // A piece that breaks its stream by the journal ends the job.
        ensures ends { (p : Plot) → Told (W.journal w.old) (W.journal w.new) (λ before after.
            IsGotFor p self.old chan piece.now before →
            is_some (fault_on (facts p) after chan) ≡ true →
            is_some (outcome self.new) ≡ true) }
    {
        if self.is_over() {
            return Ok(());
        }
        let heard = self.run.on_piece(w, chan, piece);
        self.outcome = outcome_of(self.alloc, &self.paths.output, &mut self.run, heard);
        self.unless_starved()
    }

    /// A connection has ended.
    pub fn on_ended(&mut self)
        ensures { JobStays self.old self.new }
    {
        if self.is_over() {
            return;
        }
        match self.look {
            Look::Waited { .. } => self.look = Look::Waited { late: true },
            Look::Still => self.run.on_ended(),
        }
    }

    /// The clock of a turn was read; the child is looked at.
    pub fn on_moment<W: Disk + Kids + Say>(&mut self, w: &mut W, ms: u64) -> Result<(), NoMemory>
        requires { ms < 2 ^ 47 }
        ensures goes { JobGoesOn W.journal W.counts w.old w.new self.old self.new result }
        // Where the clock was just read with this moment, and the job ran and stood for the journal
        // before, it stands for the journal again.
        ensures stands { (p : Plot) → Told (W.journal w.old) (W.journal w.new) (λ before after.
            IsTurnedFor p self.old ms before → JobStands p self.new after) }
    {
        if self.is_over() {
            return Ok(());
        }
        laws::other_calls_pass();
        let has_ended = w.look(self.number).is_some();
        let turned = self.run.on_moment(w, ms, has_ended);
        self.outcome = outcome_of(self.alloc, &self.paths.output, &mut self.run, turned);
        self.unless_starved()
    }

    /// The wait of a last look was made.
    pub fn on_waited(&mut self)
        ensures { JobStays self.old self.new }
    {
        self.look = Look::Waited { late: false };
    }

    /// The reads of a last look are done.
    pub fn on_looked<W: Disk + Say>(&mut self, w: &mut W) -> Result<(), NoMemory>
        ensures goes { JobGoesOn W.journal W.counts w.old w.new self.old self.new result }
        // Where the job stood for the journal, it stands for the journal again.
        ensures stands { (p : Plot) → Told (W.journal w.old) (W.journal w.new) (λ before after.
            JobStands p self.old before → JobStands p self.new after) }
    {
        let late = self.is_late();
        self.look = Look::Still;
        if self.is_over() {
            return Ok(());
        }
        let looked = self.run.on_looked(w, late);
        self.outcome = outcome_of(self.alloc, &self.paths.output, &mut self.run, looked);
        self.unless_starved()
    }

    // Whether a connection has ended since the wait of a last look.
    fn is_late(&self) -> bool {
        match self.look {
            Look::Waited { late } => late,
            Look::Still => false,
        }
    }

    /// Ends the job by the network.
    pub fn lose_network(&mut self) -> Result<(), NoMemory>
        ensures course { KeepsRun self.old self.new }
        ensures calls { KeepsRole self.old self.new }
        ensures task { task_of_job self.new ≡ task_of_job self.old }
        ensures pings { pings_kernel self.new ≡ pings_kernel self.old }
        ensures output { output_of_job self.new ≡ output_of_job self.old }
        ensures still { IsSpent (outcome self.new) → IsSpent (outcome self.old) }
        ensures stands { KeepsStanding self.old self.new }
        ensures ends { EndsOnce (outcome self.old) (outcome self.new) result }
    {
        if self.is_over() {
            return Ok(());
        }
        self.end(End::NetFault)
    }

    /// Ends the job by the budget of turns.
    pub fn spend(&mut self) -> Result<(), NoMemory>
        ensures course { KeepsRun self.old self.new }
        ensures calls { KeepsRole self.old self.new }
        ensures task { task_of_job self.new ≡ task_of_job self.old }
        ensures pings { pings_kernel self.new ≡ pings_kernel self.old }
        ensures output { output_of_job self.new ≡ output_of_job self.old }
        ensures still { IsLost (outcome self.new) → IsLost (outcome self.old) }
        ensures stands { KeepsStanding self.old self.new }
        ensures ends { EndsOnce (outcome self.old) (outcome self.new) result }
    {
        if self.is_over() {
            return Ok(());
        }
        self.end(End::Spent)
    }

    /// Ends the child and removes the connection file.
    pub fn end_child<W: Disk + Kids>(&self, w: &mut W)
        ensures course { RunsOn W.journal W.counts w.old w.new self.now self.now }
        ensures calls { CallsInRole W.journal W.counts w.old w.new self.now self.now }
        ensures grow { CountsGrow (W.counts w.old) (W.counts w.new) }
        ensures left { HasEnd (number_of self.now) (W.journal w.new) }
        ensures quiet { (facts : Facts) →
            Told (W.journal w.old) (W.journal w.new) (Since (IsQuietNow facts)) }
    {
        laws::other_calls_pass();
        w.end(self.number);
        w.remove(&self.paths.connection);
    }

    /// Ends the child, removes the connection file, and gives how the job ended.
    pub fn finish<W: Disk + Kids>(self, w: &mut W) -> Answer
        ensures course { (o : Origin) → Runs o self (W.journal w.old) (W.counts w.old) →
            EndsWith o (Some (task_of_job self)) result (W.journal w.new) (W.counts w.new) }
        ensures calls { (c : Cast) (since : List Entry) (from : Counts) →
            HasRole c since from self (W.journal w.old) (W.counts w.old) →
            HasCalled c since from (W.journal w.new) (W.counts w.new) }
        // Its child has its end.
        ensures left { HasEnd (number_of self) (W.journal w.new) }
        // Where it stood for the journal, it has ended with this answer by the journal.
        ensures stands { (p : Plot) → Told (W.journal w.old) (W.journal w.new) (λ before after.
            JobStandsUntold p self before → HasAnswered p result after) }
        // It is the answer of an end of its run, by a cause for which such a core may stop, or of
        // one from outside.
        ensures end { IsEnding (output_of_job self) (task_of_job self) result }
        // It is that of the network or of the budget of turns only where that has ended the job.
        ensures lost { result.status ≡ 14 → IsLost (outcome self) }
        ensures spent { result.status ≡ 16 → IsSpent (outcome self) }
        // Where it has ended, it is the answer of its end, and else that of memory that was wanted.
        ensures over { (answer : TheAnswer) → outcome self ≡ Some answer → result ≡ answer }
        ensures starved { outcome self ≡ None → result.status ≡ 12 }
        // Its calls are quiet for every job.
        ensures quiet { (facts : Facts) →
            Told (W.journal w.old) (W.journal w.new) (Since (IsQuietNow facts)) }
    {
        laws::jobs_begin_and_end();
        self.end_child(w);
        let Job {
            alloc,
            run,
            outcome,
            ..
        } = self;
        // By a call: where the scope ends each of its many parts would be dropped, which takes the
        // prover ten minutes.
        drop(run);
        match outcome {
            Some(answer) => answer,
            None => Answer::starved(alloc),
        }
    }

    // The job ends so.
    fn end(&mut self, end: End) -> Result<(), NoMemory>
        requires running { is_some (outcome self.old) ≡ false }
        requires outside { IsOutside end }
        requires saved { keeps_open end ≡ true }
        ensures course { KeepsRun self.old self.new }
        ensures calls { KeepsRole self.old self.new }
        ensures task { task_of_job self.new ≡ task_of_job self.old }
        ensures pings { pings_kernel self.new ≡ pings_kernel self.old }
        ensures output { output_of_job self.new ≡ output_of_job self.old }
        ensures lost { IsLost (outcome self.new) → end ≡ ending.NetFault }
        ensures spent { IsSpent (outcome self.new) → end ≡ ending.Spent }
        ensures stands { KeepsStanding self.old self.new }
        ensures ends { EndsOnce (outcome self.old) (outcome self.new) result }
    {
        self.outcome = outcome_of(self.alloc, &self.paths.output, &mut self.run, Err(end));
        self.unless_starved()
    }

    // Whether memory was wanted, so that the job has ended.
    fn unless_starved(&self) -> Result<(), NoMemory>
        ensures starved { OnErr result (HasStarved (outcome self.now)) }
        ensures fed { OnOk result (¬ (HasStarved (outcome self.now))) }
    {
        match &self.outcome {
            Some(answer) => {
                if is_starved(answer) {
                    Err(NoMemory)
                } else {
                    Ok(())
                }
            }
            None => Ok(()),
        }
    }
}
