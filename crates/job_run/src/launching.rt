//! The launch of a job's kernel: its ports, its connection file and its child.
ghost use Rattle.std.specs.Prelude.{◌≡◌, ◌<◌, List, None, IfOk, IfErr};
ghost use Rattle.world.specs.declared.entry.Entry.{Entry};
ghost use Rattle.world.specs.Counts.{Counts};
ghost use Rattle.world.specs.Moments.{Told, Since};
ghost use Rattle.job_saves.specs.Calls.{Cast};
ghost use Rattle.job_saves.specs.Children.{HasEnd};
ghost use Rattle.job_saves.specs.Course.{Origin};
ghost use Rattle.job_run.specs.Told.{IsEndOfLaunch};
ghost use Rattle.job_run.specs.Task.{task_of_job, output_of_job, ports_of_job, pings_kernel};
ghost use Rattle.job_run.specs.Task.{terms_of_job};
ghost use Rattle.job_run.specs.Run.{Runs, HasRole, MayStart, StartsAs, StartsInRole};
ghost use Rattle.job_run.specs.Run.{HasPorts, HasNoPorts, EndCause};
ghost use Rattle.job_run.specs.Run.{number_of, outcome_of};
ghost use Rattle.run_journal.specs.Job.{Job as Facts};
ghost use Rattle.job_journal.specs.Plot.{Plot, facts};
ghost use Rattle.job_journal.specs.Quiet.{IsQuietNow};
ghost use Rattle.job_run.specs.Beginning.{AsksPorts, BeginsOrEnds, SpeaksOn};
ghost use Rattle.job_run.specs.JobStanding.{JobStands};

use crate::Job;
use crate::outcome::{end_of_file, end_of_start};
use job_end::End;
use job_saves::laws;
use jtext::Text;
use kernel_start::{Kernel, write_connection};
use world::World;

impl Job {
    ghost use Rattle.std.specs.Prelude.{◌≡◌, ◌<◌, None, IfOk};
    ghost use Rattle.job_saves.specs.Children.{KeepsEnd};
    ghost use Rattle.job_run.specs.Run.{RunsOn};
    ghost use Rattle.job_run.specs.Run.{LaunchesInRole, LaunchesOnPorts, RunsInRole, WritesInRole};
    ghost use Rattle.job_run.specs.Run.{ReadiesIn, number_of};
    ghost use Rattle.job_run.specs.Run.{EndsLaunch};
    ghost use Rattle.job_run.specs.Run.{HasPorts, KeepsPorts, outcome_of};
    ghost use Rattle.job_run.specs.Task.{task_of_job, output_of_job, ports_of_job};
    ghost use Rattle.job_run.specs.Task.{pings_kernel, terms_of_job};
    ghost use Rattle.world.specs.Moments.{Since, Told};
    ghost use Rattle.run_journal.specs.Job.{Job as Facts};
    ghost use Rattle.job_journal.specs.Quiet.{IsQuietNow};
    ghost use Rattle.job_run.specs.Beginning.{AsksPorts, IsLater};
    ghost use Rattle.job_run.specs.JobStanding.{KeepsStanding};

    // Draws the ports, writes the connection file and starts the child.
    fn launch<W: World>(&mut self, w: &mut W, kernel: &Kernel, here: &Text) -> Result<(), End>
        ensures course { RunsOn W.journal W.counts w.old w.new self.old self.new }
        ensures calls { LaunchesInRole W.journal W.counts w.old w.new kernel.now here.now
            self.old self.new }
        ensures number { number_of self.new ≡ number_of self.old }
        ensures outcome { outcome_of self.new ≡ outcome_of self.old }
        ensures task { task_of_job self.new ≡ task_of_job self.old }
        ensures pings { pings_kernel self.new ≡ pings_kernel self.old }
        ensures terms { terms_of_job self.new ≡ terms_of_job self.old }
        ensures output { output_of_job self.new ≡ output_of_job self.old }
        ensures ports { IfOk result (λ _.
            HasPorts (number_of self.new) (ports_of_job self.new) (W.journal w.new)) }
        ensures ends { EndsLaunch (W.counts w.old) (W.counts w.new) result }
        ensures run { self.new.run ≡ self.old.run }
        ensures keeps { KeepsStanding self.old self.new }
        ensures asks { IfOk result (λ _. Told (W.journal w.old) (W.journal w.new)
            (AsksPorts (number_of self.old))) }
        ensures quiet { (facts : Facts) →
            Told (W.journal w.old) (W.journal w.new) (Since (IsQuietNow facts)) }
    {
        match w.free_ports(self.number) {
            Some(ports) => {
                self.ports = ports;
                self.start_on_ports(w, kernel, here)
            }
            None => Err(End::NetFault),
        }
    }

    // Writes the connection file and starts the child.
    fn start_on_ports<W: World>(&self, w: &mut W, kernel: &Kernel, here: &Text) -> Result<(), End>
        ensures course { RunsOn W.journal W.counts w.old w.new self.now self.now }
        ensures calls { LaunchesOnPorts W.journal W.counts w.old w.new kernel.now here.now
            self.now }
        ensures given { KeepsPorts W.journal w.old w.new }
        ensures ends { EndsLaunch (W.counts w.old) (W.counts w.new) result }
        ensures later { Told (W.journal w.old) (W.journal w.new) IsLater }
        ensures quiet { (facts : Facts) →
            Told (W.journal w.old) (W.journal w.new) (Since (IsQuietNow facts)) }
    {
        match self.write_file(w) {
            Ok(()) => self.start_child(w, kernel, here),
            Err(end) => Err(end),
        }
    }

    fn write_file<W: World>(&self, w: &mut W) -> Result<(), End>
        ensures course { RunsOn W.journal W.counts w.old w.new self.now self.now }
        ensures calls { WritesInRole W.journal W.counts w.old w.new self.now }
        ensures ready { IfOk result (λ _. ReadiesIn W.journal w.old w.new self.now) }
        ensures left { KeepsEnd (number_of self.now) (W.journal w.old) (W.journal w.new) }
        ensures given { KeepsPorts W.journal w.old w.new }
        ensures ends { EndsLaunch (W.counts w.old) (W.counts w.new) result }
        ensures later { Told (W.journal w.old) (W.journal w.new) IsLater }
        ensures quiet { (facts : Facts) →
            Told (W.journal w.old) (W.journal w.new) (Since (IsQuietNow facts)) }
    {
        let key = self.run.session.key();
        let path = &self.paths.connection;
        end_of_file(write_connection(self.alloc, w, path, self.ports, key))
    }

    fn start_child<W: World>(&self, w: &mut W, kernel: &Kernel, here: &Text) -> Result<(), End>
        ensures course { RunsOn W.journal W.counts w.old w.new self.now self.now }
        ensures calls { RunsInRole W.journal W.counts w.old w.new kernel.now here.now self.now }
        ensures given { KeepsPorts W.journal w.old w.new }
        ensures ends { EndsLaunch (W.counts w.old) (W.counts w.new) result }
        ensures later { Told (W.journal w.old) (W.journal w.new) IsLater }
        ensures quiet { (facts : Facts) →
            Told (W.journal w.old) (W.journal w.new) (Since (IsQuietNow facts)) }
    {
        let path = &self.paths.connection;
        end_of_start(kernel.start(self.alloc, w, self.number, here, path, &self.paths.cwd))
    }
}

/// The job whose kernel was started. Where its start fails nothing is left of it.
pub(crate) fn with_kernel<W: World>(
    job: Job,
    w: &mut W,
    kernel: &Kernel,
    here: &Text,
) -> Result<Job, End>
    requires { outcome_of job ≡ None }
    ensures course { (o : Origin) → Runs o job (W.journal w.old) (W.counts w.old) →
        StartsAs o result (W.journal w.new) (W.counts w.new) }
    ensures calls { (c : Cast) (since : List Entry) (from : Counts) →
        MayStart c (number_of job) kernel.now here.now job.run (W.journal w.old) →
        HasNoPorts c (number_of job) (W.journal w.old) →
        HasRole c since from job (W.journal w.old) (W.counts w.old) →
        StartsInRole c since from result (W.journal w.new) (W.counts w.new) }
    ensures left { IfErr result (λ _. HasEnd (number_of job) (W.journal w.new)) }
    ensures cause { IfErr result (EndCause (W.counts w.old) (W.counts w.new)) }
    ensures own { IfErr result IsEndOfLaunch }
    ensures task { IfOk result (λ j. task_of_job j ≡ task_of_job job) }
    ensures output { IfOk result (λ j. output_of_job j ≡ output_of_job job) }
    ensures fresh { IfOk result (λ j. outcome_of j ≡ None) }
    ensures pings { IfOk result (λ j. pings_kernel j ≡ pings_kernel job) }
    ensures terms { IfOk result (λ j. terms_of_job j ≡ terms_of_job job) }
    ensures ports { IfOk result (λ j.
        HasPorts (number_of job) (ports_of_job j) (W.journal w.new)) }
    ensures stands { (p : Plot) → Told (W.journal w.old) (W.journal w.new) (λ before after.
        JobStands p job before → BeginsOrEnds p result after) }
    ensures quiet { (facts : Facts) →
        Told (W.journal w.old) (W.journal w.new) (Since (IsQuietNow facts)) }
    ensures speaks { IfOk result (SpeaksOn job.run) }
    ensures asks { IfOk result (λ j. Told (W.journal w.old) (W.journal w.new)
        (AsksPorts (number_of job))) }
{
    laws::jobs_begin_and_end();
    let mut job = job;
    match job.launch(w, kernel, here) {
        Ok(()) => Ok(job),
        Err(end) => {
            job.end_child(w);
            // By a call, as where a job ends.
            drop(job);
            Err(end)
        }
    }
}
