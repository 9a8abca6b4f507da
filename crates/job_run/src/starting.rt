//! The start of a job: its first save, its connection file and its kernel.
ghost use Rattle.std.specs.Prelude.{◌≡◌, ◌<◌, ℕ, List, true, false, None, Some, IfOk, IfErr};
ghost use Rattle.std.specs.Str.{bytes_eq};
ghost use Rattle.world.specs.declared.entry.Entry.{Entry};
ghost use Rattle.world.specs.Counts.{Counts};
ghost use Rattle.world.specs.Moments.{Told, Since};
ghost use Rattle.world.specs.Parts.{IsOf, OnRand};
ghost use Rattle.world.specs.Touched.{Spares};
ghost use Rattle.words.specs.Paths.{connection_of};
ghost use Rattle.words.specs.Runnable.{IsRunnable};
ghost use Rattle.job_notebook.specs.State.{merge_of, output_of, KeepsRead};
ghost use Rattle.job_saves.specs.Calls.{Cast};
ghost use Rattle.job_saves.specs.Children.{KeepsEnd};
ghost use Rattle.job_saves.specs.Sessions.{key_of};
ghost use Rattle.kernel_talk.specs.Requests.{identifier};
ghost use Rattle.kernel_start.specs.RandomWords.{Draws};
ghost use Rattle.job_saves.specs.Course.{Origin, Stands, HasPart, CountsWork, stays_open};
ghost use Rattle.cell_core.specs.StandsFor.{task_of};
ghost use Rattle.job_run.specs.Told.{StartsBy, IsEndOfLaunch};
ghost use Rattle.job_run.specs.Held.{Holds, IsCalm, IsFirst};
ghost use Rattle.job_run.specs.Task.{task_of_job, output_of_job, ports_of_job, pings_kernel};
ghost use Rattle.job_run.specs.Task.{task_for, task_in, terms_of_job, AreTermsOf};
ghost use Rattle.job_run.specs.Run.{IsRole, MayStart, StartsAs, StartsInRole};
ghost use Rattle.job_run.specs.Run.{BeginsNew, StartsCounted, HasPorts, HasNoPorts, EndCause};
ghost use Rattle.job_run.specs.Run.{number_of, outcome_of};
ghost use Rattle.std.specs.Prelude.{[]};
ghost use Rattle.world.specs.declared.chan.Chan.{Chan as Channel};
ghost use Rattle.jsign.specs.History.{StandsFor as SeenFor};
ghost use Rattle.kernel_lines.specs.Line.{StandsFor as LineStandsFor, role_of};
ghost use Rattle.kernel_lines.specs.Lines.{line_on, role_on};
ghost use Rattle.run_journal.specs.Requests.{requests};
ghost use Rattle.job_journal.specs.Plot.{Plot, facts};
ghost use Rattle.job_run.specs.Beginning.{BeginsOrEnds, IsFresh, IsToBegin, IsUnbegun, SpeaksOn};
ghost use Rattle.job_run.specs.Beginning.{SavesAndAsks};

use crate::execution::Execution;
use crate::histories::Histories;
use crate::launching::with_kernel;
use crate::look::Look;
use crate::paths::Paths;
use crate::terms::Terms;
use crate::{Agenda, Job};
use cell_core::{Act, Core, Times};
use job_end::End;
use job_notebook::JobNotebook;
use job_saves::laws;
use jtext::{NoMemory, Text};
use kernel_lines::Lines;
use kernel_start::{Kernel, RandomPairs, connection_path, random_pairs};
use kernel_talk::{Asking, Pings, Session};
use std::alloc::Global;
use words::Ask;
use world::World;

impl Job {
    ghost use Rattle.std.specs.Prelude.{◌≡◌, ◌<◌, List, None, Some, IfOk, IfErr, IfSome};
    ghost use Rattle.world.specs.declared.entry.Entry.{Entry};
    ghost use Rattle.world.specs.Counts.{Counts};
    ghost use Rattle.job_saves.specs.Course.{Origin, IsFor, HasCalled, Begins};
    ghost use Rattle.job_saves.specs.Calls.{Cast};
    ghost use Rattle.job_saves.specs.Reads.{IsKernelOf};
    ghost use Rattle.job_saves.specs.Children.{KeepsEnd};
    ghost use Rattle.job_saves.specs.Sessions.{HasDrawn};
    ghost use Rattle.kernel_start.specs.RandomWords.{Draws};
    ghost use Rattle.job_run.specs.Run.{IsCastAs, BeginsNew, StartsAs, StartsCounted, StartsInRole};
    ghost use Rattle.job_run.specs.Run.{HasNoChild, HasNoPorts, EndCause};
    ghost use Rattle.job_run.specs.Run.{OnlyReads};
    ghost use Rattle.job_run.specs.Run.{HasPorts, outcome_of};
    ghost use Rattle.job_run.specs.Task.{task_of_job, output_of_job, ports_of_job, task_for};
    ghost use Rattle.job_run.specs.Task.{pings_kernel, terms_of_job, AreTermsOf};
    ghost use Rattle.job_run.specs.Told.{StartsBy};
    ghost use Rattle.world.specs.Moments.{Told};
    ghost use Rattle.job_journal.specs.Plot.{Plot};
    ghost use Rattle.job_run.specs.Beginning.{HasSession, IsFresh, IsPlotOf, StartsOrEnds};

    /// Saves the notebook with no cell settled and starts the kernel that was found for it. Where
    /// the start fails nothing is left of the kernel. `here` is the working folder.
    pub fn start<W: World>(
        alloc: Global,
        w: &mut W,
        number: u8,
        ask: Ask,
        agenda: Agenda,
        kernel: &Kernel,
        here: &Text,
    ) -> Result<Job, End>
        requires number { number < 16 }
        requires ask { IsRunnable ask }

        // Its first save begins the course of its saves.
        ensures course { (o : Origin) → IsFor ask.output ask.merge agenda.notebook o →
            Begins o (W.journal w.old) (W.counts w.old) → BeginsNew o (W.journal w.old) →
            StartsAs o result (W.journal w.new) (W.counts w.new) }
        // Its calls are those of the job that was asked for, and no other job's, where this is the
        // kernel that it has read of and no child of its number is there, and the notebook the one
        // that it has read.
        ensures calls { (c : Cast) (since : List Entry) (from : Counts) →
            IsCastAs c number ask here.now →
            IfSome (W.journal w.old) (λ past. IsKernelOf ask past kernel.now) →
            HasNoChild c number (W.journal w.old) → HasNoPorts c number (W.journal w.old) →
            OnlyReads c ask agenda.notebook (W.journal w.old) →
            HasCalled c since from (W.journal w.old) (W.counts w.old) →
            StartsInRole c since from result (W.journal w.new) (W.counts w.new) }
        // Where it ends a child that was started has its end.
        ensures left { IfErr result (λ _. KeepsEnd number (W.journal w.old) (W.journal w.new)) }
        // It ends by its ports, its kernel or its connection file only where a count of failed
        // calls rose, and never by a budget of turns.
        ensures cause { IfErr result (EndCause (W.counts w.old) (W.counts w.new)) }
        // It ends by that start or as a run does; where it runs its core is to execute the cells of
        // the agenda in the times that were asked for, its last line names its output, and its errors
        // stop it and its kernel is pinged where that was asked for.
        ensures own { IfErr result (StartsBy (task_for ask agenda.notebook)) }
        ensures task { IfOk result (λ j. task_of_job j ≡ task_for ask agenda.notebook) }
        ensures output { IfOk result (λ j. output_of_job j ≡ ask.output) }
        ensures fresh { IfOk result (λ j. outcome_of j ≡ None) }
        ensures pings { IfOk result (λ j. pings_kernel j ≡ ask.heartbeat) }
        ensures terms { IfOk result (λ j. AreTermsOf ask (terms_of_job j)) }
        // Where it runs it speaks in the session, and under the key, of the words that were drawn for
        // it in this call.
        ensures spoken { IfOk result (λ j. Told (W.journal w.old) (W.journal w.new)
            (HasSession number ask.output j)) }
        // Where nothing had happened to the job of a plot, and it is this one, the job stands for
        // the journal in the plot's session. Where it ends, it ends so by the journal, in whichever
        // session.
        ensures stands { (p : Plot) → Told (W.journal w.old) (W.journal w.new) (λ before after.
            IsPlotOf p number ask agenda.notebook → IsFresh p before →
            StartsOrEnds p result after) }
        ensures ports { IfOk result (λ j. HasPorts number (ports_of_job j) (W.journal w.new)) }
        // Where events brought its end, as many of them are saves as were acknowledged.
        ensures counted { (o : Origin) → IsFor ask.output ask.merge agenda.notebook o →
            Begins o (W.journal w.old) (W.counts w.old) → BeginsNew o (W.journal w.old) →
            IfErr result (StartsCounted o (task_for ask agenda.notebook) (W.journal w.new)) }
    {
        match draw_pairs(w) {
            Ok(pairs) => Job::start_session(alloc, w, number, ask, agenda, pairs, kernel, here),
            Err(end) => Err(end),
        }
    }

    // The same, with the words of its session, which were drawn last.
    fn start_session<W: World>(
        alloc: Global,
        w: &mut W,
        number: u8,
        ask: Ask,
        agenda: Agenda,
        pairs: RandomPairs,
        kernel: &Kernel,
        here: &Text,
    ) -> Result<Job, End>
        requires number { number < 16 }
        requires ask { IsRunnable ask }
        ensures course { (o : Origin) → IsFor ask.output ask.merge agenda.notebook o →
            Begins o (W.journal w.old) (W.counts w.old) → BeginsNew o (W.journal w.old) →
            StartsAs o result (W.journal w.new) (W.counts w.new) }
        ensures calls { (c : Cast) (since : List Entry) (from : Counts) →
            IsCastAs c number ask here.now →
            IfSome (W.journal w.old) (λ past. IsKernelOf ask past kernel.now) →
            IfSome (W.journal w.old) (HasDrawn ask.output pairs) →
            HasNoChild c number (W.journal w.old) → HasNoPorts c number (W.journal w.old) →
            OnlyReads c ask agenda.notebook (W.journal w.old) →
            HasCalled c since from (W.journal w.old) (W.counts w.old) →
            StartsInRole c since from result (W.journal w.new) (W.counts w.new) }
        ensures left { IfErr result (λ _. KeepsEnd number (W.journal w.old) (W.journal w.new)) }
        ensures cause { IfErr result (EndCause (W.counts w.old) (W.counts w.new)) }
        ensures own { IfErr result (StartsBy (task_for ask agenda.notebook)) }
        ensures counted { (o : Origin) → IsFor ask.output ask.merge agenda.notebook o →
            Begins o (W.journal w.old) (W.counts w.old) → BeginsNew o (W.journal w.old) →
            IfErr result (StartsCounted o (task_for ask agenda.notebook) (W.journal w.new)) }
        ensures task { IfOk result (λ j. task_of_job j ≡ task_for ask agenda.notebook) }
        ensures output { IfOk result (λ j. output_of_job j ≡ ask.output) }
        ensures fresh { IfOk result (λ j. outcome_of j ≡ None) }
        ensures pings { IfOk result (λ j. pings_kernel j ≡ ask.heartbeat) }
        ensures terms { IfOk result (λ j. AreTermsOf ask (terms_of_job j)) }
        ensures ports { IfOk result (λ j. HasPorts number (ports_of_job j) (W.journal w.new)) }
        ensures spoken { IfOk result (λ j. Told (W.journal w.old) (W.journal w.new)
            (λ before after. (start : List Entry) → Draws (Some pairs) start before →
            HasSession number ask.output j start after)) }
        ensures stands { (p : Plot) → Told (W.journal w.old) (W.journal w.new) (λ before after.
            IsPlotOf p number ask agenda.notebook → IsFresh p before →
            StartsOrEnds p result after) }
    {
        match parts_of(alloc, ask, agenda, pairs) {
            Ok((paths, run)) => start_saved(alloc, w, number, paths, run, kernel, here),
            Err(NoMemory) => Err(End::NoMemory),
        }
    }
}

impl Execution {
    ghost use Rattle.std.specs.Prelude.{◌≡◌, OnOk};
    ghost use Rattle.job_run.specs.Held.{Holds, IsCalm, IsFirst};
    ghost use Rattle.cell_core.specs.declared.act.Act.TheVariants.{Nothing};
    ghost use Rattle.job_run.specs.Steps.{ProceedsFirst, OnlySaves};
    ghost use Rattle.std.specs.Prelude.{ℕ};
    ghost use Rattle.job_journal.specs.Plot.{Plot};
    ghost use Rattle.world.specs.Moments.{Told};
    ghost use Rattle.job_run.specs.Beginning.{HasSavedFirst, IsToBegin};
    ghost use Rattle.job_run.specs.Standing.{StandsOrEnds};

    /// Saves the notebook with no cell settled, and reads the clock once.
    fn save_first<W: World>(&mut self, w: &mut W) -> Result<(), End>
        requires first { IsFirst self.old }
        ensures goes { ProceedsFirst W.journal W.counts w.old w.new self.old self.new Nothing
            result }
        ensures saves { OnlySaves W.journal w.old w.new self.old.book }
        ensures key { OnOk result (self.new.session.key ≡ self.old.session.key) }
        ensures name { OnOk result (self.new.session.name ≡ self.old.session.name) }
        // Where nothing had happened before, the execution stands for the journal.
        ensures stands { (p : Plot) (number : ℕ) → Told (W.journal w.old) (W.journal w.new)
            (λ before after. IsToBegin p number self.old before →
            StandsOrEnds p number self.new result after) }
    {
        self.act(w, Act::Save(0))?;
        self.read_clock(w)
    }

    fn read_clock<W: World>(&mut self, w: &mut W) -> Result<(), End>
        requires holds { Holds self.old }
        requires calm { IsCalm self.old }
        ensures goes { ProceedsFirst W.journal W.counts w.old w.new self.old self.new Nothing
            result }
        ensures saves { OnlySaves W.journal w.old w.new self.old.book }
        ensures key { OnOk result (self.new.session.key ≡ self.old.session.key) }
        ensures name { OnOk result (self.new.session.name ≡ self.old.session.name) }
        ensures stands { (p : Plot) (number : ℕ) → Told (W.journal w.old) (W.journal w.new)
            (λ before after. HasSavedFirst p number self.old before →
            StandsOrEnds p number self.new result after) }
    {
        laws::other_calls_pass();
        let ms = w.now();
        self.turn_clock(ms);
        self.hear_clock(w)
    }
}

/// The job whose notebook is saved first, and whose kernel is then started.
fn start_saved<W: World>(
    alloc: Global,
    w: &mut W,
    number: u8,
    paths: Paths,
    run: Execution,
    kernel: &Kernel,
    here: &Text,
) -> Result<Job, End>
    requires number { number < 16 }
    requires first { IsFirst run }
    ensures course { (o : Origin) → Stands o run.book true (W.journal w.old) (W.counts w.old) →
        bytes_eq paths.connection o.output ≡ false → BeginsNew o (W.journal w.old) →
        StartsAs o result (W.journal w.new) (W.counts w.new) }
    ensures calls { (c : Cast) (since : List Entry) (from : Counts) →
        MayStart c number kernel.now here.now run (W.journal w.old) →
        HasNoPorts c number (W.journal w.old) → IsRole c number paths →
        HasPart c since from run.book (W.journal w.old) (W.counts w.old) →
        StartsInRole c since from result (W.journal w.new) (W.counts w.new) }
    ensures left { IfErr result (λ _. KeepsEnd number (W.journal w.old) (W.journal w.new)) }
    ensures cause { IfErr result (EndCause (W.counts w.old) (W.counts w.new)) }
    ensures own { IfErr result (StartsBy (task_of run.core)) }
    ensures counted { (o : Origin) → Stands o run.book true (W.journal w.old) (W.counts w.old) →
        BeginsNew o (W.journal w.old) →
        IfErr result (StartsCounted o (task_of run.core) (W.journal w.new)) }
    ensures task { IfOk result (λ j. task_of_job j ≡ task_of run.core) }
    ensures output { IfOk result (λ j. output_of_job j ≡ paths.output) }
    ensures fresh { IfOk result (λ j. outcome_of j ≡ None) }
    ensures pings { IfOk result (λ j. pings_kernel j ≡ run.terms.heartbeat) }
    ensures terms { IfOk result (λ j. terms_of_job j ≡ run.terms) }
    ensures ports { IfOk result (λ j. HasPorts number (ports_of_job j) (W.journal w.new)) }
    ensures stands { (p : Plot) → Told (W.journal w.old) (W.journal w.new) (λ before after.
        paths.output ≡ p.ask.output → IsToBegin p number run before →
        BeginsOrEnds p result after) }
    ensures unsent { (p : Plot) → Told (W.journal w.old) (W.journal w.new) (λ before after.
        IsFresh p before → requests (facts p) after ≡ []) }
    ensures speaks { IfOk result (SpeaksOn run) }
    ensures asks { IfOk result (λ j. Told (W.journal w.old) (W.journal w.new)
        (SavesAndAsks number (output_of run.book))) }
{
    laws::jobs_begin_and_end();
    let mut run = run;
    match run.save_first(w) {
        Ok(()) => with_kernel(job_of(alloc, number, paths, run), w, kernel, here),
        Err(end) => {
            // By a call, as where a job ends.
            drop(run);
            Err(end)
        }
    }
}

/// The job of an execution whose notebook was saved first. Its kernel isn't started.
fn job_of(alloc: Global, number: u8, paths: Paths, run: Execution) -> Job
    requires number { number < 16 }
    requires holds { Holds run }
    requires calm { IsCalm run }
    ensures run { result.run ≡ run }
    ensures paths { result.paths ≡ paths }
    ensures number { number_of result ≡ number }
    ensures outcome { outcome_of result ≡ None }
{
    Job {
        alloc,
        number,
        paths,
        ports: [0; 5],
        run,
        look: Look::Still,
        outcome: None,
    }
}

fn draw_pairs<W: World>(w: &mut W) -> Result<RandomPairs, End>
    ensures others { (path : List ℕ) →
        Told (W.journal w.old) (W.journal w.new) (Since (Spares path)) }
    ensures part { Told (W.journal w.old) (W.journal w.new) (Since (IsOf OnRand)) }
    ensures words { IfOk result (λ pairs.
        Told (W.journal w.old) (W.journal w.new) (Draws (Some pairs))) }
    ensures work { CountsWork (W.counts w.old) (W.counts w.new) }
    ensures saved { stays_open result ≡ true }
    ensures cause { IfErr result (EndCause (W.counts w.old) (W.counts w.new)) }
    ensures own { IfErr result IsEndOfLaunch }
{
    match random_pairs(w) {
        Some(pairs) => Ok(pairs),
        None => Err(End::NotStarted),
    }
}

/// The paths of a job, and its execution, of which nothing has happened.
fn parts_of(
    alloc: Global,
    ask: Ask,
    agenda: Agenda,
    pairs: RandomPairs,
) -> Result<(Paths, Execution), NoMemory>
    requires ask { IsRunnable ask }
    ensures first { IfOk result (λ p. IsFirst p.1) }
    ensures output { IfOk result (λ p. output_of p.1.book ≡ ask.output) }
    ensures merge { IfOk result (λ p. merge_of p.1.book ≡ ask.merge) }
    ensures keeps { IfOk result (λ p. KeepsRead p.1.book agenda.notebook) }
    ensures connection { IfOk result (λ p. p.0.connection ≡ connection_of ask.output) }
    ensures folder { IfOk result (λ p. p.0.cwd ≡ ask.cwd) }
    ensures task { IfOk result (λ p. task_of p.1.core ≡ task_for ask agenda.notebook) }
    ensures terms { IfOk result (λ p. AreTermsOf ask p.1.terms) }
    ensures key { IfOk result (λ p. p.1.session.key ≡ key_of pairs) }
    ensures name { IfOk result (λ p.
        p.1.session.name ≡ identifier pairs.name.0 pairs.name.1) }
    ensures paths { IfOk result (λ p. p.0.output ≡ ask.output) }
    ensures unbegun { IfOk result (λ p. IsUnbegun agenda.notebook p.1) }
{
    let paths = paths_of(alloc, &ask)?;
    let run = execution_of(alloc, terms_of(ask), &paths.output, agenda, pairs)?;
    Ok((paths, run))
}

fn paths_of(alloc: Global, ask: &Ask) -> Result<Paths, NoMemory>
    ensures output { IfOk result (λ p. p.output ≡ ask.now.output) }
    ensures connection { IfOk result (λ p. p.connection ≡ connection_of ask.now.output) }
    ensures folder { IfOk result (λ p. p.cwd ≡ ask.now.cwd) }
{
    let output = ask.output.copy(alloc)?;
    let connection = connection_path(alloc, &ask.output)?;
    let cwd = ask.cwd.copy(alloc)?;
    Ok(Paths {
        output,
        connection,
        cwd,
    })
}

fn terms_of(ask: Ask) -> Terms
    requires { IsRunnable ask }
    ensures { AreTermsOf ask result }
{
    let Ask {
        all_errors,
        names,
        heartbeat,
        merge,
        start_ms,
        limit_ms,
        interrupt,
        ..
    } = ask;
    Terms {
        all_errors,
        names,
        heartbeat,
        merge,
        times: Times {
            start_ms,
            limit_ms,
            interrupt,
        },
    }
}

fn execution_of(
    alloc: Global,
    terms: Terms,
    output: &Text,
    agenda: Agenda,
    pairs: RandomPairs,
) -> Result<Execution, NoMemory>
    ensures first { IfOk result IsFirst }
    ensures output { IfOk result (λ x. output_of x.book ≡ output.now) }
    ensures merge { IfOk result (λ x. merge_of x.book ≡ terms.merge) }
    ensures keeps { IfOk result (λ x. KeepsRead x.book agenda.notebook) }
    ensures terms { IfOk result (λ x. x.terms ≡ terms) }
    ensures task { IfOk result (λ x. task_of x.core ≡
        task_in terms.times agenda.notebook) }
    ensures key { IfOk result (λ x. x.session.key ≡ key_of pairs) }
    ensures name { IfOk result (λ x. x.session.name ≡ identifier pairs.name.0 pairs.name.1) }
    ensures unbegun { IfOk result (IsUnbegun agenda.notebook) }
{
    nb_model::laws::plan_in_order();
    let Agenda { notebook, cells } = agenda;
    let count = notebook.cells.len() as u32;
    let core = Core::new(cells, count, terms.times);
    let book = JobNotebook::new(alloc, notebook, terms.merge, output)?;
    match talk_of(alloc, pairs) {
        Ok((lines, session, seen)) => Ok(Execution {
            alloc,
            terms,
            book,
            core,
            lines,
            session,
            seen,
            asking: Asking::new(alloc),
            is_ready: false,
            pings: Pings::new(),
            clock: 0,
            request: None,
            sent: 0,
            broken: None,
        }),
        Err(NoMemory) => {
            // By calls, as where a job ends.
            drop(book);
            drop(core);
            Err(NoMemory)
        }
    }
}

/// What an execution speaks with its kernel by, under the key of these random words.
fn talk_of(alloc: Global, pairs: RandomPairs) -> Result<(Lines, Session, Histories), NoMemory>
    ensures key { IfOk result (λ t. t.1.key ≡ key_of pairs) }
    ensures name { IfOk result (λ t. t.1.name ≡ identifier pairs.name.0 pairs.name.1) }
    ensures made { IfOk result (λ t. t.1.made ≡ 0) }
    ensures roles { IfOk result (λ t. (c : Channel) → role_of (line_on t.0 c) ≡ role_on c) }
    ensures lines { IfOk result (λ t. (c : Channel) → LineStandsFor (line_on t.0 c) [] []) }
    ensures shell { IfOk result (λ t. SeenFor t.2.shell []) }
    ensures iopub { IfOk result (λ t. SeenFor t.2.iopub []) }
{
    let seen = Histories::new(alloc)?;
    let session = Session::new(alloc, pairs.name, pairs.key)?;
    let lines = Lines::new(alloc)?;
    Ok((lines, session, seen))
}
