//! What the core answers is done.

use crate::execution::Execution;
use crate::request::Request;
use cell_core::{Act, Event, Step, Why};
use jcontent::{empty_content, execute_content, shutdown_content};
use job_end::End;
use job_saves::{laws, save_next};
use jtext::{Json, NoMemory, Text};
use nb_model::{code, tagged};
use world::{Chan, Disk, Say};

/// The tag of a cell whose errors don't stop the run (nbclient).
const RAISES: &str = "raises-exception";

impl Execution {
    ghost use Rattle.std.specs.Prelude.{◌≡◌, ℕ, ◌<◌, ◌≤◌, ◌^◌, ◌+◌, true, false, is_some};
    ghost use Rattle.std.specs.Prelude.{IfOk, IfErr, IfSome, OnOk};
    ghost use Rattle.cell_core.specs.Events.{is_broken, is_looked, is_saved};
    ghost use Rattle.cell_core.specs.Holds.{IsSmall, is_save};
    ghost use Rattle.cell_core.specs.Sending.{next_of, saves_ahead};
    ghost use Rattle.cell_core.specs.StandsFor.{task_of};
    ghost use Rattle.cell_core.specs.declared.why.Why.TheVariants as cause;
    ghost use Rattle.world.specs.Moments.{Told};
    ghost use Rattle.save_disk.specs.Places.{save_count};
    ghost use Rattle.job_notebook.specs.State.{settled_of, begun_of, output_of};
    ghost use Rattle.job_run.specs.Held.{Holds, IsToDo, IsCalm, IsSaid};
    ghost use Rattle.job_run.specs.Held.{Asks, AsksOnce, requests_of};
    ghost use Rattle.job_run.specs.Told.{MayCome, StopsFor, EndsBy};
    ghost use Rattle.job_run.specs.Counted.{IsCounted, IsCountedOn, IsCountedAt};
    ghost use Rattle.job_run.specs.Counted.{CountsFor, KeepsTold};
    ghost use Rattle.job_run.specs.Counted.{StopsAfter, EndsAfter};
    ghost use Rattle.job_saves.specs.Course.{GoesOn, CallsOwn, StaysOn, KeepsPart, IsEndOfSave};
    ghost use Rattle.job_saves.specs.Course.{Origin, Stands};
    ghost use Rattle.job_saves.specs.Left.{OutputAt, IsLeft, output_at};
    ghost use Rattle.cell_core.specs.Stops.{stopping_of};
    ghost use Rattle.job_saves.specs.Course.{stays_open, keeps_open};
    ghost use Rattle.cell_core.specs.declared.act.Act.TheVariants.{Nothing};
    ghost use Rattle.job_run.specs.Steps.{Proceeds, OnlySaves, ReadsNoClock};
    ghost use Rattle.job_run.specs.Told.{KeepsBroken};
    ghost use Rattle.job_run.specs.Used.{TakesEvent};
    ghost use Rattle.world.specs.declared.entry.Entry.{Entry};
    ghost use Rattle.cell_core.specs.Answering.{can_answer};
    ghost use Rattle.job_journal.specs.Ended.{IsWhole};
    ghost use Rattle.job_journal.specs.Plot.{Plot, facts};
    ghost use Rattle.run_journal.specs.Agreement.{IsOther};
    ghost use Rattle.run_journal.specs.Requests.{requests};
    ghost use Rattle.job_run.specs.Standing.{DoesAct, IsToSave, KnowsBy, StandsToOrEnds};
    ghost use Rattle.job_run.specs.Standing.{PassesBy, Stands as ExecutionStands, StandsOrEnds};
    ghost use Rattle.job_run.specs.Standing.{StandsTo, StaysStill, is_idle, is_passing};
    ghost use Rattle.std.specs.Prelude.{List as Bytes, [], Some, slice_get, codes, not, ◌||◌};
    ghost use Rattle.world.specs.declared.chan.Chan.TheVariants as channel;
    ghost use Rattle.zmtp_wire.specs.Meaning.{is_shaken};
    ghost use Rattle.nb_model.specs.declared.cell.Cell.{Cell};
    ghost use Rattle.jcontent.specs.Requests.{empty};
    ghost use Rattle.kernel_lines.specs.Happened.{History, came_in};
    ghost use Rattle.kernel_lines.specs.Line.{StandsFor, role_of};
    ghost use Rattle.kernel_lines.specs.Lines.{line_on};
    ghost use Rattle.std.specs.Prelude.{None};
    ghost use Rattle.nb_model.specs.declared.notebook.Notebook.{Notebook};
    ghost use Rattle.nb_text.specs.Notebooks.{text_of};
    ghost use Rattle.said_lines.specs.Between.{SayFailed};
    ghost use Rattle.out_fold.specs.declared.used.Used.{Used};
    ghost use Rattle.progress_save.specs.Prefix.{prefix};
    ghost use Rattle.progress_save.specs.Saved.{line_of};
    ghost use Rattle.job_notebook.specs.State.{Keeps, merge_of, notebook_of};
    ghost use Rattle.job_saves.specs.Saving.{OnTried, SavesOrEnds, SavesOrEndsSilently};
    ghost use Rattle.job_end.specs.declared.end.End.TheVariants as ending;
    ghost use Rattle.job_run.specs.Stopping.{IsStopBy, cell_in, name_noted};
    ghost use Rattle.job_run.specs.Said.{IsRequestOf, QueuesNext, SendsCell, ShutsDown, asks_for};

    /// Tells the core of one event, and does what it answers. `Err` where the job ends so.
    pub(crate) fn step<W: Disk + Say>(&mut self, w: &mut W, e: Event) -> Result<(), End>
        requires holds { Holds self.old }
        requires calm { IsCalm self.old }
        requires other { is_saved e ≡ false }
        requires small { IsSmall e }
        requires may { MayCome self.old.core self.old.clock (is_some self.old.broken) e }
        ensures goes { Proceeds W.journal W.counts w.old w.new self.old self.new Nothing result }
        ensures saves { OnlySaves W.journal w.old w.new self.old.book }
        ensures asks { OnOk result (AsksOnce self.old self.new) }
        // Where the execution stood for the journal, it stands for the journal again, by an event
        // of the clock, a loss, or a look while no stream is broken. An event of the clock and a
        // loss bring no call.
        ensures stands { IsOther e → is_broken e ≡ false → (p : Plot) (number : ℕ) →
            Told (W.journal w.old) (W.journal w.new) (λ before after.
            ExecutionStands p number self.old before →
            (is_looked e ≡ true → IsWhole (facts p) before) →
            StandsOrEnds p number self.new result after) }
        ensures passes { is_passing e ≡ true → (p : Plot) (number : ℕ) →
            Told (W.journal w.old) (W.journal w.new) (PassesBy p number self.old self.new result) }
        ensures knows { is_passing e ≡ true → KnowsBy e self.old self.new result }
    {
        let step = self.tell(e);
        self.act(w, step.act)
    }

    /// Tells the core of one event, and answers what is to be done.
    pub(crate) fn tell(&mut self, e: Event) -> Step
        requires holds { Holds self.old }
        requires calm { IsCalm self.old }
        requires other { is_saved e ≡ false }
        requires small { IsSmall e }
        requires may { MayCome self.old.core self.old.clock (is_some self.old.broken) e }
        ensures holds { Holds self.new }
        ensures todo { IsToDo self.new result.act }
        ensures request { self.new.request ≡ self.old.request }
        ensures book { self.new.book ≡ self.old.book }
        ensures session { self.new.session ≡ self.old.session }
        ensures terms { self.new.terms ≡ self.old.terms }
        ensures task { task_of self.new.core ≡ task_of self.old.core }
        ensures counts { (n : OutputAt) → IsCounted self.old Act.Nothing n →
            IsCounted self.new result.act n }
        ensures rest { self.new ≡ record self.old { core = self.new.core } }
        ensures takes { TakesEvent e result self.old.core self.new.core }
    {
        self.core.step(e)
    }

    /// Does an act. A save that is acknowledged is told to the core, whose next act follows.
    pub(crate) fn act<W: Disk + Say>(&mut self, w: &mut W, act: Act) -> Result<(), End>
        requires holds { Holds self.old }
        requires todo { IsToDo self.old act }
        ensures goes { Proceeds W.journal W.counts w.old w.new self.old self.new act result }
        ensures saves { OnlySaves W.journal w.old w.new self.old.book }
        ensures asks { OnOk result (AsksOnce self.old self.new) }
        ensures clock { self.new.clock ≡ self.old.clock }
        // Where what the act is for is due by the journal, the execution stands for the journal
        // again. Behind a save a further request was sent, or none was yet.
        ensures stands { (p : Plot) (number : ℕ) → Told (W.journal w.old) (W.journal w.new)
            (DoesAct p number self.old act self.new result) }
        // Where no request stands by the journal then, none was sent: so whatever the clock is.
        ensures unsent { (p : Plot) (number : ℕ) → Told (W.journal w.old) (W.journal w.new)
            (λ before after. requests (facts p) after ≡ [] → (clock : ℕ) →
            StandsTo p number (record self.old { clock = clock }) act before →
            StandsOrEnds p number (record self.new { clock = clock }) result after) }
        ensures still { is_idle act ≡ true → StaysStill self.old self.new result ×
            (W.journal w.new ≡ W.journal w.old) }
        ensures broken { OnOk result (KeepsBroken self.old.core self.new.core) }
    {
        let mut act = act;
        while let Act::Save(settled) = act {
            act = self.save_on(w, settled)?;
        }
        self.perform(act)
    }

    /// Saves, tells the core that the save is acknowledged, and answers what is to be done next.
    fn save_on<W: Disk + Say>(&mut self, w: &mut W, settled: u32) -> Result<Act, End>
        requires holds { Holds self.old }
        requires todo { IsToDo self.old (Act.Save settled) }
        ensures holds { Holds self.new }
        ensures todo { IfOk result (IsToDo self.new) }
        ensures fewer { IfOk result (λ _.
            saves_ahead self.new.core < saves_ahead self.old.core) }
        ensures course { GoesOn W.journal W.counts w.old w.new self.old.book self.new.book
            (stays_open result) }
        ensures calls { CallsOwn W.journal W.counts w.old w.new self.old.book self.new.book }
        ensures saves { OnlySaves W.journal w.old w.new self.old.book }
        ensures reads { ReadsNoClock W.journal w.old w.new }
        ensures task { task_of self.new.core ≡ task_of self.old.core }
        ensures terms { self.new.terms ≡ self.old.terms }
        ensures own { IfErr result (EndsBy (task_of self.new.core)) }
        ensures counts { (o : Origin) → o.is_watched ≡ true →
            Stands o self.old.book true (W.journal w.old) (W.counts w.old) →
            IsCountedAt o self.old Act.Nothing (W.journal w.old) →
            CountsFor o self.new result (W.journal w.new) }
        ensures asks { self.new.session ≡ self.old.session }
        ensures sent { self.new.sent ≡ self.old.sent }
        ensures kind { IfOk result (λ act. can_answer Event.Saved act ≡ true) }
        ensures clock { self.new.clock ≡ self.old.clock }
        // Whatever the clock is.
        ensures stands { (p : Plot) (number : ℕ) → Told (W.journal w.old) (W.journal w.new)
            (λ before after. (clock : ℕ) →
            IsToSave p number (record self.old { clock = clock }) settled before →
            StandsToOrEnds p number (record self.new { clock = clock }) result after) }
        ensures broken { OnOk result (KeepsBroken self.old.core self.new.core) }
    {
        self.save(w, settled)?;
        Ok(self.core.step(Event::Saved).act)
    }

    /// Does an act that is no save.
    fn perform(&mut self, act: Act) -> Result<(), End>
        requires holds { Holds self.old }
        requires todo { IsToDo self.old act }
        requires other { is_save act ≡ false }
        ensures holds { Holds self.new }
        ensures core { self.new.core ≡ self.old.core }
        ensures calm { OnOk result (IsCalm self.new) }
        ensures course { StaysOn self.old.book self.new.book }
        ensures calls { KeepsPart self.old.book self.new.book }
        ensures saved { stays_open result ≡ true }
        ensures task { task_of self.new.core ≡ task_of self.old.core }
        ensures terms { self.new.terms ≡ self.old.terms }
        ensures own { IfErr result (EndsBy (task_of self.new.core)) }
        ensures counts { (n : OutputAt) → IsCounted self.old act n → IsCountedOn self.new result n }
        ensures asks { OnOk result (Asks (requests_of act) self.old self.new) }
        ensures clock { self.new.clock ≡ self.old.clock }
        ensures stands { (p : Plot) (number : ℕ) (now : Bytes Entry) →
            DoesAct p number self.old act self.new result now now }
        ensures unsent { (p : Plot) (number clock : ℕ) (now : Bytes Entry) →
            requests (facts p) now ≡ [] →
            StandsTo p number (record self.old { clock = clock }) act now →
            StandsOrEnds p number (record self.new { clock = clock }) result now }
        ensures still { is_idle act ≡ true → StaysStill self.old self.new result }
    {
        match act {
            Act::Send(cell) => self.send(cell),
            Act::Interrupt => Ok(self.interrupt()?),
            Act::Stop(why) => Err(self.end_by(why)?),
            Act::Save(_) => Ok(()),
            Act::Nothing => Ok(()),
            Act::Start => Ok(()),
            Act::Look => Ok(()),
        }
    }

    /// Settles so many cells and saves the notebook.
    pub(crate) fn save<W: Disk + Say>(&mut self, w: &mut W, settled: u32) -> Result<(), End>
        requires holds { Holds self.old }
        requires above { settled_of self.old.book ≤ settled }
        requires below { settled ≤ next_of self.old.core }
        requires within { settled ≤ (task_of self.old.core).cells }
        ensures holds { Holds self.new }
        ensures core { self.new.core ≡ self.old.core }
        ensures begun { begun_of self.new.book ≡ begun_of self.old.book }
        ensures settled { settled_of self.new.book ≤ settled }
        ensures course { GoesOn W.journal W.counts w.old w.new self.old.book self.new.book
            (stays_open result) }
        ensures calls { CallsOwn W.journal W.counts w.old w.new self.old.book self.new.book }
        ensures saves { OnlySaves W.journal w.old w.new self.old.book }
        ensures task { task_of self.new.core ≡ task_of self.old.core }
        ensures own { IfErr result (EndsBy (task_of self.new.core)) }
        ensures told { KeepsTold self.old self.new }
        ensures kind { IfErr result IsEndOfSave }
        ensures output { output_of self.new.book ≡ output_of self.old.book }
        ensures acked { OnOk result (Told (W.journal w.old) (W.journal w.new) (λ before after.
            save_count (output_of self.old.book) after ≡
            save_count (output_of self.old.book) before + 1)) }
        ensures left { OnOk result ((o : Origin) → o.is_watched ≡ true →
            Stands o self.old.book true (W.journal w.old) (W.counts w.old) →
            IfSome (W.journal w.new) (λ past.
            IsLeft (output_at o past) settled (stopping_of self.old.core))) }
        ensures asks { self.new.session ≡ self.old.session }
        // What it saves: that prefix of the notebook, for just what was used. What it adds to the
        // journal, by its answer.
        ensures prefix { OnTried result ((first : Notebook) (us : Bytes Used) →
            Keeps self.old.book first us → notebook_of self.new.book ≡
            prefix (merge_of self.old.book) us settled (stopping_of self.old.core) first) }
        ensures keeps { OnOk result (stopping_of self.old.core ≡ None → (first : Notebook)
            (us : Bytes Used) → Keeps self.old.book first us → Keeps self.new.book first us) }
        ensures entries { Told (W.journal w.old) (W.journal w.new)
            (SavesOrEnds (output_of self.old.book) (text_of (notebook_of self.new.book))
            (line_of (output_of self.old.book) settled (notebook_of self.new.book))
            (SayFailed W.counts w.new) result) }
        ensures silent { SayFailed W.counts w.old → Told (W.journal w.old) (W.journal w.new)
            (SavesOrEndsSilently (output_of self.old.book) (text_of (notebook_of self.new.book))
            result) }
        ensures merge { merge_of self.new.book ≡ merge_of self.old.book }
        ensures rest { self.new ≡ record self.old { book = self.new.book } }
    {
        let stop = self.core.failing();
        save_next(w, &mut self.book, settled, stop)
    }

    // Queues the request of a cell, which stands from here on.
    fn send(&mut self, cell: u32) -> Result<(), End>
        requires holds { Holds self.old }
        requires below { cell < (task_of self.old.core).cells }
        requires above { begun_of self.old.book ≤ cell }
        requires next { next_of self.old.core ≡ cell + 1 }
        ensures holds { Holds self.new }
        ensures core { self.new.core ≡ self.old.core }
        ensures course { StaysOn self.old.book self.new.book }
        ensures calls { KeepsPart self.old.book self.new.book }
        ensures saved { stays_open result ≡ true }
        ensures task { task_of self.new.core ≡ task_of self.old.core }
        ensures terms { self.new.terms ≡ self.old.terms }
        ensures own { IfErr result (EndsBy (task_of self.new.core)) }
        ensures counts { (n : OutputAt) → IsCounted self.old Act.Nothing n →
            IsCountedOn self.new result n }
        ensures starved { IfErr result (λ e. e ≡ ending.NoMemory) }
        ensures asks { OnOk result (Asks 1 self.old self.new) }
        ensures clock { self.new.clock ≡ self.old.clock }
        ensures sends { OnOk result ((c : Cell) →
            slice_get (notebook_of self.old.book).cells cell ≡ Some c →
            SendsCell cell c self.old self.new) }
    {
        laws::messages_stay_on_course();
        let request = self.request_of(cell)?;
        self.book.start(cell);
        self.sent += 1;
        self.request = Some(request);
        Ok(())
    }

    fn request_of(&mut self, cell: u32) -> Result<Request, NoMemory>
        requires holds { Holds self.old }
        requires below { cell < (task_of self.old.core).cells }
        ensures holds { Holds self.new }
        ensures core { self.new.core ≡ self.old.core }
        ensures book { self.new.book ≡ self.old.book }
        ensures told { KeepsTold self.old self.new }
        ensures asks { OnOk result (Asks 1 self.old self.new) }
        ensures said { IsSaid self.old self.new }
        ensures queues { OnOk result ((c : Cell) →
            slice_get (notebook_of self.old.book).cells cell ≡ Some c →
            QueuesNext channel.Shell (codes "execute_request")
            (asks_for self.old.terms c) self.old self.new) }
        ensures request { IfOk result (λ r. (c : Cell) →
            slice_get (notebook_of self.old.book).cells cell ≡ Some c →
            IsRequestOf cell c self.old r) }
    {
        let source = &self.book.notebook().cells.as_slice()[cell as usize];
        let text = code(self.alloc, source)?;
        let is_tagged = tagged(source, RAISES);
        let stops = self.stops_kernel(is_tagged);
        let content = execute_content(self.alloc, &text, stops)?;
        self.say(Chan::Shell, "execute_request", content)?;
        let id = self.session.id(self.session.made())?;
        Ok(Request {
            id,
            cell,
            is_tagged,
            error: None,
        })
    }

    // Whether the kernel is to drop what is queued behind a cell that raises.
    fn stops_kernel(&self, is_tagged: bool) -> bool
        ensures { result ≡ not (self.now.terms.all_errors || is_tagged) }
    {
        !(self.terms.all_errors || is_tagged)
    }

    // Queues a request of this kind on the channel.
    pub(crate) fn say(&mut self, chan: Chan, kind: &str, content: Json) -> Result<(), NoMemory>
        requires { self.old.clock < 2 ^ 47 }
        ensures said { IsSaid self.old self.new }
        ensures asks { OnOk result (Asks 1 self.old self.new) }
        ensures once { AsksOnce self.old self.new }
        ensures queues { OnOk result (QueuesNext chan kind.now content self.old self.new) }
    {
        let parts = self.session.request(self.clock, kind, content)?;
        self.lines.send(chan, &parts)
    }

    // Asks the kernel on control to interrupt what it executes.
    fn interrupt(&mut self) -> Result<(), NoMemory>
        requires { self.old.clock < 2 ^ 47 }
        ensures said { IsSaid self.old self.new }
        ensures asks { OnOk result (Asks 1 self.old self.new) }
        ensures queues { OnOk result (QueuesNext channel.Control (codes "interrupt_request") empty
            self.old self.new) }
    {
        let content = empty_content(self.alloc);
        self.say(Chan::Control, "interrupt_request", content)
    }

    /// Asks the kernel to shut down, where that can be said.
    pub(crate) fn shut_down(&mut self) -> Result<(), NoMemory>
        requires { self.old.clock < 2 ^ 47 }
        ensures said { IsSaid self.old self.new }
        ensures once { AsksOnce self.old self.new }
        ensures queues { OnOk result ((h : History) (out : Bytes ℕ) →
            StandsFor (line_on self.old.lines channel.Control) h out →
            ShutsDown (is_shaken (role_of (line_on self.old.lines channel.Control)) (came_in h))
            self.old self.new) }
    {
        if !self.lines.of(Chan::Control).is_shaken() {
            return Ok(());
        }
        let content = shutdown_content(self.alloc)?;
        self.say(Chan::Control, "shutdown_request", content)
    }

    // How the job ends for this cause.
    fn end_by(&self, why: Why) -> Result<End, NoMemory>
        requires stops { StopsFor (task_of self.now.core) why }
        requires named { why ≡ cause.BadPeer → is_some self.now.broken ≡ true }
        ensures saved { IfOk result (λ e. keeps_open e ≡ true) }
        ensures own { IfOk result (EndsBy (task_of self.now.core)) }
        ensures counts { (n : OutputAt) → StopsAfter n (task_of self.now.core) why →
            IfOk result (EndsAfter n (task_of self.now.core)) }
        // It names the cell of the request that stands, the exception that is noted with it, or the
        // stream that broke.
        ensures names { IfOk result (IsStopBy why self.now.request self.now.broken) }
    {
        match why {
            Why::Done => Ok(End::Done),
            Why::CellError => self.cell_error(),
            Why::NotReady => Ok(End::NotReady),
            Why::KernelLost => Ok(End::KernelLost),
            Why::TimedOut => Ok(End::TimedOut { cell: self.cell() }),
            Why::NoIdle => Ok(End::NoIdle { cell: self.cell() }),
            Why::BadPeer => Ok(self.peer_fault()),
        }
    }

    // The cell of the request that stands.
    fn cell(&self) -> u32
        ensures { result ≡ cell_in self.now.request }
    {
        match &self.request {
            Some(request) => request.cell,
            None => 0,
        }
    }

    fn cell_error(&self) -> Result<End, NoMemory>
        requires { StopsFor (task_of self.now.core) cause.CellError }
        ensures saved { IfOk result (λ e. keeps_open e ≡ true) }
        ensures own { IfOk result (EndsBy (task_of self.now.core)) }
        ensures counts { (n : OutputAt) → StopsAfter n (task_of self.now.core) cause.CellError →
            IfOk result (EndsAfter n (task_of self.now.core)) }
        ensures names { IfOk result
            (IsStopBy cause.CellError self.now.request self.now.broken) }
    {
        let name = self.error_name()?;
        Ok(End::CellError {
            cell: self.cell(),
            name,
        })
    }

    fn peer_fault(&self) -> End
        requires stops { StopsFor (task_of self.now.core) cause.BadPeer }
        requires named { is_some self.now.broken ≡ true }
        ensures saved { keeps_open result ≡ true }
        ensures own { EndsBy (task_of self.now.core) result }
        ensures counts { (n : OutputAt) → StopsAfter n (task_of self.now.core) cause.BadPeer →
            EndsAfter n (task_of self.now.core) result }
        ensures names { IsStopBy cause.BadPeer self.now.request self.now.broken result }
    {
        let (chan, fault) = self.broken.unwrap();
        End::BadPeer { chan, fault }
    }

    // The exception that is noted with it.
    fn error_name(&self) -> Result<Text, NoMemory>
        ensures { IfOk result (λ name. name ≡ name_noted self.now.request) }
    {
        match &self.request {
            Some(request) => match &request.error {
                Some(name) => name.copy(self.alloc),
                None => Ok(Text::new(self.alloc)),
            },
            None => Ok(Text::new(self.alloc)),
        }
    }
}
