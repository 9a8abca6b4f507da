//! `JobNotebook`, the notebook of a job between two saves.
ghost use Rattle.std.specs.Prelude.{◌≡◌, ◌≤◌, length, false};
ghost use Rattle.out_fold.specs.Stands.{cells_of};
ghost use Rattle.progress_save.specs.State.{has_failed};
ghost use Rattle.job_notebook.specs.Kept.{IsKeptForSome};

use crate::forgetting::forget_changed;
use jcontent::Content;
use jtext::{NoMemory, Text};
use nb_model::Notebook;
use out_fold::Fold;
use progress_save::{Progress, ProgressFault, Step, laws, settle};
use std::alloc::Global;
use world::{Disk, Say};

/// The notebook as it was saved last, and what was used for the requests of its cells since.
#[derive(Drop)]
pub struct JobNotebook {
    alloc: Global,
    notebook: Notebook,
    settled: u32,
    is_closed: bool,
    fold: Fold,
    progress: Progress,
    ghost folded: { cells_of fold ≡ length notebook.cells },
    ghost within: { settled ≤ length notebook.cells },
    ghost unfailed: { is_closed ≡ false → has_failed progress ≡ false },
    ghost kept: { is_closed ≡ false → ∥ IsKeptForSome fold notebook settled progress ∥₁ },
}

impl JobNotebook {
    ghost use Rattle.std.specs.Prelude.{◌≡◌, ◌≤◌, ◌<◌, ◌+◌, ◌^◌, ◌↔◌, ◌∷◌, ◌++◌, ℕ, List as Plain, [], length, true, false, Err, None, IfOk, OnOk, OnErr};
    ghost use Rattle.std.specs.Option.{option_copied};
    ghost use Rattle.std.specs.Str.{bytes_eq};
    ghost use Rattle.jcontent.specs.IsRead.{IsRead};
    ghost use Rattle.nb_model.specs.declared.notebook.Notebook as whole;
    ghost use Rattle.out_fold.specs.Cells.{begin, with_message, with_reply};
    ghost use Rattle.out_fold.specs.declared.used.Used.{Used};
    ghost use Rattle.progress_save.specs.declared.progress_fault.ProgressFault.TheVariants as fault;
    ghost use Rattle.progress_save.specs.Prefix.{prefix};
    ghost use Rattle.progress_save.specs.Safe.{IsSafe, IsNext, StaysSafe};
    ghost use Rattle.progress_save.specs.Saved.{line_of, SavesAs, SavesSilently, EndsAs, IsOfSave, OnRefusal, IsSaveFault, SaveCause};
    ghost use Rattle.nb_text.specs.Notebooks.{text_of};
    ghost use Rattle.progress_save.specs.State.{has_failed};
    ghost use Rattle.said_lines.specs.Between.{SayFailed};
    ghost use Rattle.world.specs.Save.{temporary_of};
    ghost use Rattle.world.specs.Moments.{Told, Since};
    ghost use Rattle.world.specs.Touched.{Spares};
    ghost use Rattle.job_notebook.specs.State.{notebook_of, settled_of, begun_of, merge_of, output_of, is_closed, Keeps, KeepsParts, KeepsRead, IsReady, OnCall, closed_after};

    /// A notebook of which nothing was saved, and for whose cells nothing was used; `merge` joins
    /// neighbouring streams of one name. It is saved to `output`.
    pub fn new(
        alloc: Global,
        notebook: Notebook,
        merge: bool,
        output: &Text,
    ) -> Result<JobNotebook, NoMemory>
        requires { length notebook.cells < 2 ^ 32 }
        ensures keeps { IfOk result (λ b. Keeps b notebook []) }
        ensures read { IfOk result (λ b. KeepsRead b notebook) }
        ensures notebook { IfOk result (λ b. notebook_of b ≡ notebook) }
        ensures settled { IfOk result (λ b. settled_of b ≡ 0) }
        ensures begun { IfOk result (λ b. begun_of b ≡ 0) }
        ensures merge { IfOk result (λ b. merge_of b ≡ merge) }
        ensures output { IfOk result (λ b. output_of b ≡ output.now) }
        ensures open { IfOk result (λ b. is_closed b ≡ false) }
    {
        let cells = notebook.cells.len() as u32;
        let fold = Fold::new(alloc, cells, merge)?;
        let progress = Progress::new(alloc, output)?;
        laws::cells_of_prefixes();
        Ok(JobNotebook {
            alloc,
            notebook,
            settled: 0,
            is_closed: false,
            fold,
            progress,
        })
    }

    /// The notebook as it was saved last.
    pub fn notebook(&self) -> &Notebook
        ensures { result.now ≡ notebook_of self.now }
    {
        &self.notebook
    }

    /// Makes the cell the current one, with nothing used for its request. Cells begin in increasing
    /// order.
    pub fn start(&mut self, cell: u32)
        requires below { cell < length (notebook_of self.old).cells }
        requires above { begun_of self.old ≤ cell }
        ensures keeps { (first : whole.Notebook) (us : Plain Used) → Keeps self.old first us
            → Keeps self.new first (us ++ begin cell ∷ []) }
        ensures read { (first : whole.Notebook) → KeepsRead self.old first
            → KeepsRead self.new first }
        ensures begun { begun_of self.new ≡ cell + 1 }
        ensures same { KeepsParts self.old self.new }
    {
        self.fold.start(cell);
    }

    /// Takes the next message that was used for the current cell's request. Without memory nothing
    /// changes.
    pub fn take(&mut self, c: &Content, date: Option<&Text>) -> Result<(), NoMemory>
        requires { 0 < begun_of self.old }
        ensures keeps { OnOk result ((first : whole.Notebook) (us : Plain Used) (u : Used)
            → Keeps self.old first (us ++ u ∷ [])
            → Keeps self.new first (us ++ with_message u c.now (option_copied date.entry) ∷ [])) }
        ensures still { OnErr result ((first : whole.Notebook) (us : Plain Used)
            → Keeps self.old first us → Keeps self.new first us) }
        ensures read { IsRead c.now → (first : whole.Notebook) → KeepsRead self.old first
            → KeepsRead self.new first }
        ensures begun { begun_of self.new ≡ begun_of self.old }
        ensures same { KeepsParts self.old self.new }
    {
        self.fold.take(c, date)
    }

    /// Takes the date of the reply to the current cell's request. Without memory nothing changes.
    pub fn reply(&mut self, date: Option<&Text>) -> Result<(), NoMemory>
        requires { 0 < begun_of self.old }
        ensures keeps { OnOk result ((first : whole.Notebook) (us : Plain Used) (u : Used)
            → Keeps self.old first (us ++ u ∷ [])
            → Keeps self.new first (us ++ with_reply u (option_copied date.entry) ∷ [])) }
        ensures still { OnErr result ((first : whole.Notebook) (us : Plain Used)
            → Keeps self.old first us → Keeps self.new first us) }
        ensures read { (first : whole.Notebook) → KeepsRead self.old first
            → KeepsRead self.new first }
        ensures begun { begun_of self.new ≡ begun_of self.old }
        ensures same { KeepsParts self.old self.new }
    {
        self.fold.reply(date)
    }

    /// Settles the cells below `p`, of which `stop` is the one at which the run stopped, and saves
    /// the notebook. After the save of a stop, and after an error, no further save is made.
    pub fn save<W: Disk + Say>(
        &mut self,
        w: &mut W,
        p: u32,
        stop: Option<u32>,
    ) -> Result<(), ProgressFault>
        requires within { p ≤ length (notebook_of self.old).cells }
        requires above { settled_of self.old ≤ p }

        // What is saved: that prefix of the first notebook, for the messages that were used. It is
        // what is kept from here on.
        ensures prefix { OnCall result ((first : whole.Notebook) (us : Plain Used)
            → Keeps self.old first us
            → notebook_of self.new ≡ prefix (merge_of self.old) us p stop first) }
        ensures keeps { OnOk result (stop ≡ None → (first : whole.Notebook) (us : Plain Used)
            → Keeps self.old first us → Keeps self.new first us) }
        ensures read { OnOk result (stop ≡ None → (first : whole.Notebook)
            → KeepsRead self.old first → KeepsRead self.new first) }

        // Which entries it adds, by its answer: the line is said after the save that it speaks of.
        ensures entries { Told (W.journal w.old) (W.journal w.new)
            (SavesAs (output_of self.old) (text_of (notebook_of self.new))
            (line_of (output_of self.old) p (notebook_of self.new)) (SayFailed W.counts w.new)
            result) }
        ensures silent { SayFailed W.counts w.old → Told (W.journal w.old) (W.journal w.new)
            (SavesSilently (output_of self.old) (text_of (notebook_of self.new)) result) }
        ensures idle { OnRefusal result ((W.journal w.new ≡ W.journal w.old)
            × (W.counts w.new ≡ W.counts w.old)) }

        // What is known of the output: afterwards, and over many saves at every moment.
        ensures end { Told (W.journal w.old) (W.journal w.new)
            (EndsAs (output_of self.old) (text_of (notebook_of self.new)) result) }
        ensures safe { (texts : Plain (Plain ℕ)) → Told (W.journal w.old) (W.journal w.new)
            (λ before after. IsSafe (output_of self.old) texts before →
            IsNext (output_of self.old) texts (text_of (notebook_of self.new)) before →
            StaysSafe (output_of self.old) texts result before after) }

        // No other path but the temporary file's is touched, and no other part of the world.
        ensures others { (q : Plain ℕ) → bytes_eq (output_of self.old) q ≡ false →
            bytes_eq (temporary_of (output_of self.old)) q ≡ false →
            Told (W.journal w.old) (W.journal w.new) (Since (Spares q)) }
        ensures part { Told (W.journal w.old) (W.journal w.new) (Since IsOfSave) }

        // A save fails only where a call of the disk failed; it is refused exactly where it is
        // closed.
        ensures cause { SaveCause (W.counts w.old) (W.counts w.new) (IsSaveFault result) }
        ensures closed { (result ≡ Err fault.Closed) ↔ (is_closed self.old ≡ true) }
        ensures after { is_closed self.new ≡ closed_after result stop }

        // Once the disk was called so many cells are settled, and no more before.
        ensures settled { OnCall result (settled_of self.new ≡ p) }
        ensures bounded { settled_of self.new ≤ p }
        ensures begun { begun_of self.new ≡ begun_of self.old }
        ensures merge { merge_of self.new ≡ merge_of self.old }
        ensures output { output_of self.new ≡ output_of self.old }
        ensures cells { length (notebook_of self.new).cells ≡ length (notebook_of self.old).cells }
    {
        if self.is_closed {
            return Err(ProgressFault::Closed);
        }
        laws::kept_texts_fit();
        self.settle(p, stop)?;
        let saved = self.progress.save_prefix(w, &self.notebook, p);
        self.is_closed = JobNotebook::closes(&saved, stop);
        saved
    }

    /// Makes the notebook that prefix. It is closed until that is saved.
    fn settle(&mut self, p: u32, stop: Option<u32>) -> Result<(), NoMemory>
        requires open { is_closed self.old ≡ false }
        requires within { p ≤ length (notebook_of self.old).cells }
        requires above { settled_of self.old ≤ p }
        ensures ready { OnOk result ((first : whole.Notebook) (us : Plain Used)
            → Keeps self.old first us → IsReady self.old self.new p stop first us) }
        ensures settled { OnOk result (settled_of self.new ≡ p) }
        ensures bounded { settled_of self.new ≤ p }
        ensures closed { is_closed self.new ≡ true }
        ensures unfailed { has_failed self.new.progress ≡ false }
        ensures begun { begun_of self.new ≡ begun_of self.old }
        ensures merge { merge_of self.new ≡ merge_of self.old }
        ensures output { output_of self.new ≡ output_of self.old }
        ensures cells { length (notebook_of self.new).cells ≡ length (notebook_of self.old).cells }
    {
        laws::cells_of_prefixes();
        laws::untouched_cells_stay();
        laws::prefixes_settle_again();
        laws::kept_texts_fit();
        self.is_closed = true;
        let touched = self.fold.touched().as_slice();
        forget_changed(&mut self.progress, touched, self.settled, p, stop);
        let step = Step {
            from: self.settled,
            to: p,
            stop,
        };
        settle(self.alloc, &mut self.notebook, &self.fold, step)?;
        self.fold.rest();
        self.settled = p;
        Ok(())
    }
    /// Whether no save follows one with this answer.
    fn closes(saved: &Result<(), ProgressFault>, stop: Option<u32>) -> bool
        ensures { result ≡ closed_after saved.now stop }
    {
        saved.is_err() || stop.is_some()
    }
}
