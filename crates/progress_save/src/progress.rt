//! `Progress`, the saves of one output.
ghost use Rattle.std.specs.Prelude.{◌≡◌, ◌<◌, length, IsErr};
ghost use Rattle.world.specs.Told.{Between};
ghost use Rattle.said_lines.specs.Between.{SayFailed};
ghost use Rattle.save_disk.specs.Entries.{SaveOf};
ghost use Rattle.progress_save.specs.Saved.{SaveCause, SavesAndSays};

use crate::ProgressFault;
use crate::kept_texts::KeptTexts;
use jtext::{NoMemory, Text};
use nb_model::Notebook;
use said_lines::{saved_line, say};
use save_disk::{SaveFault, SavePath, save};
use std::alloc::Global;
use world::{Disk, Say};

/// The saves of one output. It keeps the texts of cells from one save to the next, and saves no
/// more once a save has failed.
#[derive(Drop)]
pub struct Progress {
    alloc: Global,
    path: SavePath,
    output: Text,
    kept: KeptTexts,
    has_failed: bool,
    ghost goes: { path ≡ output },
}

impl Progress {
    ghost use Rattle.std.specs.Prelude.{◌≡◌, ◌≢◌, ◌↔◌, ℕ, List as Plain, false, true, None, Err, IfOk};
    ghost use Rattle.std.specs.Str.{bytes_eq};
    ghost use Rattle.said_lines.specs.Between.{SayFailed};
    ghost use Rattle.save_disk.specs.Places.{SaveMoment};
    ghost use Rattle.world.specs.Save.{temporary_of};
    ghost use Rattle.world.specs.Moments.{Told, Since};
    ghost use Rattle.world.specs.Touched.{Spares};
    ghost use Rattle.progress_save.specs.declared.progress_fault.ProgressFault.TheVariants as fault;
    ghost use Rattle.progress_save.specs.Safe.{IsSafe, IsNext, StaysSafe};
    ghost use Rattle.progress_save.specs.Saved.{line_of, SavesAs, SavesSilently, EndsAs, IsOfSave, OnRefusal, IsSaveFault, SaveCause};
    ghost use Rattle.nb_text.specs.Notebooks.{text_of};
    ghost use Rattle.progress_save.specs.State.{output_of, has_failed, kept_text, Fits, KeepsSame, KeepsAfter, failed_after};

    /// The saves of this output, of which none was made. No text is kept.
    pub fn new(alloc: Global, output: &Text) -> Result<Progress, NoMemory>
        ensures output { IfOk result (λ p. output_of p ≡ output.now) }
        ensures open { IfOk result (λ p. has_failed p ≡ false) }
        ensures kept { IfOk result (λ p. (i : ℕ) → kept_text p i ≡ None) }
    {
        Ok(Progress {
            alloc,
            path: SavePath::of(alloc, output)?,
            output: output.copy(alloc)?,
            kept: KeptTexts::new(alloc),
            has_failed: false,
        })
    }

    /// Forgets the kept text of this cell, counted from 0, so that the next save makes it anew. It
    /// takes no memory.
    pub fn mark(&mut self, cell: u32)
        ensures gone { kept_text self.new cell ≡ None }
        ensures others { (i : ℕ) → i ≢ cell → kept_text self.new i ≡ kept_text self.old i }
        ensures output { output_of self.new ≡ output_of self.old }
        ensures failed { has_failed self.new ≡ has_failed self.old }
    {
        self.kept.forget(cell as usize);
    }

    /// Saves the notebook's text, of whose cells so many are settled, and says so once the save is
    /// acknowledged. The texts of cells that aren't kept are made, and kept. The text, the line and
    /// the paths are there before the disk is called. After `Save` no further save is made.
    pub fn save_prefix<W: Disk + Say>(
        &mut self,
        w: &mut W,
        n: &Notebook,
        p: u32,
    ) -> Result<(), ProgressFault>
        requires { Fits self.old n.now.cells }

        // Which entries it adds, by its answer: the line is said after the save that it speaks of.
        ensures entries { Told (W.journal w.old) (W.journal w.new)
            (SavesAs (output_of self.old) (text_of n.now) (line_of (output_of self.old) p n.now)
            (SayFailed W.counts w.new) result) }
        ensures silent { SayFailed W.counts w.old → Told (W.journal w.old) (W.journal w.new)
            (SavesSilently (output_of self.old) (text_of n.now) result) }
        ensures idle { OnRefusal result ((W.journal w.new ≡ W.journal w.old)
            × (W.counts w.new ≡ W.counts w.old)) }

        // What is known of the output, afterwards and at every moment.
        ensures end { Told (W.journal w.old) (W.journal w.new)
            (EndsAs (output_of self.old) (text_of n.now) result) }
        ensures any_moment { Told (W.journal w.old) (W.journal w.new) (λ before.
            Since (SaveMoment (output_of self.old) (text_of n.now) before) before) }

        // Over many saves: the output has the text that was acknowledged last, or the next one.
        ensures safe { (texts : Plain (Plain ℕ)) → Told (W.journal w.old) (W.journal w.new)
            (λ before after. IsSafe (output_of self.old) texts before →
            IsNext (output_of self.old) texts (text_of n.now) before →
            StaysSafe (output_of self.old) texts result before after) }

        // No other path but the temporary file's is touched, and no other part of the world.
        ensures others { (q : Plain ℕ) → bytes_eq (output_of self.old) q ≡ false →
            bytes_eq (temporary_of (output_of self.old)) q ≡ false →
            Told (W.journal w.old) (W.journal w.new) (Since (Spares q)) }
        ensures part { Told (W.journal w.old) (W.journal w.new) (Since IsOfSave) }

        // A save fails only where a call of the disk failed, and is refused exactly after that.
        ensures cause { SaveCause (W.counts w.old) (W.counts w.new) (IsSaveFault result) }
        ensures closed { (result ≡ Err fault.Closed) ↔ (has_failed self.old ≡ true) }
        ensures failed { has_failed self.new ≡ failed_after result (has_failed self.old) }
        ensures kept { KeepsAfter result n.now.cells self.old self.new }
        ensures output { output_of self.new ≡ output_of self.old }
    {
        self.replace(w, n, p)
    }

    /// The same, by its entries.
    fn replace<W: Disk + Say>(
        &mut self,
        w: &mut W,
        n: &Notebook,
        p: u32,
    ) -> Result<(), ProgressFault>
        requires { Fits self.old n.now.cells }
        ensures entries { Told (W.journal w.old) (W.journal w.new)
            (SavesAs (output_of self.old) (text_of n.now) (line_of (output_of self.old) p n.now)
            (SayFailed W.counts w.new) result) }
        ensures silent { SayFailed W.counts w.old → Told (W.journal w.old) (W.journal w.new)
            (SavesSilently (output_of self.old) (text_of n.now) result) }
        ensures idle { OnRefusal result ((W.journal w.new ≡ W.journal w.old)
            × (W.counts w.new ≡ W.counts w.old)) }
        ensures cause { SaveCause (W.counts w.old) (W.counts w.new) (IsSaveFault result) }
        ensures closed { (result ≡ Err fault.Closed) ↔ (has_failed self.old ≡ true) }
        ensures failed { has_failed self.new ≡ failed_after result (has_failed self.old) }
        ensures kept { KeepsAfter result n.now.cells self.old self.new }
        ensures output { output_of self.new ≡ output_of self.old }
    {
        if self.has_failed {
            return Err(ProgressFault::Closed);
        }
        let text = self.kept.notebook_text(self.alloc, n)?;
        let line = saved_line(self.alloc, self.output.as_str(), p as usize, n.cells.len())?;
        self.kept.keep_all();
        match save_and_say(w, &self.path, text.bytes(), line.bytes()) {
            Ok(()) => Ok(()),
            Err(fault) => {
                self.has_failed = true;
                Err(ProgressFault::Save(fault))
            }
        }
    }
}

/// Saves the text, and says the line once that is acknowledged.
fn save_and_say<W: Disk + Say>(
    w: &mut W,
    path: &SavePath,
    text: &[u8],
    line: &[u8],
) -> Result<(), SaveFault>
    requires { 0 < length text.now }
    ensures entries { Between W.journal w.old w.new
        (SavesAndSays path.now text.now line.now (SayFailed W.counts w.new) result) }
    ensures silent { SayFailed W.counts w.old →
        Between W.journal w.old w.new (SaveOf path.now text.now result) }
    ensures cause { SaveCause (W.counts w.old) (W.counts w.new) (IsErr result) }
{
    save(w, path, text)?;
    say(w, line);
    Ok(())
}
