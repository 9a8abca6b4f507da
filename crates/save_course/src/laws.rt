//! Laws of the definitions, each the contract of a function without a body.
ghost use Rattle.std.specs.Prelude.{◌≡◌, ◌≤◌, ◌<◌, ℕ, List, Bool, true, Result};
ghost use Rattle.nb_model.specs.declared.notebook.Notebook.{Notebook};
ghost use Rattle.out_fold.specs.Fit.{AreRead};
ghost use Rattle.world.specs.declared.entry.Entry.{Entry};
ghost use Rattle.world.specs.Disk.{place, untouched_place};
ghost use Rattle.world.specs.Moments.{Since};
ghost use Rattle.world.specs.Parts.{IsNotOf, OnDisk};
ghost use Rattle.save_disk.specs.Places.{save_count};
ghost use Rattle.progress_save.specs.declared.progress_fault.ProgressFault.{ProgressFault};
ghost use Rattle.progress_save.specs.Saved.{SavesAs};
ghost use Rattle.save_course.specs.Course.{PrefixSave, prefix_text, Course, IsSavedSo};
ghost use Rattle.save_course.specs.Course.{IsRested, open_after, settled_after};
ghost use Rattle.world.specs.Touched.{Spares};

/// Over a course of saves of an output that nothing had touched, a crash leaves there at each
/// moment what was there before, or the text that was acknowledged last, or the next one. Each text
/// is that of a prefix of the notebook, and no prefix settles fewer cells than one before it.
pub fn courses_are_safe()
    ensures { (output : List ℕ) (merge : Bool) (first : Notebook) (from settled : ℕ)
        (is_open : Bool) (before after : List Entry) →
        place before output ≡ untouched_place → save_count output before ≡ 0 →
        Course output merge first from before is_open settled after →
        IsSavedSo output merge first from is_open before after }
{}

/// One course behind another is a course.
pub fn courses_join()
    ensures { (output : List ℕ) (merge : Bool) (first : Notebook) (from settled later : ℕ)
        (is_open : Bool) (before past after : List Entry) →
        Course output merge first from before true settled past →
        Course output merge first settled past is_open later after →
        Course output merge first from before is_open later after }
{}

/// A save of a prefix goes on with a course, and so do calls of other parts of the world.
pub fn courses_go_on()
    ensures saved { (output line : List ℕ) (merge : Bool) (first : Notebook) (from settled : ℕ)
        (says : ℕ) (result : Result (Unit {0}) ProgressFault) (s : PrefixSave)
        (before past after : List Entry) →
        Course output merge first from before true settled past → settled ≤ s.settled →
        AreRead s.us →
        SavesAs output (prefix_text merge first s) line (0 < says) result past after →
        Course output merge first from before (open_after result)
        (settled_after result settled s.settled) after }
    ensures others { (output : List ℕ) (merge : Bool) (first : Notebook) (from settled : ℕ)
        (is_open : Bool) (before past after : List Entry) →
        Course output merge first from before is_open settled past →
        Since (IsNotOf OnDisk) past after →
        Course output merge first from before is_open settled after }
{}

/// While no rename onto the output waits for the sync of its folder, calls that don't touch the
/// output go on with a course, whichever folders they sync. None waits after them, nor after a save.
pub fn courses_pass()
    ensures spared { (output : List ℕ) (merge : Bool) (first : Notebook) (from settled : ℕ)
        (is_open : Bool) (before past after : List Entry) →
        Course output merge first from before is_open settled past → IsRested output past →
        Since (Spares output) past after →
        Course output merge first from before is_open settled after }
    ensures rested { (output : List ℕ) (past after : List Entry) → IsRested output past →
        Since (Spares output) past after → IsRested output after }
    ensures saved { (output text line : List ℕ) (says : ℕ)
        (result : Result (Unit {0}) ProgressFault) (past after : List Entry) →
        IsRested output past → SavesAs output text line (0 < says) result past after →
        IsRested output after }
{}
