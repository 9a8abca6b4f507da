//! Which saves were made, entry by entry and save by save.
ghost use Rattle.std.specs.Prelude.{◌≡◌, ◌<◌, ◌+◌, ℕ, List, [], ◌∷◌, false, Option, Some, None};
ghost use Rattle.std.specs.Prelude.{length, map, slice_get, take};
ghost use Rattle.world.specs.declared.entry.Entry.{Entry};
ghost use Rattle.world.specs.Acked.{renames};
ghost use Rattle.world.specs.Save.{temporary_of};
ghost use Rattle.save_disk.specs.declared.save_fault.SaveFault.TheVariants as fault;
ghost use Rattle.save_disk.specs.Entries.{SaveOf};
ghost use Rattle.cell_core.specs.declared.event.Event.{Event};
ghost use Rattle.cell_core.specs.declared.why.Why.{Why};
ghost use Rattle.cell_core.specs.Saves as core;
ghost use Rattle.run_journal.specs.Job.{Job};
ghost use Rattle.run_journal.specs.Requests.{Request, requests};
ghost use Rattle.run_journal.specs.Saves.{Save, renamed_texts, run_saves};
ghost use Rattle.run_journal.specs.Agreement.{Agrees};
ghost use Rattle.run_journal.specs.Grow.{GoOn};
ghost use Rattle.job_journal.specs.Made.{HasMade, passing_saves};
ghost use Rattle.progress_save.specs.Saved.{done, failure};

/// Before any rename onto the output no save was made, and an entry that renames nothing onto it
/// makes none.
pub fn entries_make_no_save()
    ensures first { (j : Job) (due : List Save) (now : List Entry) → renamed_texts j now ≡ [] →
        HasMade j due 0 now }
    ensures quiet { (j : Job) (due : List Save) (n : ℕ) (entry : Entry) (past : List Entry) →
        renames (temporary_of j.output) j.output entry ≡ false → HasMade j due n past →
        HasMade j due n (entry ∷ past) }
{}

/// The entries of a save that is done, or of which only the sync of the folder failed, make the
/// next save that is due.
pub fn the_next_save_is_made()
    ensures done { (j : Job) (due : List Save) (n : ℕ) (save : Save) (past now : List Entry) →
        slice_get due n ≡ Some save → SaveOf j.output save.text done past now →
        HasMade j due n past → HasMade j due (n + 1) now }
    ensures unsynced { (j : Job) (due : List Save) (n : ℕ) (save : Save)
        (past now : List Entry) → slice_get due n ≡ Some save →
        SaveOf j.output save.text (failure fault.DirSync) past now → HasMade j due n past →
        HasMade j due (n + 1) now }
{}

/// What was made stays the first of what is due, however the requests go on and whatever stops the
/// job. While nothing stops the core, only the saves of passed requests are due.
pub fn saves_go_on()
    ensures passing { (j : Job) (n : ℕ) (rs ss : List Request) (now : List Entry) → GoOn rs ss →
        HasMade j (passing_saves j rs) n now → HasMade j (passing_saves j ss) n now
        × ((cause : Option Why) → HasMade j (run_saves j ss cause) n now) }
    ensures running { (j : Job) (told : List Event) (past : List Entry) → Agrees j told past →
        0 < length j.task.plan → core.why j.task told ≡ None →
        run_saves j (requests j past) None ≡ passing_saves j (requests j past) }
{}

/// What was renamed onto the output is the texts of the first saves that are due.
pub fn renamed_texts_are_due()
    ensures { (j : Job) (due : List Save) (n : ℕ) (now : List Entry) → HasMade j due n now →
        renamed_texts j now ≡ map (λ (save : Save). Some save.text) (take n due) }
{}
