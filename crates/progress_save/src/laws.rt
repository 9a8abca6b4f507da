//! Laws of prefixes, of the texts that are kept of their cells, and of what a crash leaves over
//! many saves. The functions change nothing: their contracts are the laws.
ghost use Rattle.std.specs.Prelude.{◌≡◌, ◌⊎◌, ℕ, ◌<◌, ◌≤◌, Bool, false, List, ◌∷◌, ◌++◌, Option, None, slice_get, option_map};
ghost use Rattle.jtext.specs.declared.json.Json as tree;
ghost use Rattle.jtext.specs.Grammar.{Spells};
ghost use Rattle.jtext.specs.Keyed.{Keyed};
ghost use Rattle.jtext.specs.Sound.{Sound};
ghost use Rattle.nb_model.specs.declared.cell.Cell as cell;
ghost use Rattle.nb_model.specs.declared.notebook.Notebook as notebook;
ghost use Rattle.nb_model.specs.Planned.{plan};
ghost use Rattle.nb_model.specs.Prepared.{prepared_notebook};
ghost use Rattle.nb_model.specs.Tree.{notebook_tree};
ghost use Rattle.nb_model.specs.Valid.{Valid};
ghost use Rattle.out_fold.specs.declared.used.Used as used;
ghost use Rattle.out_fold.specs.Fit.{AreRead};
ghost use Rattle.out_fold.specs.Stands.{SameCell};
ghost use Rattle.progress_save.specs.Prefix.{prefix, saved_cell, stops_at};
ghost use Rattle.progress_save.specs.declared.progress.Progress as progress;
ghost use Rattle.progress_save.specs.Safe.{IsSafe, IsHeld};
ghost use Rattle.progress_save.specs.Saved.{IsReadOf};
ghost use Rattle.nb_text.specs.Notebooks.{text_of};
ghost use Rattle.progress_save.specs.State.{kept_text, Fits, KeepsAll};
ghost use Rattle.save_disk.specs.Places.{save_count};
ghost use Rattle.world.specs.declared.entry.Entry.{Entry};
ghost use Rattle.world.specs.Disk.{place, untouched_place};
ghost use Rattle.world.specs.Moments.{Since};
ghost use Rattle.world.specs.Parts.{IsNotOf, OnDisk};
ghost use Rattle.world.specs.Touched.{touches};

// ---- prefixes

/// A prefix is the notebook cell by cell: those before its index are settled, the others stay. The
/// prefix that settles none is the notebook itself.
pub fn cells_of_prefixes()
    ensures each { (merge : Bool) (us : List used.Used) (p : ℕ) (stop : Option ℕ)
        (n : notebook.Notebook) (i : ℕ) → slice_get (prefix merge us p stop n).cells i
        ≡ option_map (saved_cell merge us p stop i) (slice_get n.cells i) }
    ensures waiting { (merge : Bool) (us : List used.Used) (p : ℕ) (stop : Option ℕ) (i : ℕ)
        (c : cell.Cell) → p ≤ i → saved_cell merge us p stop i c ≡ c }
    ensures none { (merge : Bool) (us : List used.Used) (n : notebook.Notebook) →
        prefix merge us 0 None n ≡ n }
{}

/// A cell of which the same is saved is the same in a later prefix, unless the run stopped at it.
pub fn untouched_cells_stay()
    ensures { (merge : Bool) (was us : List used.Used) (p q : ℕ) (stop : Option ℕ) (i : ℕ)
        (c : cell.Cell) → SameCell merge was us i → i < p → p ≤ q → stops_at stop i ≡ false →
        saved_cell merge us q stop i c ≡ saved_cell merge was p None i c }
{}

/// A prefix that is settled again is what the notebook itself would be.
pub fn prefixes_settle_again()
    ensures { (merge : Bool) (was us : List used.Used) (p q : ℕ) (stop : Option ℕ)
        (n : notebook.Notebook) → p ≤ q →
        prefix merge us q stop (prefix merge was p None n) ≡ prefix merge us q stop n }
{}

/// A prefix has the plan of its notebook.
pub fn prefixes_keep_the_plan()
    ensures { (merge : Bool) (us : List used.Used) (p : ℕ) (stop : Option ℕ)
        (n : notebook.Notebook) → plan (prefix merge us p stop n) ≡ plan n }
{}

// ---- validity

/// A prefix of a prepared notebook is valid where the notebook is, and the contents of all messages
/// were read.
pub fn prefixes_stay_valid()
    ensures { (merge : Bool) (us : List used.Used) (p : ℕ) (stop : Option ℕ)
        (n : notebook.Notebook) → AreRead us → Valid (notebook_tree n) →
        Valid (notebook_tree (prefix merge us p stop (prepared_notebook n))) }
{}

/// Where no object of a notebook has a key twice, and the contents of all messages were read, none
/// has in a prefix of the prepared notebook.
pub fn prefixes_stay_keyed()
    ensures { (merge : Bool) (us : List used.Used) (p : ℕ) (stop : Option ℕ)
        (n : notebook.Notebook) → AreRead us → Keyed (notebook_tree n) →
        Keyed (notebook_tree (prefix merge us p stop (prepared_notebook n))) }
{}

/// What is read of the text of a prefix is a valid notebook in which no object has a key twice:
/// the tree of that prefix, with its pairs sorted.
pub fn prefixes_read_back()
    ensures { (merge : Bool) (us : List used.Used) (p : ℕ) (stop : Option ℕ)
        (n : notebook.Notebook) (t : tree.Json) →
        AreRead us → Valid (notebook_tree n) → Keyed (notebook_tree n) →
        let m = prefix merge us p stop (prepared_notebook n) in
        Sound (notebook_tree m) → Spells t (text_of m) → IsReadOf m t }
{}

// ---- kept texts

/// After a save each text that is kept is that of its cell. So it is where fewer texts are kept,
/// and in a notebook where each cell that is another one has no kept text.
pub fn kept_texts_fit()
    ensures saved { (p : progress.Progress) (cs : List cell.Cell) → KeepsAll p cs → Fits p cs }
    ensures fewer { (p q : progress.Progress) (cs : List cell.Cell) →
        ((i : ℕ) → (kept_text q i ≡ None) ⊎ (kept_text q i ≡ kept_text p i)) →
        Fits p cs → Fits q cs }
    ensures others { (p : progress.Progress) (old new : List cell.Cell) →
        ((i : ℕ) → (kept_text p i ≡ None) ⊎ (slice_get new i ≡ slice_get old i)) →
        Fits p old → Fits p new }
{}

// ---- many saves

/// An output that nothing has touched holds the text before the first one, and one that holds a
/// text is safe.
pub fn outputs_begin_safe()
    ensures untouched { (output : List ℕ) (texts : List (List ℕ)) (now : List Entry) →
        place now output ≡ untouched_place → save_count output now ≡ 0 →
        IsHeld output texts now }
    ensures held { (output : List ℕ) (texts : List (List ℕ)) (now : List Entry) →
        IsHeld output texts now → IsSafe output texts now }
{}

/// With more texts behind them an output stays safe, and holds what it held.
pub fn more_texts_stay_safe()
    ensures safe { (output : List ℕ) (texts more : List (List ℕ)) (now : List Entry) →
        IsSafe output texts now → IsSafe output (texts ++ more) now }
    ensures held { (output : List ℕ) (texts more : List (List ℕ)) (now : List Entry) →
        IsHeld output texts now → IsHeld output (texts ++ more) now }
{}

/// Calls of other parts of the world leave an output safe.
pub fn other_parts_stay_safe()
    ensures safe { (output : List ℕ) (texts : List (List ℕ)) (before after : List Entry) →
        Since (IsNotOf OnDisk) before after → IsSafe output texts before →
        IsSafe output texts after }
    ensures held { (output : List ℕ) (texts : List (List ℕ)) (before after : List Entry) →
        Since (IsNotOf OnDisk) before after → IsHeld output texts before →
        IsHeld output texts after }
{}

/// A call for another file, a sync of the output's folder among them, leaves an output safe where
/// it acknowledges no save of it.
pub fn other_files_stay_safe()
    ensures safe { (output : List ℕ) (texts : List (List ℕ)) (entry : Entry) (past : List Entry) →
        touches output entry ≡ false →
        save_count output (entry ∷ past) ≡ save_count output past →
        IsSafe output texts past → IsSafe output texts (entry ∷ past) }
    ensures held { (output : List ℕ) (texts : List (List ℕ)) (entry : Entry) (past : List Entry) →
        touches output entry ≡ false →
        save_count output (entry ∷ past) ≡ save_count output past →
        IsHeld output texts past → IsHeld output texts (entry ∷ past) }
{}
