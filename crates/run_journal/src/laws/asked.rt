//! What holds of each job that is asked for, by what its input holds.
ghost use Rattle.std.specs.Prelude.{◌≡◌, ℕ, List, [], Option};
ghost use Rattle.world.specs.declared.entry.Entry.{Entry};
ghost use Rattle.world.specs.declared.read_file.ReadFile.{ReadFile};
ghost use Rattle.words.specs.declared.ask.Ask.{Ask};
ghost use Rattle.run_journal.specs.Job.{Job};
ghost use Rattle.run_journal.specs.Decoding.{IsDecoding};
ghost use Rattle.run_journal.specs.Saves.{saves};
ghost use Rattle.run_journal.specs.Asked.{Setting, IsJobOf, HasNoNotebook};

use crate::laws::reading::jupyter_is_read;

/// The bytes of its kernel are read as Jupyter's, so that all that is said of decoding holds of it.
pub fn asked_jobs_are_read()
    ensures { (a : Ask) (s : Setting) (found : Option ReadFile) (j : Job) → IsJobOf a s found j →
        IsDecoding j.codec }
{
    jupyter_is_read();
}

/// A job whose input gives no notebook has no save, whatever the journal.
pub fn no_save_without_a_notebook()
    ensures { (a : Ask) (s : Setting) (status : ℕ) (text : List ℕ) (j : Job) →
        HasNoNotebook a s status text j → (past : List Entry) → saves j past ≡ [] }
{}
