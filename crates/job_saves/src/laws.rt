//! Laws of the definitions, each the contract of a function without a body.
ghost use Rattle.std.specs.Prelude.{◌≡◌, ℕ, List, Bool, true, Option};
ghost use Rattle.nb_model.specs.declared.notebook.Notebook.{Notebook};
ghost use Rattle.world.specs.declared.entry.Entry.{Entry};
ghost use Rattle.world.specs.Counts.{Counts, CountsGrow};
ghost use Rattle.world.specs.Disk.{place, untouched_place};
ghost use Rattle.world.specs.Moments.{Told, Since};
ghost use Rattle.world.specs.Touched.{Spares};
ghost use Rattle.said_lines.specs.Speech.{heard};
ghost use Rattle.save_disk.specs.Places.{save_count};
ghost use Rattle.save_course.specs.Course.{IsSavedSo};
ghost use Rattle.job_notebook.specs.declared.notebook.JobNotebook.{JobNotebook};
ghost use Rattle.job_notebook.specs.State.{merge_of, output_of, KeepsParts, KeepsRead};
ghost use Rattle.job_saves.specs.Course.{Origin, IsFor, IsSaved, Begins, Stands, Ends};
ghost use Rattle.job_saves.specs.Calls.{Cast, IsCall};
ghost use Rattle.job_saves.specs.Speaking.{SavesNone};
ghost use Rattle.job_saves.specs.Course.{StaysOn, KeepsPart, HasPart, HasCalled, CountsWork};

/// What was used for a request, where its contents were read, changes nothing of a job's course.
pub fn messages_stay_on_course()
    ensures course { (was now : JobNotebook) → KeepsParts was now →
        ((first : Notebook) → KeepsRead was first → KeepsRead now first) → StaysOn was now }
    ensures calls { (was now : JobNotebook) → KeepsParts was now →
        ((first : Notebook) → KeepsRead was first → KeepsRead now first) → KeepsPart was now }
{}

/// A notebook of which nothing was saved stands where a job begins, and a job that stands so can end.
pub fn jobs_begin_and_end()
    ensures begins { (b : JobNotebook) (first : Notebook) (o : Origin)
        (journal : Option (List Entry)) (counts : Counts) → KeepsRead b first →
        IsFor (output_of b) (merge_of b) first o → Begins o journal counts →
        Stands o b true journal counts }
    ensures ends { (o : Origin) (b : JobNotebook) (is_open : Bool)
        (journal : Option (List Entry)) (counts : Counts) →
        Stands o b is_open journal counts → Ends o is_open journal counts }
{}

/// Calls that don't touch a job's output leave it on its course, whichever folders they sync; and
/// calls of the jobs of a cast that say nothing are such since an earlier moment too, and go on with
/// what the lines of a job's saves tell where they are none of a save.
pub fn other_calls_pass()
    ensures course { (o : Origin) (b : JobNotebook) (is_open : Bool) (j k : Option (List Entry))
        (c d : Counts) → Told j k (Since (Spares o.output)) → CountsGrow c d →
        Stands o b is_open j c → Stands o b is_open k d }
    ensures called { (cast : Cast) (since : List Entry) (from c d : Counts)
        (j k : Option (List Entry)) → Told j k (Since (IsCall cast)) →
        Told j k (λ before after. heard after ≡ heard before) → CountsWork c d →
        HasCalled cast since from j c → HasCalled cast since from k d }
    ensures calls { (b : JobNotebook) (cast : Cast) (since : List Entry) (from c d : Counts)
        (j k : Option (List Entry)) → Told j k (Since (IsCall cast)) →
        Told j k (λ before after. heard after ≡ heard before) →
        Told j k (Since SavesNone) → CountsWork c d →
        HasPart cast since from b j c → HasPart cast since from b k d }
    ensures begins { (o : Origin) (j k : Option (List Entry)) (c d : Counts) →
        Told j k (Since (Spares o.output)) → CountsGrow c d → Begins o j c → Begins o k d }
    ensures ends { (o : Origin) (is_open : Bool) (j k : Option (List Entry)) (c d : Counts) →
        Told j k (Since (Spares o.output)) → CountsGrow c d →
        Ends o is_open j c → Ends o is_open k d }
{}

/// Over a job's saves a crash leaves at each moment what was at its output before, or the text that
/// was acknowledged last, or the next one, where nothing had touched the output before.
pub fn saves_are_safe()
    ensures { (o : Origin) (is_open : Bool) (settled : ℕ) (past : List Entry) →
        place o.before o.output ≡ untouched_place → save_count o.output o.before ≡ 0 →
        IsSaved o is_open settled past →
        IsSavedSo o.output o.merge o.first 0 is_open o.before past }
{}
