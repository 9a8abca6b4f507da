//! Laws of the definitions, each the contract of a function without a body.
ghost use Rattle.std.specs.Prelude.{◌≡◌, List, Option, Err};
ghost use Rattle.world.specs.declared.entry.Entry.{Entry};
ghost use Rattle.world.specs.Counts.{Counts, CountsGrow};
ghost use Rattle.job_end.specs.declared.end.End as ends;
ghost use Rattle.job_saves.specs.Course.{Origin, Begins, Ends, keeps_open};
ghost use Rattle.job_run.specs.Run.{EndCause};
ghost use Rattle.job_begin.specs.Begun.{IsOpen};

/// A job that hasn't saved yet can end, but not by a save.
pub(crate) fn jobs_end_unsaved()
    ensures { (o : Origin) (end : ends.End) (journal : Option (List Entry)) (counts : Counts) →
        IsOpen end → Begins o journal counts →
        Ends o (keeps_open end) journal counts }
{}

/// The cause of an end is one also of all calls since an earlier moment.
pub(crate) fn causes_stay()
    ensures { (old mid new : Counts) (end : ends.End) → CountsGrow old mid →
        EndCause mid new end → EndCause old new end }
{}
