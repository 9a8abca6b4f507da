//! What all parts of the world share.
ghost use Rattle.std.specs.Prelude.{List, Option};
ghost use Rattle.world.specs.Counts.{Counts};
ghost use Rattle.world.specs.declared.entry.Entry.{Entry};

/// The journal of all calls and the counts of their faults. Contracts alone see the journal.
pub trait Journal {
    // The entries so far, the newest first; `None` where they are no longer told.
    ghost journal: { Self → Option (List Entry) };

    // How often each part has failed, how many waits there were, and the clock's last moment.
    ghost counts: { Self → Counts };
}
