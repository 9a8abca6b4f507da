//! What the loop has put out for a job.
ghost use Rattle.std.specs.Prelude.{◌≡◌, ℕ, true, List, length};
ghost use Rattle.world.specs.declared.conn.Conn as conn;
ghost use Rattle.world.specs.declared.entry.Entry.{Entry};
ghost use Rattle.world.specs.Places.{place_of};
ghost use Rattle.ready_loop.specs.declared.readiness.Loop.{Loop};
ghost use Rattle.ready_loop.specs.History.{History};
ghost use Rattle.ready_loop.specs.Standing.{StandsFor, put_at};
ghost use Rattle.ready_loop.specs.States.{known_at};
ghost use Rattle.run_journal.specs.Job.{Job};
ghost use Rattle.run_journal.specs.Parts.{bytes_put};

/// The octets that a loop has put out on a connection that it has begun are those that the journal
/// has of it for its job. So `taken` gives their number.
pub fn taken_octets_are_put()
    ensures { (j : Job) (l : Loop) (h : History) (journal : List Entry) (conn : conn.Conn) →
        StandsFor l h journal → known_at l (place_of conn) ≡ true → conn.job ≡ j.number →
        put_at h journal (place_of conn) ≡ bytes_put j conn.chan journal }
{}
