//! What holds of a loop after any list of calls. A journal has its newest entry first.
ghost use Rattle.std.specs.Prelude.{◌≡◌, ◌⊎◌, ◌<◌, ◌≤◌, ◌++◌, ◌||◌, ℕ, Bool, false, true, List, Option};
ghost use Rattle.world.specs.declared.entry.Entry.{Entry};
ghost use Rattle.world.specs.Moments.{Since};
ghost use Rattle.world.specs.Places.{is_at, is_reported, place_of, status, time};
ghost use Rattle.world.specs.declared.conn.Conn.{Conn};
ghost use Rattle.ready_loop.specs.declared.readiness.Loop.{Loop};
ghost use Rattle.ready_loop.specs.Begins.{unless_closed, is_of_job};
ghost use Rattle.ready_loop.specs.Between.{ReadsAll};
ghost use Rattle.ready_loop.specs.History.{History, with_all_named};
ghost use Rattle.ready_loop.specs.Offers.{LookMoment, is_looked, is_to_name};
ghost use Rattle.ready_loop.specs.Runs.{Runs, FairMoment};
ghost use Rattle.ready_loop.specs.Standing.{StandsFor, MadeElsewhere, put_at};
ghost use Rattle.ready_loop.specs.States.{IsSound, failed_at};
ghost use Rattle.ready_loop.specs.Waits.{AllServed, IsTurnWait, IsLeast, SomeAwake, Timer};

/// Calls of the world that touch no connection, between two calls of a loop, change nothing of it.
pub fn other_calls_change_nothing()
    ensures { (l : Loop) (h : History) (before after : List Entry) →
        Since MadeElsewhere before after → StandsFor l h before → StandsFor l h after }
{}

/// On each connection the bytes put are the first of those that were queued, in order.
pub fn bytes_are_put_in_order()
    ensures { (l : Loop) (h : History) (journal : List Entry) → StandsFor l h journal → (p : ℕ) →
        p < 64 → (rest : List ℕ) × (h.queued p ≡ put_at h journal p ++ rest) }
{}

/// After any list of calls the loop stands for the journal, and each entry since is one that the
/// rules allow: only connections that are awake are read, at most 64 times between two waits; only
/// connections that are open are written to; only refused ones are begun again; and no wait comes
/// before each connection that was awake was read and each refused one that is due was begun again.
pub fn rules_hold_after_any_calls()
    ensures { (first l : Loop) (asked h : History) (start journal : List Entry) →
        StandsFor first asked start → Runs first asked start l h journal →
        StandsFor l h journal × Since FairMoment start journal }
{}

/// Where no connection needs anything, each that was awake after the last wait was read to its end,
/// or gave bytes 64 times.
pub fn served_connections_were_read()
    ensures { (h : History) (past : List Entry) → AllServed h past → ReadsAll past }
{}

/// A wait with a limit above 0 stands only where no connection is awake and none that is open to
/// writing has bytes that were not taken; its limit is the least of the timers, at most 500.
pub fn sleeps_only_where_nothing_goes_on()
    ensures asleep { (due : Option ℕ) (h : History) (ms : ℕ) (past : List Entry) →
        IsTurnWait due h ms past → 0 < ms → (p : ℕ) → p < 64 → (status p past).awake ≡ false }
    ensures sent { (due : Option ℕ) (h : History) (ms : ℕ) (past : List Entry) →
        IsTurnWait due h ms past → (p : ℕ) → p < 64 → (status p past).writable ≡ true →
        (status p past).put ≡ h.queued p }
    ensures least { (due : Option ℕ) (h : History) (ms : ℕ) (past : List Entry) →
        IsTurnWait due h ms past → 0 < ms →
        IsLeast 64 due (time past) (λ p. (status p past).refused) ms }
    ensures most { (due : Option ℕ) (h : History) (ms : ℕ) (past : List Entry) →
        IsTurnWait due h ms past → ms ≤ 500 }
{}

/// A turn's wait with limit 0 stands only where a connection is awake or a timer is due.
pub fn hurries_only_where_something_is_due()
    ensures { (due : Option ℕ) (h : History) (past : List Entry) → IsTurnWait due h 0 past →
        SomeAwake past ⊎ Timer 64 due (time past) (λ p. (status p past).refused) 0 }
{}

/// An end that an answer has named is not named again.
pub fn named_ends_are_not_named_again()
    ensures { (h : History) (names : List Bool) (journal : List Entry) (p : ℕ) →
        is_reported p names ≡ true →
        is_to_name (with_all_named names h) journal p ≡ false }
{}

/// The connects and writes of a last look leave the connections of every other job as they were.
pub fn looks_leave_other_jobs()
    ensures { (jobs : List Bool) (h : History) (before after : List Entry) →
        Since (LookMoment jobs h) before after → (conn : Conn) → is_looked jobs conn.job ≡ false →
        status (place_of conn) after ≡ status (place_of conn) before }
{}

/// Where a fault named a connection and the connections of its job were closed since, none has
/// failed: as far as that goes the loop may wait again.
pub fn a_close_mends_a_fault()
    ensures { (conn : Conn) (old failed closed : Loop) → IsSound old →
        ((p : ℕ) → failed_at failed p ≡ is_at p conn || failed_at old p) →
        ((p : ℕ) → failed_at closed p
        ≡ unless_closed (is_of_job conn.job p) (failed_at failed p)) →
        IsSound closed }
{}
