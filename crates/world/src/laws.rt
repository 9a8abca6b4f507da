//! What holds of every journal, its newest entry first.
ghost use Rattle.std.specs.Prelude.{◌≡◌, ◌⊎◌, ◌∷◌, ◌++◌, [], ◌+◌, ◌-◌, ◌^◌, ℕ, Bool, true, false};
ghost use Rattle.std.specs.Prelude.{List, Option, Some, None, codes, min};
ghost use Rattle.std.specs.Str.{bytes_eq};
ghost use Rattle.std.proofs.Common.{◌≢◌};
ghost use Rattle.world.specs.declared.conn.Conn.{Conn};
ghost use Rattle.world.specs.declared.connected.Connected.{Connected};
ghost use Rattle.world.specs.declared.did.Did.{Did};
ghost use Rattle.world.specs.declared.did.Did.TheVariants as did;
ghost use Rattle.world.specs.declared.entry.Entry.{Entry};
ghost use Rattle.world.specs.declared.left.Left.{Left};
ghost use Rattle.world.specs.declared.left.Left.TheVariants as left;
ghost use Rattle.world.specs.declared.reports.Reports.{Reports};
ghost use Rattle.world.specs.declared.side.Side.{Side};
ghost use Rattle.world.specs.Acked.{ack_count};
ghost use Rattle.world.specs.Counts.{Counts, WaitCause, no_counts};
ghost use Rattle.world.specs.Disk.{folder_of, here_of, leaves, place, untouched_place, IsUnsettled};
ghost use Rattle.world.specs.Disk.{OnlyFormerOr};
ghost use Rattle.world.specs.Examples as example;
ghost use Rattle.world.specs.Faults.{counts_in, fault_count};
ghost use Rattle.world.specs.Jobs.{IsOfJob, before_shut, shut_at};
ghost use Rattle.world.specs.Moments.{Since};
ghost use Rattle.world.specs.Parts.{IsNotOf, OnDisk, OnWire, OnClock};
ghost use Rattle.world.specs.Places.{place_of, status, time};
ghost use Rattle.world.specs.Save.{Saves};
ghost use Rattle.world.specs.Touched.{Spares, touches, settles};
ghost use Rattle.world.specs.Waits.{is_wait, has_wait, wait_count, before_wait, to_wait};
ghost use Rattle.world.specs.Waits.{since_wait, turn_moment};

// ---- paths that no call names

/// A path that no entry creates, writes, syncs, renames or removes stays as before the run,
/// whatever folder is synced.
pub fn untouched_paths_stay()
    ensures { (path : List ℕ) (before after : List Entry) → Since (Spares path) before after →
        place before path ≡ untouched_place → place after path ≡ untouched_place }
{}

/// An entry that neither names a path nor syncs its folder leaves all that is known of it.
pub fn spared_paths_stay()
    ensures { (path : List ℕ) (entry : Entry) (past : List Entry) →
        touches path entry ≡ false → settles path entry ≡ false →
        place (entry ∷ past) path ≡ place past path }
{}

// ---- calls of other parts and of other jobs

/// Only calls of the disk change what a crash may leave.
pub fn other_parts_change_no_file()
    ensures { (before after : List Entry) → Since (IsNotOf OnDisk) before after →
        place after ≡ place before }
{}

/// Only calls of the disk acknowledge a save.
pub fn other_parts_acknowledge_nothing()
    ensures { (from to : List ℕ) (before after : List Entry) → Since (IsNotOf OnDisk) before after →
        ack_count from to after ≡ ack_count from to before }
{}

/// Only calls on connections change how a connection stands.
pub fn other_parts_change_no_connection()
    ensures { (p : ℕ) (before after : List Entry) → Since (IsNotOf OnWire) before after →
        status p after ≡ status p before }
{}

/// Only the clock changes the last moment.
pub fn other_parts_change_no_moment()
    ensures { (before after : List Entry) → Since (IsNotOf OnClock) before after →
        time after ≡ time before }
{}

/// Calls of one job change no connection of another.
pub fn other_jobs_change_no_connection()
    ensures { (job : ℕ) (conn : Conn) (before after : List Entry) →
        conn.job ≢ job → Since (IsOfJob job) before after →
        status (place_of conn) after ≡ status (place_of conn) before }
{}

// ---- what a crash leaves

/// After the five done calls of a save a crash leaves the text alone, and the path names it.
pub fn save_leaves_its_text()
    ensures { (from to text : List ℕ) (before after : List Entry) →
        bytes_eq from to ≡ false → Saves from to text before after →
        (leaves after to ≡ left.Whole text ∷ []) × (here_of after to ≡ Some (left.Whole text)) }
{}

/// At each moment of a save a crash leaves what one could leave before it, or the whole text.
pub fn save_keeps_the_former_or_its_text()
    ensures { (from to text : List ℕ) (before after : List Entry) →
        bytes_eq from to ≡ false → Saves from to text before after →
        Since (λ now. OnlyFormerOr (leaves before to) text (leaves now to)) before after }
{}

/// A place whose one option is what its name stands for stays, whatever folder is synced.
pub fn settled_places_stay()
    ensures { (dir path : List ℕ) (d : Did) (past : List Entry) (it : Left) →
        leaves past path ≡ it ∷ [] → here_of past path ≡ Some it →
        place (Entry.DirSynced dir d ∷ past) path ≡ place past path }
{}

/// A place whose name is unsure, absent or any stays, whatever folder is synced.
pub fn unsettled_places_stay()
    ensures { (dir path : List ℕ) (d : Did) (past : List Entry) → IsUnsettled (here_of past path) →
        place (Entry.DirSynced dir d ∷ past) path ≡ place past path }
{}

/// A done sync of a folder leaves a name in it the one text that it stands for.
pub fn folder_syncs_settle()
    ensures { (path text : List ℕ) (past : List Entry) →
        here_of past path ≡ Some (left.Whole text) →
        leaves (Entry.DirSynced (folder_of path) did.Done ∷ past) path ≡ left.Whole text ∷ [] }
{}

/// A rename, done or failed, leaves the new name its options and those of the old one.
pub fn rename_keeps_the_options()
    ensures { (from to : List ℕ) (d : Did) (past : List Entry) →
        leaves (Entry.Renamed from to d ∷ past) to ≡ leaves past to ++ leaves past from }
{}

/// After a rename, done or failed, the old name may also be absent.
pub fn renamed_names_may_be_absent()
    ensures { (from to : List ℕ) (d : Did) (past : List Entry) → bytes_eq to from ≡ false →
        leaves (Entry.Renamed from to d ∷ past) from ≡ leaves past from ++ left.Absent ∷ [] }
{}

/// After a done rename the new name stands for what the old one did, and the old one for no file.
pub fn rename_moves_the_name()
    ensures { (from to : List ℕ) (past : List Entry) → bytes_eq to from ≡ false →
        (here_of (Entry.Renamed from to did.Done ∷ past) to ≡ here_of past from)
        × (here_of (Entry.Renamed from to did.Done ∷ past) from ≡ Some left.Absent) }
{}

/// After a failed rename neither name is sure.
pub fn failed_rename_makes_unsure()
    ensures { (from to : List ℕ) (past : List Entry) → bytes_eq to from ≡ false →
        (here_of (Entry.Renamed from to did.Failed ∷ past) to ≡ None)
        × (here_of (Entry.Renamed from to did.Failed ∷ past) from ≡ None) }
{}

/// A removed name may be absent, and is absent where the remove was done.
pub fn removed_names_may_be_absent()
    ensures options { (path : List ℕ) (d : Did) (past : List Entry) →
        leaves (Entry.Removed path d ∷ past) path ≡ leaves past path ++ left.Absent ∷ [] }
    ensures gone { (path : List ℕ) (past : List Entry) →
        here_of (Entry.Removed path did.Done ∷ past) path ≡ Some left.Absent }
    ensures unsure { (path : List ℕ) (past : List Entry) →
        here_of (Entry.Removed path did.Failed ∷ past) path ≡ None }
{}

/// A failed sync, of a file or a folder, settles nothing.
pub fn failed_syncs_change_nothing()
    ensures file { (path other : List ℕ) (past : List Entry) →
        place (Entry.Synced path did.Failed ∷ past) other ≡ place past other }
    ensures folder { (dir other : List ℕ) (past : List Entry) →
        place (Entry.DirSynced dir did.Failed ∷ past) other ≡ place past other }
{}

/// After a create or a write, done or failed, a crash may leave anything.
pub fn unsynced_files_may_be_anything()
    ensures create { (path : List ℕ) (d : Did) (past : List Entry) →
        leaves (Entry.Created path d ∷ past) path ≡ left.Any ∷ [] }
    ensures write { (path bytes : List ℕ) (d : Did) (past : List Entry) →
        leaves (Entry.Wrote path bytes d ∷ past) path ≡ left.Any ∷ [] }
{}

// ---- acknowledged saves

/// An entry acknowledges at most one save of a path.
pub fn one_save_at_a_time()
    ensures { (from to : List ℕ) (entry : Entry) (past : List Entry) →
        (ack_count from to (entry ∷ past) ≡ ack_count from to past)
        ⊎ (ack_count from to (entry ∷ past) ≡ ack_count from to past + 1) }
{}

/// An acknowledging entry is a done sync of the path's folder directly behind the done rename.
pub fn acknowledged_behind_the_rename()
    ensures { (from to : List ℕ) (entry : Entry) (past : List Entry) →
        ack_count from to (entry ∷ past) ≡ ack_count from to past + 1 →
        (entry ≡ Entry.DirSynced (folder_of to) did.Done)
        × ((older : List Entry) × (past ≡ Entry.Renamed from to did.Done ∷ older)) }
{}

// ---- connections and waits

/// A connection that ended, was turned away or was closed is not up.
pub fn ended_connections_are_not_up()
    ensures ended { (conn : Conn) (by : Side) (past : List Entry) →
        (status (place_of conn) (Entry.Ended conn by ∷ past)).up ≡ false }
    ensures refused { (conn : Conn) (by : Side) (past : List Entry) →
        (status (place_of conn) (Entry.Refused conn by ∷ past)).up ≡ false }
    ensures closed { (conn : Conn) (past : List Entry) →
        (status (place_of conn) (Entry.Closed conn ∷ past)).up ≡ false }
{}

/// From its connect to its close a connection has the port of that connect.
pub fn connected_ports_are_known()
    ensures { (conn : Conn) (number : ℕ) (how : Connected) (past : List Entry) →
        ((status (place_of conn) (Entry.Connected conn number how ∷ past)).begun ≡ true)
        × ((status (place_of conn) (Entry.Connected conn number how ∷ past)).port ≡ Some number) }
{}

/// The count of waits is that of the journal's, up to the last value of a `u64`.
pub fn waits_are_counted()
    ensures wait { (old new : Counts) (ms : ℕ) (reports : Reports) (d : Did)
        (past : List Entry) → WaitCause old new (d ≡ did.Failed) →
        old.waits ≡ min (wait_count past) (2 ^ 64 - 1) →
        new.waits ≡ min (wait_count (Entry.Waited ms reports d ∷ past)) (2 ^ 64 - 1) }
    ensures other { (entry : Entry) (past : List Entry) → is_wait entry ≡ false →
        wait_count (entry ∷ past) ≡ wait_count past }
{}

// ---- small journals

/// The folder of a path stands before its last slash.
pub fn folders_of_paths()
    ensures plain { folder_of (codes "a") ≡ codes "." }
    ensures root { folder_of (codes "/a") ≡ codes "/" }
    ensures inner { folder_of (codes "d/a") ≡ codes "d" }
    ensures double { folder_of (codes "d//a") ≡ codes "d/" }
{}

/// What a crash leaves of some saves, and how many are acknowledged.
pub fn saves_of_one_byte()
    ensures whole { leaves example.whole_save (codes "d/o") ≡ left.Whole (120 ∷ []) ∷ [] }
    ensures renamed { leaves example.renamed_save (codes "d/o")
        ≡ left.Old ∷ left.Whole (120 ∷ []) ∷ [] }
    ensures unsynced { leaves example.unsynced_save (codes "d/o")
        ≡ left.Old ∷ left.Whole (120 ∷ []) ∷ [] }
    ensures temporary { leaves example.whole_save (codes "d/t")
        ≡ left.Whole (120 ∷ []) ∷ left.Absent ∷ [] }
    ensures other { leaves example.whole_save (codes "d/x") ≡ left.Old ∷ [] }
    ensures removal { leaves example.synced_removal (codes "d/o") ≡ left.Old ∷ left.Absent ∷ [] }
    ensures acked { ack_count (codes "d/t") (codes "d/o") example.whole_save ≡ 1 }
    ensures not_acked { ack_count (codes "d/t") (codes "d/o") example.unsynced_save ≡ 0 }
{}

/// How a connection stands after it was read, and after it ended.
pub fn connections_of_two_bytes()
    ensures read { status 5 example.read_journal ≡ record {
      begun = true;
      port = Some 9000;
      awake = true;
      writable = true;
      up = true;
      failed = false;
      refused = None;
      count = 1;
      put = [];
      got = 7 ∷ 8 ∷ [];
    } }
    ensures ended { status 5 example.ended_journal ≡ record {
      begun = true;
      port = Some 9000;
      awake = false;
      writable = false;
      up = false;
      failed = false;
      refused = None;
      count = 1;
      put = [];
      got = 7 ∷ 8 ∷ [];
    } }
    ensures other { (status 4 example.read_journal).up ≡ false }
{}

/// What stands before and after the last wait, and which entry is a turn's clock entry.
pub fn waits_of_small_journals()
    ensures count { wait_count example.closed_journal ≡ 1 }
    ensures none { has_wait example.begun_journal ≡ false }
    ensures before { before_wait example.read_journal ≡ example.begun_journal }
    ensures since { example.read_journal
        ≡ since_wait example.read_journal ++ to_wait example.read_journal }
    ensures turn { turn_moment example.turn_journal ≡ Some 4 }
    ensures no_turn { turn_moment (Entry.Moment 5 ∷ example.turn_journal) ≡ None }
{}

/// How many calls of each part have failed in some journals.
pub fn faults_of_small_journals()
    ensures failed { counts_in example.failed_journal ≡ record {
      disk = 1;
      net = 5;
      waits = 1;
      child = 1;
      rand = 1;
      say = 1;
      last = 0;
    } }
    ensures saved { fault_count OnDisk example.unsynced_save ≡ 1 }
    ensures unanswered { counts_in example.unanswered_journal ≡ no_counts }
    ensures none { counts_in [] ≡ no_counts }
{}

/// Where a job is shut, and what came before.
pub fn jobs_of_small_journals()
    ensures job { IsOfJob 1 example.closed_journal }
    ensures shut { shut_at 1 example.closed_journal ≡ 6 }
    ensures before { before_shut 1 example.closed_journal ≡ example.ended_journal }
    ensures other { before_shut 0 example.closed_journal ≡ example.closed_journal }
{}
