//! What holds of every list of events, by the definitions that the core's calls answer by.
ghost use Rattle.std.specs.Prelude.{◌≡◌, ℕ, ◌<◌, ◌≤◌, true, false, Some, None, List, [], ◌∷◌, ◌⊎◌};
ghost use Rattle.std.specs.Option.{ForSome};
ghost use Rattle.cell_core.specs.declared.event.Event.{Event};
ghost use Rattle.cell_core.specs.declared.event.Event.TheVariants.{Saved, Ready, Lost, Moment};
ghost use Rattle.cell_core.specs.Events.{is_saved, time};
ghost use Rattle.cell_core.specs.Requests.{is_over, Standing, standing};
ghost use Rattle.cell_core.specs.declared.why.Why.{Why};
ghost use Rattle.cell_core.specs.declared.act.Act.TheVariants.{Send, Interrupt, Save, Stop};
ghost use Rattle.cell_core.specs.Task.{Task, cell_of};
ghost use Rattle.cell_core.specs.Acts.{act_of, heard, has_stopped, awaits_saved, wants_look_of, IsTimely, Meets};
ghost use Rattle.cell_core.specs.Answering.{is_message, can_answer, save_at_end};
ghost use Rattle.cell_core.specs.LastLooks.{TakesTurns};
ghost use Rattle.cell_core.specs.Laws.{IsOpen, IsSent, SendsLast, IsAskedFor, StopsBy, IsCausedBy, ComesToStand, GoesOn, AsksInOrder};
ghost use Rattle.cell_core.specs.Saves.{pending_saves, why};
ghost use Rattle.cell_core.specs.StandsFor.{StandsFor, awaits_saved_of, task_of};

use crate::Core;

/// Never do two requests stand that aren't over.
pub fn one_request_at_a_time()
    ensures { (task : Task) (events : List Event) (j k : ℕ) → IsOpen task j events
        → IsOpen task k events → j ≡ k }
{}

/// A request is sent only where it comes to stand: the first at the later of readiness and the
/// first acknowledged save, each later one at the `Saved` that follows the end of the one before.
pub fn sent_where_it_stands()
    ensures { (task : Task) (event : Event) (past : List Event) (cell : ℕ)
        → act_of task event past ≡ Send cell → IsSent task cell event (heard task past) }
{}

/// A request that is sent comes to stand as the last.
pub fn the_last_is_sent()
    ensures { (task : Task) (event : Event) (past : List Event) (cell : ℕ)
        → act_of task event past ≡ Send cell → SendsLast task cell (event ∷ heard task past) }
{}

/// A save is asked for only where it is the first that is due, and the job stops only by its cause,
/// once each save that is due is acknowledged.
pub fn saves_and_stops_where_due()
    ensures saves { (task : Task) (event : Event) (past : List Event) (settled : ℕ)
        → act_of task event past ≡ Save settled
        → IsAskedFor task settled (event ∷ heard task past) }
    ensures stops { (task : Task) (event : Event) (past : List Event) (cause : Why)
        → act_of task event past ≡ Stop cause → StopsBy task cause (event ∷ heard task past) }
{}

/// While the job hasn't stopped, the first save that is due is asked for; where none is, a cause
/// stops it; where there is none either, a request that comes to stand is sent.
pub fn asked_where_due()
    ensures saves { (task : Task) (event : Event) (past : List Event) (settled : ℕ)
        → has_stopped task (heard task past) ≡ false
        → IsAskedFor task settled (event ∷ heard task past)
        → act_of task event past ≡ Save settled }
    ensures stops { (task : Task) (event : Event) (past : List Event) (cause : Why)
        → has_stopped task (heard task past) ≡ false
        → StopsBy task cause (event ∷ heard task past)
        → act_of task event past ≡ Stop cause }
    ensures sends { (task : Task) (event : Event) (past : List Event) (k : ℕ)
        → has_stopped task (heard task past) ≡ false
        → pending_saves task (event ∷ heard task past) ≡ []
        → why task (event ∷ heard task past) ≡ None
        → ComesToStand task k (event ∷ heard task past)
        → act_of task event past ≡ Send (cell_of task k) }
{}

/// What a core stands for, without what it holds: where no save is awaited and the job hasn't
/// stopped, no request stands or the last one isn't over.
pub fn goes_on(core: &Core)
    ensures { (events : List Event) → StandsFor core.now events
        → awaits_saved (task_of core.now) events ≡ false
        → has_stopped (task_of core.now) (heard (task_of core.now) events) ≡ false
        → GoesOn (task_of core.now) (heard (task_of core.now) events) }
{
    let _ = core;
}

/// The kernel may be found lost more than once. Where a core awaits no save and was told of a loss,
/// telling it of another one leaves it as it is.
pub fn a_loss_again(core: &Core)
    ensures { (events : List Event) → awaits_saved_of core.now ≡ false
        → StandsFor core.now (Lost ∷ events) → StandsFor core.now (Lost ∷ Lost ∷ events) }
{
    let _ = core;
}

/// Where no save is awaited and no last look is wanted, the clock may be read: a moment that isn't
/// before the last one comes in time.
pub fn read_in_time()
    ensures { (task : Task) (now : ℕ) (events : List Event) → awaits_saved task events ≡ false
        → wants_look_of task events ≡ false → time (heard task events) ≤ now
        → IsTimely task (Moment now) events }
{}

/// Where each last look that was asked for is done before the clock is read again, unless the
/// deadline that asked for it was answered first, every event comes in time.
pub fn in_time_by_turns()
    ensures { (task : Task) (events : List Event) → TakesTurns task events
        → ForSome task.times.limit_ms (λ limit. 0 < limit) → Meets task events }
{}

/// Over every list of events in which each `Saved` comes where a save was asked for and the clock
/// is read in time, the saves that are asked for are those that are due, in order.
pub fn saves_in_order()
    ensures { (task : Task) (events : List Event) → Meets task events
        → ForSome task.times.limit_ms (λ limit. 0 < limit) → AsksInOrder task events }
{}

/// While nothing has stopped the job, each event was heard.
pub fn all_are_heard()
    ensures { (task : Task) (told : List Event) → has_stopped task (heard task told) ≡ false
        → heard task told ≡ told }
{}

/// While a job runs, a message or a reply asks for the save after the last request exactly where
/// the request is over by it, and else for nothing.
pub fn messages_end_requests(core: &Core)
    ensures { (event : Event) (told : List Event) → StandsFor core.now told
        → awaits_saved_of core.now ≡ false
        → has_stopped (task_of core.now) (heard (task_of core.now) told) ≡ false
        → is_message event ≡ true
        → act_of (task_of core.now) event told
        ≡ save_at_end (task_of core.now) (standing (task_of core.now) (event ∷ told)) }
{
    let _ = core;
}

/// While a job runs, the last request that stands isn't over.
pub fn running_requests_go_on(core: &Core)
    ensures { (told : List Event) (last : Standing) → StandsFor core.now told
        → awaits_saved_of core.now ≡ false
        → has_stopped (task_of core.now) (heard (task_of core.now) told) ≡ false
        → standing (task_of core.now) told ≡ Some last → is_over last.later ≡ false }
{
    let _ = core;
}

/// A job that wants no interrupts is never answered by one.
pub fn interrupts_are_asked_for()
    ensures { (task : Task) (event : Event) (past : List Event) → task.times.interrupt ≡ false
        → act_of task event past ≡ Interrupt → ⊥ }
{}

/// A request is sent only at an acknowledged save or as the kernel becomes ready.
pub fn only_starts_send()
    ensures { (task : Task) (event : Event) (past : List Event) (cell : ℕ)
        → act_of task event past ≡ Send cell → (event ≡ Saved) ⊎ (event ≡ Ready) }
{}

/// While nothing has stopped the job, an event that comes where it may, and in time, is answered by
/// an act of its kind.
pub fn events_have_their_acts(core: &Core)
    ensures { (event : Event) (told : List Event) → StandsFor core.now told
        → is_saved event ≡ awaits_saved_of core.now → IsTimely (task_of core.now) event told
        → has_stopped (task_of core.now) (heard (task_of core.now) told) ≡ false
        → can_answer event (act_of (task_of core.now) event told) ≡ true }
{
    let _ = core;
}

/// A cause of a stop says what stands of the last request, or what came.
pub fn causes_say()
    ensures { (task : Task) (events : List Event) (cause : Why) → why task events ≡ Some cause
        → IsCausedBy cause task events }
{}
