//! The core: how it moves.
ghost use Rattle.std.specs.Prelude.{◌<◌, ◌≤◌, ◌^◌, length, All};
ghost use Rattle.std.specs.Option.{ForSome};
ghost use Rattle.cell_core.specs.Holds.{reach, now_of};

use crate::clock::Clock;
use crate::moved::Moved;
use crate::request::Request;
use crate::state::State;
use crate::{Act, Brief, Event, Step, Times, Why};
use nb_model::Plan;

/// From a request's reply to its idle, in milliseconds.
const IDLE_MS: u64 = 4000;

/// From the clock entry that brings an interrupt to the reply.
const INTERRUPT_MS: u64 = 10000;

/// The state machine of one job: it takes events in their order, and answers each with an act.
#[derive(Drop)]
pub struct Core {
    plan: Plan,
    cells: u32,
    limits: Times,
    clock: Clock,
    lost: bool,
    state: State,
    ghost inside: { reach state ≤ length plan },
    ghost below: { All (λ i. i < cells) plan },
    ghost early: { now_of clock < 2 ^ 47 },
    ghost short: { limits.start_ms < 2 ^ 40 },
    ghost limited: { ForSome limits.limit_ms (λ limit. limit < 2 ^ 40) },
    ghost later: { ForSome limits.limit_ms (λ limit. 0 < limit) },
}

impl Core {
    ghost use Rattle.std.specs.Prelude.{◌≡◌, ◌||◌, ℕ, ◌+◌, ◌<◌, ◌≤◌, ◌^◌, ◌↔◌, length, All, List, ◌∷◌, IsTrue, IsSome, [], Option, None, Some, ◌≢◌, Bool, true, false};
    ghost use Rattle.std.specs.Option.{ForSome};
    ghost use Rattle.cell_core.specs.declared.event.Event.{Event as TheEvent};
    ghost use Rattle.cell_core.specs.declared.event.Event.TheVariants as event;
    ghost use Rattle.cell_core.specs.declared.state.State.TheVariants.{Running as running};
    ghost use Rattle.cell_core.specs.Moves.{next_move as next_by, in_preparing, in_starting, on_io, on_reply, after_end as after_end_by, sends as sends_by, fails as fails_by, limit_from as limit_by, start_due as start_by, late as late_by, ends as ends_by, in_passing, on_passed};
    ghost use Rattle.cell_core.specs.Task.{cell_of};
    ghost use Rattle.cell_core.specs.Sending.{next_of, saves_ahead, IsInOrder, SendsOn};
    ghost use Rattle.cell_core.specs.StandsFor.{StandsFor, task_of, failing_in, awaits_saved_of};
    ghost use Rattle.cell_core.specs.Acts.{act_of, takes_of, failing_of, due_of, wants_look_of, heard, IsTimely};
    ghost use Rattle.cell_core.specs.Events.{is_saved};
    ghost use Rattle.cell_core.specs.Stops.{asked_of, stopping_of, cell_at_stop, is_of_request, is_starting, NamesCell, IsLastSave, IsEarly};
    ghost use Rattle.cell_core.specs.Requests.{standing};
    ghost use Rattle.std.specs.Prelude.{◌⊎◌};
    ghost use Rattle.cell_core.specs.declared.act.Act.TheVariants as act;
    ghost use Rattle.cell_core.specs.declared.why.Why.{Why as TheCause};
    ghost use Rattle.cell_core.specs.Holds.{is_save, is_past, looks_in, IsSmall, due_in, lost_after as lost_by};

    /// The core of a job before any event. It awaits the first `Saved`.
    pub fn new(plan: Plan, cells: u32, limits: Times) -> Core
        requires below { All (λ i. i < cells) plan }
        requires short { limits.start_ms < 2 ^ 40 }
        requires limited { ForSome limits.limit_ms (λ limit. limit < 2 ^ 40) }
        requires later { ForSome limits.limit_ms (λ limit. 0 < limit) }
        ensures stands { StandsFor result [] }
        ensures of { task_of result ≡ record { plan = plan; cells = cells; times = limits } }
        ensures next { awaits_saved_of result ≡ true }
        ensures first { next_of result ≡ 0 }
        ensures asks { asked_of result ≡ 0 }
        ensures names { stopping_of result ≡ None }
        ensures still { is_starting result ≡ false }
    {
        Core {
            plan,
            cells,
            limits,
            clock: Clock::Unread,
            lost: false,
            state: State::Preparing,
        }
    }

    /// Takes one event and answers the act that follows. After `Save` the next event has to be
    /// `Saved`, as the first has, and no other may be; after `Stop` each answer is `Nothing`.
    pub fn step(&mut self, e: Event) -> Step
        requires order { is_saved e ≡ awaits_saved_of self.old }
        requires small { IsSmall e }

        // Whatever list of events it stood for, it now stands for that list with this event.
        ensures stands { (events : List TheEvent) → StandsFor self.old events
            → IsTimely (task_of self.old) e events → StandsFor self.new (e ∷ events) }
        ensures act { (events : List TheEvent) → StandsFor self.old events
            → IsTimely (task_of self.old) e events
            → result.act ≡ act_of (task_of self.old) e events }
        ensures takes { (events : List TheEvent) → StandsFor self.old events
            → IsTimely (task_of self.old) e events
            → result.takes ≡ takes_of (task_of self.old) e events }

        // The next event is `Saved` exactly after an act that asks for a save.
        ensures next { awaits_saved_of self.new ≡ is_save result.act }
        ensures same { task_of self.new ≡ task_of self.old }

        // Requests are sent in the order of their cells, and a save settles cells of the notebook.
        ensures sends { IsInOrder (task_of self.old) → SendsOn (task_of self.old)
            (next_of self.old) (next_of self.new) result.act }

        // An acknowledged save asks for at most one more, on which none follows.
        ensures fewer { is_saved e ≡ true → saves_ahead self.new < saves_ahead self.old }

        // The end of a connection or of the kernel alone asks for none.
        ensures lost { e ≡ event.Lost → is_save result.act ≡ false }

        // It stops before a request was sent, or at the acknowledgement of the save that is due
        // before the stop: that of all cells, or that which names the cell whose request stood.
        ensures asks { (n : ℕ) → result.act ≡ act.Save n → asked_of self.new ≡ n }
        ensures stops { (events : List TheEvent) → StandsFor self.old events → (why : TheCause)
            → result.act ≡ act.Stop why → (IsEarly why × (is_starting self.old ≡ true))
            ⊎ ((e ≡ event.Saved)
            × IsLastSave (task_of self.old) why (asked_of self.old) (stopping_of self.old)) }

        // A save that answers the acknowledgement of another names no stopping cell.
        ensures closes { is_saved e ≡ true → is_save result.act ≡ true
            → stopping_of self.new ≡ None }

        // Only a save changes the stopping cell. That of a stop is the cell of the request that
        // stands last: none where none stands, or where the plan is executed.
        ensures keeps { is_save result.act ≡ false → stopping_of self.new ≡ stopping_of self.old }
        ensures names { (events : List TheEvent) → StandsFor self.old events → (why : TheCause)
            → result.act ≡ act.Stop why → stopping_of self.new ≡ cell_at_stop
            (task_of self.old) why (standing (task_of self.old) (heard (task_of self.old) events)) }
        ensures cell { (why : TheCause) → result.act ≡ act.Stop why → is_of_request why ≡ true
            → (e ≡ event.Saved)
            × NamesCell (task_of self.old) (asked_of self.old) (stopping_of self.old) }

        // The kernel is awaited from the first save on, which settles no cell.
        ensures starts { is_starting self.new ≡ true → (is_starting self.old ≡ true)
            ⊎ ((e ≡ event.Saved) × (asked_of self.old ≡ 0) × (stopping_of self.old ≡ None)) }
    {
        let moved = self.next_move(e);
        self.clock = self.clock.after(e);
        self.lost = Core::lost_after(self.lost, e);
        self.state = moved.state;
        moved.step
    }

    /// The next deadline, in milliseconds since 1970-01-01 UTC: none where no deadline stands.
    pub fn due(&self) -> Option<u64>
        ensures { (events : List TheEvent) → StandsFor self.now events
            → result ≡ due_of (task_of self.now) events }
    {
        self.deadline()
    }

    /// Whether a last look has to be made before the clock is read again: the kernel was found
    /// lost, or a turn read the clock at or past the deadline that stands.
    pub fn wants_look(&self) -> bool
        ensures { (events : List TheEvent) → StandsFor self.now events
            → result ≡ wants_look_of (task_of self.now) events }
    {
        self.looks()
    }

    fn looks(&self) -> bool
        ensures { result ≡ looks_in self.now.clock self.now.lost self.now.state }
    {
        match self.state {
            State::Starting { due } => self.is_late(due),
            State::Running(request) => self.is_late(request.due),
            _ => false,
        }
    }

    fn is_late(&self, due: Option<u64>) -> bool
        ensures { result ≡ (self.now.lost || is_past self.now.clock due) }
    {
        self.lost || self.clock.is_past(due)
    }

    fn lost_after(lost: bool, e: Event) -> bool
        ensures { result ≡ lost_by lost e }
    {
        match e {
            Event::Lost => true,
            _ => lost,
        }
    }

    fn deadline(&self) -> Option<u64>
        ensures { result ≡ due_in self.now.state }
    {
        match self.state {
            State::Starting { due } => due,
            State::Running(request) => request.due,
            _ => None,
        }
    }

    /// The stopping cell of the save last asked for: none where no save was asked for, or where
    /// that save isn't a stop's.
    pub fn failing(&self) -> Option<u32>
        ensures is { (events : List TheEvent) → StandsFor self.now events
            → result ≡ failing_of (task_of self.now) events }
        ensures names { result ≡ stopping_of self.now }
    {
        self.stopping_cell()
    }

    fn stopping_cell(&self) -> Option<u32>
        ensures { result ≡ failing_in (task_of self.now) self.now.state }
    {
        match self.state {
            State::Failing { at, why: _ } => Some(self.cell(at)),
            State::Stopped { failing } => match failing {
                Some(at) => Some(self.cell(at)),
                None => None,
            },
            _ => None,
        }
    }

    fn next_move(&self, e: Event) -> Moved
        requires { IsSmall e }
        ensures { result ≡ next_by (task_of self.now) self.now.clock self.now.lost self.now.state
            e }
    {
        match self.state {
            State::Preparing => self.in_preparing(e),
            State::Starting { due } => self.in_starting(due, e),
            State::Running(request) => self.in_running(request, e),
            State::Passing { at } => match e {
                Event::Saved => self.on_passed(at),
                _ => Moved::stays(self.state),
            },
            State::Closing => match e {
                Event::Saved => Moved::stops(Why::Done),
                _ => Moved::stays(self.state),
            },
            State::Failing { at, why } => match e {
                Event::Saved => {
                    Moved::to(State::Stopped { failing: Some(at) }, false, Act::Stop(why))
                }
                _ => Moved::stays(self.state),
            },
            State::Stopped { failing } => Moved::stays(State::Stopped { failing }),
        }
    }

    fn in_preparing(&self, e: Event) -> Moved
        ensures { result ≡ in_preparing (task_of self.now) e }
    {
        match e {
            Event::Saved => self.on_prepared(),
            _ => Moved::stays(State::Preparing),
        }
    }

    fn on_prepared(&self) -> Moved
        ensures { result ≡ in_preparing (task_of self.now) Event.Saved }
    {
        if self.plan.len() > 0 {
            Moved::to(State::Starting { due: None }, false, Act::Start)
        } else if self.cells > 0 {
            Moved::to(State::Closing, false, Act::Save(self.cells))
        } else {
            Moved::stops(Why::Done)
        }
    }

    fn in_starting(&self, due: Option<u64>, e: Event) -> Moved
        requires planned { 0 < length self.now.plan }
        requires small { IsSmall e }
        ensures { result ≡ in_starting (task_of self.now) self.now.clock self.now.lost due e }
    {
        match e {
            Event::Ready => self.sends(0),
            Event::Broken => Moved::stops(Why::BadPeer),
            Event::Lost => Moved::to(State::Starting { due }, false, Act::Look),
            Event::Looked => {
                if self.lost {
                    Moved::stops(Why::KernelLost)
                } else if self.clock.is_past(due) {
                    Moved::stops(Why::NotReady)
                } else {
                    Moved::stays(State::Starting { due })
                }
            }
            Event::Moment(now) => {
                let due = self.start_due(due, now);
                Moved::look_or(State::Starting { due }, self.clock.read(now).is_past(due))
            }
            _ => Moved::stays(State::Starting { due }),
        }
    }

    /// The start deadline, which the child's start fixes.
    fn start_due(&self, due: Option<u64>, now: u64) -> Option<u64>
        requires { now < 2 ^ 47 }
        ensures { result ≡ start_by (task_of self.now) self.now.clock due now }
    {
        match self.clock {
            Clock::Unread => Some(now + self.limits.start_ms),
            _ => due,
        }
    }

    /// The deadline of a request that comes to stand now.
    fn limit_from(&self) -> Option<u64>
        ensures { result ≡ limit_by (task_of self.now) (now_of self.now.clock) }
    {
        match self.limits.limit_ms {
            Some(limit) => Some(self.clock.now() + limit),
            None => None,
        }
    }

    /// Request `at` comes to stand.
    fn sends(&self, at: usize) -> Moved
        requires { at < length self.now.plan }
        ensures { result ≡ sends_by (task_of self.now) self.now.clock at }
    {
        let request = Request {
            at,
            fatal: None,
            idle: false,
            due: self.limit_from(),
            interrupted: false,
        };
        Moved::to(State::Running(request), false, Act::Send(self.cell(at)))
    }

    fn in_running(&self, request: Request, e: Event) -> Moved
        requires planned { request.at < length self.now.plan }
        requires small { IsSmall e }
        ensures { result ≡ next_by (task_of self.now) self.now.clock self.now.lost
            (running request) e }
    {
        let state = State::Running(request);
        match e {
            Event::Io(message) => self.on_io(request, message),
            Event::Reply { fatal } => self.on_reply(request, fatal),
            Event::Broken => self.fails(request.at, Why::BadPeer),
            Event::Lost => Moved::to(state, false, Act::Look),
            Event::Looked => self.on_look(request),
            Event::Moment(now) => Moved::look_or(state, self.clock.read(now).is_past(request.due)),
            Event::Saved => Moved::stays(state),
            Event::Ready => Moved::stays(state),
        }
    }

    /// A message of the request.
    fn on_io(&self, request: Request, message: Brief) -> Moved
        requires { request.at < length self.now.plan }
        ensures { result ≡ on_io (task_of self.now) request.at request.fatal request.idle
            request.due request.interrupted message }
    {
        match message {
            _ if request.idle => Moved::stays(State::Running(request)),
            Brief::Else => Moved::to(State::Running(request), true, Act::Nothing),
            Brief::Idle => match request.fatal {
                Some(fatal) => self.ends(request.at, fatal),
                None => {
                    let idle = Request {
                        idle: true,
                        ..request
                    };
                    Moved::to(State::Running(idle), true, Act::Nothing)
                }
            },
        }
    }

    /// A reply to the request; only the first one counts.
    fn on_reply(&self, request: Request, fatal: bool) -> Moved
        requires { request.at < length self.now.plan }
        ensures { result ≡ on_reply (task_of self.now) self.now.clock request.at request.fatal
            request.idle request.due request.interrupted fatal }
    {
        if request.fatal.is_some() {
            return Moved::stays(State::Running(request));
        }
        if request.idle {
            return self.ends(request.at, fatal);
        }
        let replied = Request {
            fatal: Some(fatal),
            due: Some(self.clock.now() + IDLE_MS),
            ..request
        };
        Moved::to(State::Running(replied), true, Act::Nothing)
    }

    /// A last look is done.
    fn on_look(&self, request: Request) -> Moved
        requires { request.at < length self.now.plan }
        ensures { result ≡ next_by (task_of self.now) self.now.clock self.now.lost
            (running request) event.Looked }
    {
        if self.lost {
            self.fails(request.at, Why::KernelLost)
        } else if self.clock.is_past(request.due) {
            self.late(request)
        } else {
            Moved::stays(State::Running(request))
        }
    }

    /// The look after the deadline brought nothing.
    fn late(&self, request: Request) -> Moved
        requires { request.at < length self.now.plan }
        ensures { result ≡ late_by (task_of self.now) self.now.clock request.at request.fatal
            request.idle request.interrupted }
    {
        if request.fatal.is_some() {
            return self.fails(request.at, Why::NoIdle);
        }
        if !self.limits.interrupt || request.interrupted {
            return self.fails(request.at, Why::TimedOut);
        }
        let asked = Request {
            due: Some(self.clock.now() + INTERRUPT_MS),
            interrupted: true,
            ..request
        };
        Moved::to(State::Running(asked), false, Act::Interrupt)
    }

    /// The index of the cell of request `at`.
    fn cell(&self, at: usize) -> u32
        requires { at < length self.now.plan }
        ensures { result ≡ cell_of (task_of self.now) at }
    {
        self.plan.as_slice()[at]
    }

    /// How many cells a save settles after request `at`.
    fn settled_count(&self, at: usize) -> u32
        requires { at < length self.now.plan }
        ensures { result ≡ cell_of (task_of self.now) at + 1 }
    {
        self.cell(at) + 1
    }

    /// The reply and the idle of request `at` are there.
    fn ends(&self, at: usize, failed: bool) -> Moved
        requires { at < length self.now.plan }
        ensures { result ≡ ends_by (task_of self.now) at failed }
    {
        let save = Act::Save(self.settled_count(at));
        Moved::to(Core::after_end(at, failed), true, save)
    }

    fn fails(&self, at: usize, why: Why) -> Moved
        requires { at < length self.now.plan }
        ensures { result ≡ fails_by (task_of self.now) at why }
    {
        Moved::to(
            State::Failing { at, why },
            false,
            Act::Save(self.settled_count(at)),
        )
    }

    fn after_end(at: usize, failed: bool) -> State
        ensures { result ≡ after_end_by at failed }
    {
        if failed {
            State::Failing {
                at,
                why: Why::CellError,
            }
        } else {
            State::Passing { at }
        }
    }

    fn on_passed(&self, at: usize) -> Moved
        requires { at < length self.now.plan }
        ensures { result ≡ on_passed (task_of self.now) self.now.clock at }
    {
        let len = self.plan.len();
        if at + 1 < len {
            self.sends(at + 1)
        } else if self.settled_count(at) < self.cells {
            Moved::to(State::Closing, false, Act::Save(self.cells))
        } else {
            Moved::stops(Why::Done)
        }
    }
}
