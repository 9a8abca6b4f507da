//! The answers of the core, event by event.
ghost use Rattle.std.specs.Prelude.{◌≡◌, true, false};
ghost use Rattle.cell_core.specs.Events.{is_saved};
ghost use Rattle.cell_core.specs.Holds.{is_save, IsSmall};
ghost use Rattle.cell_core.specs.StandsFor.{awaits_saved_of};

use cell_core::{Act, Brief, Core, Event, Times, Why, allowed};
use jcontent::ReplyIs;
use jtext::{NoMemory, Text, Texts};
use nb_model::Plan;
use std::alloc::Global;
use std::process::Abort;
use std::test::Fail;

const LIMITS: Times = Times {
    start_ms: 60000,
    limit_ms: None,
    interrupt: false,
};

/// A second for a request, then its interrupt.
const HURRIED: Times = Times {
    start_ms: 1000,
    limit_ms: Some(1000),
    interrupt: true,
};

/// Tells the core an event, and compares what it answers.
fn tell(rt: &impl Abort, core: &mut Core, e: Event, takes: bool, act: Act)
    requires order { is_saved e ≡ awaits_saved_of core.old }
    requires small { IsSmall e }
    ensures next { awaits_saved_of core.new ≡ is_save act }
{
    let step = core.step(e);
    assert_eq!(rt; step.takes, takes);
    assert_eq!(rt; step.act, act);
}

/// The first of two cells runs and is saved.
fn run_first(rt: &impl Abort, core: &mut Core)
    requires { awaits_saved_of core.old ≡ true }
    ensures { awaits_saved_of core.new ≡ true }
{
    tell(rt, core, Event::Saved, false, Act::Start);
    tell(rt, core, Event::Ready, false, Act::Send(0));
    tell(rt, core, Event::Io(Brief::Else), true, Act::Nothing);
    tell(rt, core, Event::Reply { fatal: false }, true, Act::Nothing);
    tell(rt, core, Event::Io(Brief::Idle), true, Act::Save(1));
    assert_eq!(rt; core.failing(), None);
}

/// The second of two cells fails.
fn fail_second(rt: &impl Abort, core: &mut Core)
    requires { awaits_saved_of core.old ≡ true }
{
    tell(rt, core, Event::Saved, false, Act::Send(2));
    tell(rt, core, Event::Reply { fatal: true }, true, Act::Nothing);
    tell(rt, core, Event::Io(Brief::Idle), true, Act::Save(3));
    assert_eq!(rt; core.failing(), Some(2));
    tell(rt, core, Event::Saved, false, Act::Stop(Why::CellError));
}

#[test]
fn the_second_of_two_cells_fails(rt: HostRuntime) -> Result<(), Fail> {
    let plan = Plan::of_vec(vec![in rt.alloc(); 0, 2]?);
    let mut core = Core::new(plan, 3, LIMITS);
    run_first(&rt, &mut core);
    fail_second(&rt, &mut core);
    Ok(())
}

fn expect_due(rt: &impl Abort, core: &Core, moment: Option<u64>) {
    assert_eq!(rt; core.due(), moment);
}

/// A request is sent, which is to end a second later.
fn send_hurried(rt: &impl Abort, core: &mut Core)
    requires { awaits_saved_of core.old ≡ true }
    ensures { awaits_saved_of core.new ≡ false }
{
    tell(rt, core, Event::Saved, false, Act::Start);
    expect_due(rt, core, None);
    tell(rt, core, Event::Moment(0), false, Act::Nothing);
    expect_due(rt, core, Some(1000));
    tell(rt, core, Event::Moment(20), false, Act::Nothing);
    tell(rt, core, Event::Ready, false, Act::Send(0));
    expect_due(rt, core, Some(1020));
}

/// The request is interrupted once the second is over.
fn interrupt(rt: &impl Abort, core: &mut Core)
    requires { awaits_saved_of core.old ≡ false }
    ensures { awaits_saved_of core.new ≡ false }
{
    tell(rt, core, Event::Moment(1019), false, Act::Nothing);
    assert!(rt; !core.wants_look());
    tell(rt, core, Event::Moment(1030), false, Act::Look);
    assert!(rt; core.wants_look());
    tell(rt, core, Event::Looked, false, Act::Interrupt);
    assert!(rt; !core.wants_look());
    expect_due(rt, core, Some(11030));
}

/// The request has not ended ten seconds later, and the job stops.
fn time_out(rt: &impl Abort, core: &mut Core)
    requires { awaits_saved_of core.old ≡ false }
{
    tell(rt, core, Event::Moment(11030), false, Act::Look);
    tell(rt, core, Event::Looked, false, Act::Save(1));
    assert_eq!(rt; core.failing(), Some(0));
    expect_due(rt, core, None);
    tell(rt, core, Event::Saved, false, Act::Stop(Why::TimedOut));
    tell(rt, core, Event::Ready, false, Act::Nothing);
    assert_eq!(rt; core.failing(), Some(0));
}

#[test]
fn an_interrupt_that_is_not_answered_times_out(rt: HostRuntime) -> Result<(), Fail> {
    let plan = Plan::of_vec(vec![in rt.alloc(); 0]?);
    let mut core = Core::new(plan, 1, HURRIED);
    send_hurried(&rt, &mut core);
    interrupt(&rt, &mut core);
    time_out(&rt, &mut core);
    Ok(())
}

#[test]
fn a_reply_at_the_last_look_beats_its_deadline(rt: HostRuntime) -> Result<(), Fail> {
    let plan = Plan::of_vec(vec![in rt.alloc(); 0]?);
    let mut core = Core::new(plan, 2, HURRIED);
    tell(&rt, &mut core, Event::Saved, false, Act::Start);
    tell(&rt, &mut core, Event::Moment(0), false, Act::Nothing);
    tell(&rt, &mut core, Event::Ready, false, Act::Send(0));
    tell(&rt, &mut core, Event::Moment(1000), false, Act::Look);
    tell(
        &rt,
        &mut core,
        Event::Reply { fatal: false },
        true,
        Act::Nothing,
    );
    assert!(rt; !core.wants_look());
    tell(&rt, &mut core, Event::Looked, false, Act::Nothing);
    assert_eq!(rt; core.due(), Some(5000));
    tell(&rt, &mut core, Event::Moment(5000), false, Act::Look);
    tell(&rt, &mut core, Event::Io(Brief::Idle), true, Act::Save(1));
    tell(&rt, &mut core, Event::Saved, false, Act::Save(2));
    tell(&rt, &mut core, Event::Saved, false, Act::Stop(Why::Done));
    Ok(())
}

#[test]
fn a_lost_kernel_is_looked_at_once_more(rt: HostRuntime) -> Result<(), Fail> {
    let plan = Plan::of_vec(vec![in rt.alloc(); 0, 1]?);
    let mut core = Core::new(plan, 2, LIMITS);
    tell(&rt, &mut core, Event::Saved, false, Act::Start);
    tell(&rt, &mut core, Event::Moment(7), false, Act::Nothing);
    tell(&rt, &mut core, Event::Ready, false, Act::Send(0));
    tell(&rt, &mut core, Event::Io(Brief::Idle), true, Act::Nothing);
    tell(&rt, &mut core, Event::Lost, false, Act::Look);
    tell(
        &rt,
        &mut core,
        Event::Reply { fatal: false },
        true,
        Act::Save(1),
    );
    tell(&rt, &mut core, Event::Saved, false, Act::Send(1));
    tell(&rt, &mut core, Event::Looked, false, Act::Save(2));
    tell(
        &rt,
        &mut core,
        Event::Saved,
        false,
        Act::Stop(Why::KernelLost),
    );
    Ok(())
}

#[test]
fn an_empty_plan_saves_the_whole_notebook(rt: HostRuntime) -> Result<(), Fail> {
    let mut core = Core::new(Plan::new(rt.alloc()), 3, LIMITS);
    tell(&rt, &mut core, Event::Saved, false, Act::Save(3));
    tell(&rt, &mut core, Event::Saved, false, Act::Stop(Why::Done));
    Ok(())
}

#[test]
fn a_broken_stream_stops_without_a_look(rt: HostRuntime) -> Result<(), Fail> {
    let plan = Plan::of_vec(vec![in rt.alloc(); 1]?);
    let mut core = Core::new(plan, 2, LIMITS);
    tell(&rt, &mut core, Event::Saved, false, Act::Start);
    tell(&rt, &mut core, Event::Ready, false, Act::Send(1));
    tell(&rt, &mut core, Event::Broken, false, Act::Save(2));
    assert_eq!(rt; core.failing(), Some(1));
    tell(&rt, &mut core, Event::Saved, false, Act::Stop(Why::BadPeer));
    Ok(())
}

#[test]
fn a_kernel_that_is_not_ready_in_time_stops_the_job(rt: HostRuntime) -> Result<(), Fail> {
    let plan = Plan::of_vec(vec![in rt.alloc(); 0]?);
    let mut core = Core::new(plan, 1, HURRIED);
    tell(&rt, &mut core, Event::Saved, false, Act::Start);
    tell(&rt, &mut core, Event::Moment(5), false, Act::Nothing);
    tell(&rt, &mut core, Event::Moment(1005), false, Act::Look);
    tell(
        &rt,
        &mut core,
        Event::Looked,
        false,
        Act::Stop(Why::NotReady),
    );
    assert_eq!(rt; core.failing(), None);
    Ok(())
}

/// The names of the errors that are allowed: `KeyError` alone.
fn allowed_names(alloc: Global) -> Result<Texts, NoMemory> {
    let mut names = Texts::new(alloc);
    names.push(Text::of(alloc, "KeyError")?)?;
    Ok(names)
}

fn error(alloc: Global, ename: &str) -> Result<ReplyIs, NoMemory> {
    let ename = Text::of(alloc, ename)?;
    Ok(ReplyIs::Error { ename })
}

/// Whether the reply is allowed where `KeyError` is by name.
fn allows(alloc: Global, reply: &ReplyIs, all: bool, tagged: bool) -> Result<bool, NoMemory> {
    let names = allowed_names(alloc)?;
    let is_allowed = allowed(reply, all, &names, tagged);
    drop(names);
    Ok(is_allowed)
}

/// Whether an error of that name is allowed where `KeyError` is by name.
fn allows_error(alloc: Global, ename: &str, all: bool, tagged: bool) -> Result<bool, NoMemory> {
    let reply = error(alloc, ename)?;
    let is_allowed = allows(alloc, &reply, all, tagged);
    drop(reply);
    is_allowed
}

#[test]
fn errors_are_allowed_for_all_by_name_or_by_tag(rt: HostRuntime) -> Result<(), Fail> {
    let rows = [
        ("KeyError", false, false, true),
        ("Key", false, false, false),
        ("ValueError", false, false, false),
        ("ValueError", true, false, true),
        ("ValueError", false, true, true),
    ];
    for (ename, all, tagged, is) in rows {
        let is_allowed = allows_error(rt.alloc(), ename, all, tagged)?;
        assert_eq!(rt; is_allowed, is);
    }
    let is_fine = allows(rt.alloc(), &ReplyIs::Fine, false, false)?;
    assert!(rt; is_fine);
    Ok(())
}
