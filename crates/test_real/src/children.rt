//! Child programs of the system.
ghost use Rattle.jtext.specs.Texts.{AllStrings};

use crate::worlds::{
    Real, children, open_descriptors, real_world, start_script, start_with, status, text, texts,
};
use jtext::{Fields, Json};
use std::process::Abort;
use std::test::Fail;
use std::time::{Duration, Instant};
use std::{fs, process};
use world::{Did, Kids, Reports, Wire};

#[test]
fn children_of_several_jobs_end_with_their_own_status(rt: HostRuntime) -> Result<(), Fail> {
    let mut w = real_world(&rt)?;
    let end = end_each(&rt, &rt, &mut w);
    drop(w);
    end
}

fn end_each(rt: &HostRuntime, stop: &impl Abort, w: &mut Real) -> Result<(), Fail> {
    let rows = [
        (0u8, "exit 0", 0),
        (3, "exit 7", 7),
        (7, "kill -9 $$", 137),
        (15, "kill -15 $$", 143),
    ];
    for (job, script, _) in rows {
        assert!(stop; start_script(rt, w, job, script)?, "{script}");
    }
    for (job, script, ended) in rows {
        assert_eq!(stop; status(w, job), Some(ended), "{script}");
        assert_eq!(stop; w.look(job), Some(ended), "{script}, looked at again");
        w.end(job);
        assert_eq!(stop; w.look(job), None, "{script}, after its end");
    }
    assert_eq!(stop; w.child_faults(), 0);
    Ok(())
}

#[test]
fn a_child_that_ignores_its_end_is_killed(rt: HostRuntime) -> Result<(), Fail> {
    let mut w = real_world(&rt)?;
    let end = end_the_stubborn(&rt, &rt, &mut w);
    drop(w);
    end
}

fn end_the_stubborn(rt: &HostRuntime, stop: &impl Abort, w: &mut Real) -> Result<(), Fail> {
    let script = "trap '' TERM INT HUP; echo $$ > stubborn.tmp; mv stubborn.tmp stubborn; \
        while :; do sleep 1; done";
    assert!(stop; start_script(rt, w, 1, script)?);
    let mut reports = Reports { ready: [false; 64] };
    for _ in 0..1000u32 {
        if fs::exists(rt, "stubborn")? {
            break;
        }
        w.wait(10, &mut reports);
    }
    let number = fs::read_to_string(rt, "stubborn")?;
    let here = format!(in rt.alloc(); "/proc/{}", number.as_str().trim())?;
    assert!(stop; fs::exists(rt, here.as_str())?, "{here}");
    assert_eq!(stop; w.look(1), None);
    let start = Instant::now(rt)?;
    w.end(1);
    assert!(stop;
        start.elapsed(rt)? >= Duration::from_millis(50),
        "killed before it could end by itself"
    );
    assert!(stop; !fs::exists(rt, here.as_str())?, "{here}");
    fs::remove_file(rt, "stubborn")?;
    Ok(())
}

#[test]
fn a_second_start_ends_the_first_child(rt: HostRuntime) -> Result<(), Fail> {
    let mut w = real_world(&rt)?;
    assert!(rt; start_script(&rt, &mut w, 0, "exec sleep 30")?);
    assert!(rt; start_script(&rt, &mut w, 0, "exit 3")?);
    assert_eq!(rt; status(&mut w, 0), Some(3));
    w.end(0);
    Ok(())
}

#[test]
fn what_is_no_program_can_not_be_started(rt: HostRuntime) -> Result<(), Fail> {
    let mut w = real_world(&rt)?;
    let end = start_no_program(&rt, &rt, &mut w);
    drop(w);
    end
}

fn start_no_program(rt: &HostRuntime, stop: &impl Abort, w: &mut Real) -> Result<(), Fail> {
    let env = Fields::new(rt.alloc());
    fs::write(rt, "unmarked", "exit 0")?;
    let rows = [
        ("./no-such-program", "."),
        ("./unmarked", "."),
        ("/bin/sh", "no-such-folder"),
    ];
    for (program, folder) in rows {
        let argv = texts(rt, &[program])?;
        assert_eq!(stop; argv.len(), 1);
        assert_eq!(stop;
            w.start(0, &argv, &env, &text(rt, folder)?),
            Did::Failed,
            "{program}"
        );
        assert_eq!(stop; w.look(0), None, "{program}");
    }
    assert_eq!(stop; w.child_faults(), 3);
    fs::remove_file(rt, "unmarked")?;
    Ok(())
}

/// What a script that has these variables writes into a file.
fn text_written_by(rt: &HostRuntime, script: &str, env: &Fields) -> Result<String, Fail>
    requires { AllStrings env.now }
{
    let mut w = real_world(rt)?;
    if !start_with(rt, &mut w, 0, script, env)? {
        return Err(Fail::new("not started"));
    }
    let ended = status(&mut w, 0);
    w.end(0);
    if ended != Some(0) {
        return Err(Fail::new("the script failed"));
    }
    let text = fs::read_to_string(rt, "written")?;
    fs::remove_file(rt, "written")?;
    Ok(text)
}

#[test]
fn a_child_knows_who_started_it(rt: HostRuntime) -> Result<(), Fail> {
    let ours = format!(in rt.alloc(); "{}\n", process::id(rt.process()))?;
    let none = Fields::new(rt.alloc());
    let told = text_written_by(&rt, "echo $JPY_PARENT_PID > written", &none)?;
    assert_eq!(rt; told.as_str(), ours.as_str());
    let streams = "for i in 0 1 2; do s=\"$s $(readlink /proc/$$/fd/$i)\"; done; \
        echo $s > written";
    let null = text_written_by(&rt, streams, &none)?;
    assert_eq!(rt; null.as_str(), "/dev/null /dev/null /dev/null\n");
    Ok(())
}

#[test]
fn the_variables_of_a_kernel_spec_go_over_ours(rt: HostRuntime) -> Result<(), Fail> {
    let colour = (
        text(&rt, "KERNEL_COLOUR")?,
        Json::Str(text(&rt, "dark red")?),
    );
    let parent = (text(&rt, "JPY_PARENT_PID")?, Json::Str(text(&rt, "none")?));
    let env = Fields::of_vec(vec![in rt.alloc(); colour, parent]?);
    let script = "echo \"$KERNEL_COLOUR, $JPY_PARENT_PID\" > written";
    let told = text_written_by(&rt, script, &env)?;
    assert_eq!(rt; told.as_str(), "dark red, none\n");
    Ok(())
}

#[test]
fn sixteen_children_leave_no_descriptor_and_no_child(rt: HostRuntime) -> Result<(), Fail> {
    let before = (open_descriptors(&rt)?, children(&rt)?);
    let mut w = real_world(&rt)?;
    for job in 0..16u8 {
        let script = format!(in rt.alloc(); "exit {job}")?;
        assert!(rt; start_script(&rt, &mut w, job, script.as_str())?);
    }
    assert_eq!(rt;
        children(&rt)?,
        before.1.saturating_add(16),
        "each is there until it is taken in"
    );
    for job in 0..16u8 {
        assert_eq!(rt; status(&mut w, job), Some(job as i32), "job {job}");
    }
    for job in 0..16u8 {
        w.end(job);
    }
    assert_eq!(rt; (open_descriptors(&rt)?, children(&rt)?), before);
    Ok(())
}
