//! What the tests of the real world share.
ghost use Rattle.std.specs.Prelude.{◌<◌};
ghost use Rattle.jtext.specs.Texts.{AllStrings};

use jtext::{Fields, Text, Texts};
use std::test::Fail;
use std::{fs, process};
use world::{Kids, Reports, Wire};
use world_real::RealWorld;

/// The real world of a test.
pub(crate) type Real = RealWorld<HostRuntime>;

/// A real world with no call yet.
pub(crate) fn real_world(rt: &HostRuntime) -> Result<Real, Fail> {
    Ok(RealWorld::new(*rt, rt.alloc(), process::id(rt.process()))?)
}

/// These characters as a text.
pub(crate) fn text(rt: &HostRuntime, characters: &str) -> Result<Text, Fail> {
    Ok(Text::of(rt.alloc(), characters)?)
}

/// These words as texts.
pub(crate) fn texts(rt: &HostRuntime, words: &[&str]) -> Result<Texts, Fail> {
    let mut texts = Texts::new(rt.alloc());
    for word in words {
        texts.push(text(rt, *word)?)?;
    }
    Ok(texts)
}

/// Removes the files that a test has made.
pub(crate) fn remove(rt: &HostRuntime, paths: &[&str]) -> Result<(), Fail> {
    for path in paths {
        fs::remove_file(rt, *path)?;
    }
    Ok(())
}

/// How many descriptors this process has open.
pub(crate) fn open_descriptors(rt: &HostRuntime) -> Result<u32, Fail> {
    let mut count = 0u32;
    for entry in fs::read_dir(rt, "/proc/self/fd")? {
        let _ = entry?;
        count = count.saturating_add(1);
    }
    Ok(count)
}

/// How many children this process has, those that ended and were not taken in among them.
pub(crate) fn children(rt: &HostRuntime) -> Result<u32, Fail> {
    let ours = format!(in rt.alloc(); "PPid:\t{}", process::id(rt.process()))?;
    let mut count = 0u32;
    for entry in fs::read_dir(rt, "/proc")? {
        let entry = entry?;
        let status = format!(in rt.alloc(); "/proc/{}/status", entry.file_name())?;
        // What is no process has no such file, and one that just ended has none any more.
        if let Ok(text) = fs::read_to_string(rt, status.as_str()) {
            if text.as_str().lines().any(|line| line == ours.as_str()) {
                count = count.saturating_add(1);
            }
        }
    }
    Ok(count)
}

/// Starts a script of the shell as the child of a job, in this folder.
pub(crate) fn start_script(
    rt: &HostRuntime,
    w: &mut Real,
    job: u8,
    script: &str,
) -> Result<bool, Fail>
    requires { job < 16 }
{
    start_with(rt, w, job, script, &Fields::new(rt.alloc()))
}

/// Starts a script of the shell as the child of a job, in this folder, with these variables.
pub(crate) fn start_with(
    rt: &HostRuntime,
    w: &mut Real,
    job: u8,
    script: &str,
    env: &Fields,
) -> Result<bool, Fail>
    requires job { job < 16 }
    requires strings { AllStrings env.now }
{
    let argv = texts(rt, &["/bin/sh", "-c", script])?;
    let dir = text(rt, ".")?;
    if argv.is_empty() {
        return Ok(false);
    }
    Ok(w.start(job, &argv, env, &dir) == world::Did::Done)
}

/// The exit status of a job's child, after at most 20 seconds.
pub(crate) fn status(w: &mut Real, job: u8) -> Option<i32>
    requires { job < 16 }
{
    let mut reports = Reports { ready: [false; 64] };
    for _ in 0..2000u32 {
        if let Some(status) = w.look(job) {
            return Some(status);
        }
        w.wait(10, &mut reports);
    }
    None
}
