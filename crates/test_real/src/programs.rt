//! nbrun as a program of its own: this test program starts itself.
ghost use Rattle.jtext.specs.Texts.{AllStrings};

use crate::worlds::{real_world, status, text, texts};
use jtext::{Fields, Text};
use nbrun_main::answer;
use std::test::Fail;
use std::{env, fs};
use world::{Did, Kids};

/// As a program of its own, with words, which have spaces between them, behind its test's name:
/// does what nbrun does with them and writes down what it answers. As a test it does nothing.
#[test]
fn is_nbrun(rt: HostRuntime) -> Result<(), Fail> {
    let mut args = env::args(&rt)?;
    args.next();
    args.next();
    let (Some(words), Some(path)) = (args.next(), args.next()) else {
        return Ok(());
    };
    let mut given = Vec::new(rt.alloc());
    for word in words.as_str().split(' ').filter(|word| !word.is_empty()) {
        given.push(String::from_str(rt.alloc(), word)?)?;
    }
    let folder = env::current_dir(&rt)?;
    let here = String::from_str(rt.alloc(), folder.as_path().as_os_str())?;
    let code = answer(rt, given.as_slice(), Text::of_string(here));
    fs::write(&rt, path.as_str(), [code].as_slice())?;
    Ok(())
}

/// What a run of nbrun left.
#[derive(Drop)]
pub(crate) struct Ran {
    /// Its exit status.
    pub status: u8,
    /// What it said on the standard output.
    pub said: String,
    /// What it said on the standard error stream.
    pub hint: String,
}

/// Runs nbrun with these words after these commands of the shell, in the folder of a test that has
/// this name, with these variables.
pub(crate) fn run(
    rt: &HostRuntime,
    test: &str,
    commands: &str,
    words: &str,
    variables: &Fields,
) -> Result<Ran, Fail>
    requires { AllStrings variables.now }
{
    let script = format!(in rt.alloc();
        "{commands} exec \"$0\" programs::is_nbrun \"$1\" {test}-status > {test}-said 2> {test}-hint"
    )?;
    let program = env::args(rt)?.next().ok_or("no name")?;
    let argv = texts(
        rt,
        &["/bin/sh", "-c", script.as_str(), program.as_str(), words],
    )?;
    if argv.is_empty() {
        return Err(Fail::new("no words"));
    }
    let mut w = real_world(rt)?;
    if w.start(0, &argv, variables, &text(rt, ".")?) == Did::Failed {
        return Err(Fail::new("not started"));
    }
    let ended = status(&mut w, 0);
    w.end(0);
    if ended.is_none() {
        return Err(Fail::new("not ended"));
    }
    left_by(rt, test)
}

// What the run left, in files that are removed.
fn left_by(rt: &HostRuntime, test: &str) -> Result<Ran, Fail> {
    let status = format!(in rt.alloc(); "{test}-status")?;
    let said = format!(in rt.alloc(); "{test}-said")?;
    let hint = format!(in rt.alloc(); "{test}-hint")?;
    let ran = Ran {
        status: fs::read(rt, status.as_str())?
            .as_slice()
            .first()
            .copied()
            .ok_or("no status")?,
        said: fs::read_to_string(rt, said.as_str())?,
        hint: fs::read_to_string(rt, hint.as_str())?,
    };
    for path in [status.as_str(), said.as_str(), hint.as_str()] {
        fs::remove_file(rt, path)?;
    }
    Ok(ran)
}
