//! nbrun as a program of its own: this test program starts itself.
use crate::sockets::status;
use jtext::{Fields, Text, Texts};
use nbrun_main::answer;
use std::test::Fail;
use std::{env, fs, process};
use world::{Did, Kids};
use world_real::RealWorld;

/// As a program of its own, with words behind its test's name: does what nbrun does with them and
/// writes down what it answers. As a test it does nothing.
#[test]
fn is_nbrun(rt: HostRuntime) -> Result<(), Fail> {
    let mut args = env::args(&rt)?;
    args.next();
    args.next();
    let (Some(words), Some(path)) = (args.next(), args.next()) else {
        return Ok(());
    };
    let mut given = Vec::new(rt.alloc());
    for word in words.as_str().split(' ') {
        given.push(String::from_str(rt.alloc(), word)?)?;
    }
    let folder = env::current_dir(&rt)?;
    let here = String::from_str(rt.alloc(), folder.as_path().as_os_str())?;
    let code = answer(rt, given.as_slice(), Text::of_string(here));
    fs::write(&rt, path.as_str(), [code].as_slice())?;
    Ok(())
}

/// What a run of nbrun is to leave.
#[derive(Drop)]
pub(crate) struct Wanted<'a> {
    /// Its exit status.
    pub status: u8,
    /// A part of what it says on the standard error stream.
    pub hint: &'a str,
}

/// Whether nbrun, with these words after these commands of the shell, leaves that. Its files have
/// the test's name.
pub(crate) fn leaves(
    rt: &HostRuntime,
    test: &str,
    commands: &str,
    words: &str,
    wanted: &Wanted,
) -> Result<bool, Fail> {
    // The shell puts a stream that is redirected aside, at number 10 or above: so that comes before a
    // limit on the numbers.
    let script = format!(in rt.alloc();
        "exec 2> {test}-hint; {commands} exec \"$0\" programs::is_nbrun \"$1\" {test}-status"
    )?;
    start(rt, script.as_str(), words)?;
    has_left(rt, test, wanted)
}

// Starts nbrun by a script of the shell, and waits for its end.
fn start(rt: &HostRuntime, script: &str, words: &str) -> Result<(), Fail> {
    let program = env::args(rt)?.next().ok_or("no name")?;
    let mut argv = Texts::new(rt.alloc());
    for word in ["/bin/sh", "-c", script, program.as_str(), words] {
        argv.push(Text::of(rt.alloc(), word)?)?;
    }
    if argv.is_empty() {
        return Err(Fail::new("no words"));
    }
    let mut w = RealWorld::new(*rt, rt.alloc(), process::id(rt.process()))?;
    let none = Fields::new(rt.alloc());
    if w.start(0, &argv, &none, &Text::of(rt.alloc(), ".")?) == Did::Failed {
        return Err(Fail::new("not started"));
    }
    let ended = status(&mut w);
    w.end(0);
    match ended {
        Some(_) => Ok(()),
        None => Err(Fail::new("not ended")),
    }
}

// Whether the run left that, in files that are removed.
fn has_left(rt: &HostRuntime, test: &str, wanted: &Wanted) -> Result<bool, Fail> {
    let status = format!(in rt.alloc(); "{test}-status")?;
    let hint = format!(in rt.alloc(); "{test}-hint")?;
    let is_so = fs::read(rt, status.as_str())?.as_slice() == [wanted.status].as_slice()
        && fs::read_to_string(rt, hint.as_str())?
            .as_str()
            .contains(wanted.hint);
    fs::remove_file(rt, status.as_str())?;
    fs::remove_file(rt, hint.as_str())?;
    Ok(is_so)
}
