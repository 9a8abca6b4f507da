//! The whole program over real files, each test with files of its own.
use crate::worlds::{real_world, remove, status, text, texts};
use jtext::Fields;
use nbrun_main::run_words;
use samples::notebooks::{DEFAULTS, DEFAULTS_SAVED, EMPTY, EMPTY_SAVED};
use std::test::Fail;
use std::{env, fs};
use world::Kids;

/// A notebook in a language for which there is no translator.
const JULIA: &str =
    r#"{"cells":[],"metadata":{"kernelspec":{"display_name":"Julia","language":"julia","name":"j"}},"nbformat":4,"nbformat_minor":5}"#;

/// What the program answers to these words, which have spaces between them.
fn answered(rt: &HostRuntime, words: &str) -> Result<u8, Fail> {
    let mut given = Vec::new(rt.alloc());
    for word in words.split(' ') {
        given.push(String::from_str(rt.alloc(), word)?)?;
    }
    let mut w = real_world(rt)?;
    let here = text(rt, "/")?;
    Ok(run_words(rt.alloc(), given.as_slice(), here, &mut w))
}

#[test]
fn an_empty_notebook_is_saved_and_its_input_stays(rt: HostRuntime) -> Result<(), Fail> {
    fs::write(&rt, "empty", EMPTY)?;
    fs::write(
        &rt,
        "empty-saved",
        "a longer text that was there before, which the save replaces whole",
    )?;
    assert_eq!(rt; answered(&rt, "empty empty-saved --prepare-only")?, 0);
    assert!(rt; fs::read_to_string(&rt, "empty-saved")?.as_str() == EMPTY_SAVED);
    assert!(rt; fs::read_to_string(&rt, "empty")?.as_str() == EMPTY);
    remove(&rt, &["empty", "empty-saved"])
}

#[test]
fn parameters_reach_the_file(rt: HostRuntime) -> Result<(), Fail> {
    fs::write(&rt, "defaults", DEFAULTS)?;
    let words = "defaults defaults-saved --prepare-only -p a 1e2 -r b 007 -p c True";
    assert_eq!(rt; answered(&rt, words)?, 0);
    assert!(rt; fs::read_to_string(&rt, "defaults-saved")?.as_str() == DEFAULTS_SAVED);
    remove(&rt, &["defaults", "defaults-saved"])
}

#[test]
fn each_refusal_has_its_status_and_leaves_no_output(rt: HostRuntime) -> Result<(), Fail> {
    fs::write(&rt, "twice", "{\"a\":1,\"a\":2}")?;
    fs::write(&rt, "whole", EMPTY)?;
    fs::write(&rt, "julia", JULIA)?;
    let rows = [
        ("whole never --prepare-only -p a", 2),
        ("twice twice --prepare-only", 2),
        ("--help --help", 2),
        ("absent never --prepare-only", 3),
        ("twice never --prepare-only", 4),
        ("twice absent/out --prepare-only", 4),
        ("julia never --prepare-only -p a 1", 5),
        ("whole absent/out --prepare-only", 10),
        ("--exercise 201", 2),
        ("--jobs absent", 3),
        ("--jobs whole", 2),
        ("twice never", 4),
    ];
    for (words, code) in rows {
        assert_eq!(rt; answered(&rt, words)?, code, "{words}");
        assert!(rt; fs::read(&rt, "never").is_err(), "{words}");
    }
    assert_eq!(rt;
        answered(&rt, "julia julia-saved --prepare-only")?,
        0,
        "no parameter"
    );
    remove(&rt, &["twice", "whole", "julia", "julia-saved"])
}

#[test]
fn help_version_and_an_exercise_are_said(rt: HostRuntime) -> Result<(), Fail> {
    assert_eq!(rt; answered(&rt, "--help")?, 0);
    assert_eq!(rt; answered(&rt, "--exercise 8")?, 0);
    assert_eq!(rt; answered(&rt, "--version")?, 0);
    Ok(())
}

/// As a program of its own, with words behind its test's name: writes down what nbrun answers to
/// them. As a test it does nothing.
#[test]
fn answers_as_a_program(rt: HostRuntime) -> Result<(), Fail> {
    let mut args = env::args(&rt)?;
    args.next();
    args.next();
    let (Some(words), Some(path)) = (args.next(), args.next()) else {
        return Ok(());
    };
    let code = answered(&rt, words.as_str())?;
    fs::write(&rt, path.as_str(), [code].as_slice())?;
    Ok(())
}

/// What nbrun answers to these words as a program of its own whose output is a full device.
fn unsaid_status(rt: &HostRuntime, program: &str, words: &str) -> Result<Option<u8>, Fail> {
    let mut w = real_world(rt)?;
    let full = "exec \"$0\" runs::answers_as_a_program \"$1\" \"$2\" > /dev/full";
    let argv = texts(
        rt,
        &["/bin/sh", "-c", full, program, words, "unsaid-status"],
    )?;
    let dir = text(rt, ".")?;
    if argv.is_empty() {
        return Ok(None);
    }
    let env = Fields::new(rt.alloc());
    w.start(0, &argv, &env, &dir);
    let ended = status(&mut w, 0);
    w.end(0);
    if ended.is_none() {
        return Ok(None);
    }
    let code = fs::read(rt, "unsaid-status")?;
    fs::remove_file(rt, "unsaid-status")?;
    Ok(code.as_slice().first().copied())
}

#[test]
fn what_a_full_device_does_not_take_is_status_11(rt: HostRuntime) -> Result<(), Fail> {
    fs::write(&rt, "unsaid", EMPTY)?;
    let program = env::args(&rt)?.next().ok_or("no name")?;
    let rows = ["--version", "unsaid unsaid-saved --prepare-only"];
    for words in rows {
        let code = unsaid_status(&rt, program.as_str(), words)?;
        assert_eq!(rt; code, Some(11), "{words}");
    }
    assert!(rt; fs::read_to_string(&rt, "unsaid-saved")?.as_str() == EMPTY_SAVED);
    remove(&rt, &["unsaid", "unsaid-saved"])
}
