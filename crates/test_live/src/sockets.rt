//! Notebooks that are executed by a kernel over sockets. This test program is the kernel too.
use jtext::{Fields, Text, Texts};
use nbrun_main::run_words;
use samples::notebooks::{TWO, TWO_SAVED};
use std::process::Abort;
use std::test::Fail;
use std::{env, fs, process};
use toy_core::Toy;
use toy_host::{connection_in, serve};
use world::{Did, Kids, Reports, Wire};
use world_real::RealWorld;

/// A notebook whose one cell takes three seconds.
const SLOW: &str =
    r#"{"cells":[{"cell_type":"code","execution_count":null,"id":"a","metadata":{},"outputs":[],"source":["sleep 3000\n","print \"over\""]}],"metadata":{"kernelspec":{"display_name":"Toy","name":"toy"}},"nbformat":4,"nbformat_minor":5}"#;

/// As a program of its own, with a connection file behind its test's name: serves the toy kernel.
/// As a test it does nothing.
#[test]
fn serves_as_a_kernel(rt: HostRuntime) -> Result<(), Fail> {
    let mut args = env::args(&rt)?;
    args.next();
    args.next();
    let Some(path) = args.next() else {
        return Ok(());
    };
    let bytes = fs::read(&rt, path.as_str())?;
    let Some(connection) = connection_in(rt.alloc(), bytes.as_slice())? else {
        return Err("no connection file".into());
    };
    let mut toy = Toy::new(rt.alloc(), &connection.key)?;
    match serve(&rt, rt.alloc(), connection.ports, &mut toy) {
        Ok(0) => Ok(()),
        _ => Err("the kernel was not shut down".into()),
    }
}

/// The folder of kernels, with this program as the toy kernel.
fn write_spec(rt: &HostRuntime, folder: &str) -> Result<(), Fail> {
    let program = env::args(rt)?.next().ok_or("no name")?;
    let program = program.as_str();
    let spec = format!(in rt.alloc();
        "{{\"argv\":[\"{program}\",\"sockets::serves_as_a_kernel\",\"{{connection_file}}\"],\"display_name\":\"Toy\",\"interrupt_mode\":\"message\",\"language\":\"toy\"}}"
    )?;
    let kernel = format!(in rt.alloc(); "{folder}/toy")?;
    fs::create_dir(rt, folder)?;
    fs::create_dir(rt, kernel.as_str())?;
    let path = format!(in rt.alloc(); "{folder}/toy/kernel.json")?;
    fs::write(rt, path.as_str(), spec.as_bytes())?;
    Ok(())
}

/// What nbrun answers to these words, which have spaces between them.
fn answered(rt: &HostRuntime, words: &str) -> Result<u8, Fail> {
    let mut given = Vec::new(rt.alloc());
    for word in words.split(' ') {
        given.push(String::from_str(rt.alloc(), word)?)?;
    }
    let folder = env::current_dir(rt)?;
    let here = String::from_str(rt.alloc(), folder.as_path().as_os_str())?;
    let mut w = RealWorld::new(*rt, rt.alloc(), process::id(rt.process()))?;
    Ok(run_words(rt.alloc(), given.as_slice(), Text::of_string(here), &mut w))
}

/// Removes a folder of kernels.
fn remove_spec(rt: &HostRuntime, folder: &str) -> Result<(), Fail> {
    fs::remove_dir_all(rt, folder)?;
    Ok(())
}

#[test]
fn a_notebook_is_executed_over_sockets(rt: HostRuntime) -> Result<(), Fail> {
    write_spec(&rt, "kernels")?;
    fs::write(&rt, "in.ipynb", TWO)?;
    let words = "in.ipynb out.ipynb --kernel-path kernels --start-timeout 20";
    assert_eq!(rt; answered(&rt, words)?, 0);
    let text = fs::read_to_string(&rt, "out.ipynb")?;
    assert_eq!(rt; text.as_str(), TWO_SAVED);
    assert!(rt; fs::read(&rt, "out.ipynb.nbrun-tmp").is_err());
    assert!(rt; fs::read(&rt, "out.ipynb.nbrun-kernel.json").is_err());
    fs::remove_file(&rt, "in.ipynb")?;
    fs::remove_file(&rt, "out.ipynb")?;
    remove_spec(&rt, "kernels")
}

/// As a program of its own, with words, which have spaces between them, behind its test's name: does
/// what nbrun does with them, which has to end with status 0. As a test it does nothing.
#[test]
fn runs_to_its_end(rt: HostRuntime) -> Result<(), Fail> {
    let mut args = env::args(&rt)?;
    args.next();
    args.next();
    let Some(words) = args.next() else {
        return Ok(());
    };
    assert_eq!(rt; answered(&rt, words.as_str())?, 0);
    Ok(())
}

/// Starts nbrun as a program of its own.
fn start_run(rt: &HostRuntime, w: &mut RealWorld<HostRuntime>, words: &str) -> Result<Did, Fail> {
    let program = env::args(rt)?.next().ok_or("no name")?;
    let mut argv = Texts::new(rt.alloc());
    for word in [program.as_str(), "sockets::runs_to_its_end", words] {
        argv.push(Text::of(rt.alloc(), word)?)?;
    }
    if argv.is_empty() {
        return Ok(Did::Failed);
    }
    let none = Fields::new(rt.alloc());
    Ok(w.start(0, &argv, &none, &Text::of(rt.alloc(), ".")?))
}

/// Waits at most 20 seconds for a file that isn't empty.
fn wait_for_file(rt: &HostRuntime, w: &mut RealWorld<HostRuntime>, path: &str) -> Result<(), Fail> {
    let mut reports = Reports { ready: [false; 64] };
    for _ in 0..2000u32 {
        if fs::metadata(rt, path).is_ok_and(|there| there.len() > 0) {
            return Ok(());
        }
        w.wait(10, &mut reports);
    }
    Err("no such file came".into())
}

/// The exit status of the child, after at most 50 seconds.
pub(crate) fn status(w: &mut RealWorld<HostRuntime>) -> Option<i32> {
    let mut reports = Reports { ready: [false; 64] };
    for _ in 0..5000u32 {
        if let Some(status) = w.look(0) {
            return Some(status);
        }
        w.wait(10, &mut reports);
    }
    None
}

#[test]
fn a_second_run_of_one_output_ends_and_the_first_goes_on(rt: HostRuntime) -> Result<(), Fail> {
    write_spec(&rt, "shared-kernels")?;
    fs::write(&rt, "shared", SLOW)?;
    let words = "shared shared-out --kernel-path shared-kernels --start-timeout 20";
    let mut w = RealWorld::new(rt, rt.alloc(), process::id(rt.process()))?;
    assert_eq!(rt; start_run(&rt, &mut w, words)?, Did::Done);
    wait_for_file(&rt, &mut w, "shared-out.nbrun-kernel.json")?;
    assert_eq!(rt; answered(&rt, words)?, 10);
    assert_eq!(rt; status(&mut w), Some(0));
    w.end(0);
    let text = fs::read_to_string(&rt, "shared-out")?;
    assert!(rt; text.as_str().contains("over\\n"), "{text}");
    assert!(rt; fs::read(&rt, "shared-out.nbrun-kernel.json").is_err());
    fs::remove_file(&rt, "shared")?;
    fs::remove_file(&rt, "shared-out")?;
    remove_spec(&rt, "shared-kernels")
}
