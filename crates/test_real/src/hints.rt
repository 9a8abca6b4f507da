//! Hints on the standard error stream. What is said on the standard output stays as it is.
use crate::programs::run;
use crate::worlds::{real_world, remove, text};
use jtext::{Fields, Json};
use samples::notebooks::{EMPTY, TWO};
use std::process::Abort;
use std::test::Fail;
use std::{env, fs};
use world::{Did, Disk};

#[test]
fn a_refused_word_is_named(rt: HostRuntime) -> Result<(), Fail> {
    let list = "nbrun: nbrun --help lists the words, and shows a jobs file\n";
    let rows = [
        ("in out --foo", "usage: unknown at 2\n", "--foo"),
        ("in out more", "usage: extra at 2\n", "more"),
        ("--prepare-only in in", "usage: same path at 2\n", "in"),
        ("report picture in out", "usage: unknown at 1\n", "picture"),
        (
            "in out --start-timeout soon",
            "usage: bad number at 3\n",
            "soon",
        ),
    ];
    for (words, line, word) in rows {
        let ran = run(&rt, "word", "", words, &Fields::new(rt.alloc()))?;
        assert_eq!(rt; ran.status, 2, "{words}");
        assert!(rt; ran.said.as_str().contains(line), "{words}: {}", ran.said);
        let hint = format!(in rt.alloc();
            "nbrun: the word '{word}' is refused; nbrun --help lists what is taken\n"
        )?;
        assert!(rt;
            ran.hint.as_str().contains(hint.as_str()),
            "{words}: {}",
            ran.hint
        );
    }
    let ran = run(&rt, "word", "", "in", &Fields::new(rt.alloc()))?;
    assert!(rt; ran.said.as_str().contains("usage: missing\n") && ran.hint.as_str().contains(list));
    Ok(())
}

#[test]
fn no_words_print_the_help(rt: HostRuntime) -> Result<(), Fail> {
    let none = Fields::new(rt.alloc());
    let help = run(&rt, "help", "", "--help", &none)?;
    assert!(rt; help.status == 0 && !help.hint.as_str().contains("nbrun"));
    assert!(rt; help.said.as_str().starts_with("nbrun executes"));
    let short = run(&rt, "help", "", "-h", &none)?;
    assert!(rt; short.status == 0 && short.said.as_str() == help.said.as_str());
    let bare = run(&rt, "help", "", "", &none)?;
    assert!(rt; bare.status == 2 && bare.said.as_str() == help.said.as_str());
    Ok(())
}

#[test]
fn what_the_system_said_is_told(rt: HostRuntime) -> Result<(), Fail> {
    fs::write(&rt, "told", EMPTY)?;
    fs::create_dir(&rt, "told-folder")?;
    let rows = [
        (
            "told-absent told-out --prepare-only",
            3,
            "nbrun: told-absent: No such file or directory",
        ),
        (
            "told told-absent/out --prepare-only",
            10,
            "nbrun: told-absent/out.nbrun-tmp: No such file or directory",
        ),
        (
            "told told-folder --prepare-only",
            10,
            "nbrun: told-folder: what stands there is no regular file",
        ),
    ];
    for (words, status, hint) in rows {
        let ran = run(&rt, "told", "", words, &Fields::new(rt.alloc()))?;
        assert_eq!(rt; ran.status, status, "{words}");
        assert!(rt; ran.hint.as_str().contains(hint), "{words}: {}", ran.hint);
    }
    fs::remove_dir(&rt, "told-folder")?;
    remove(&rt, &["told", "told-folder.nbrun-tmp"])
}

/// Describes a kernel of that name in this folder, which is started by these words.
fn describe(rt: &HostRuntime, folder: &str, name: &str, argv: &str) -> Result<(), Fail> {
    let kernel = format!(in rt.alloc(); "{folder}/{name}")?;
    fs::create_dir_all(rt, kernel.as_str())?;
    let path = format!(in rt.alloc(); "{folder}/{name}/kernel.json")?;
    let spec = format!(in rt.alloc();
        "{{\"argv\":[{argv}],\"display_name\":\"K\",\"language\":\"toy\"}}"
    )?;
    fs::write(rt, path.as_str(), spec.as_bytes())?;
    Ok(())
}

#[test]
fn the_folder_that_has_the_kernel_is_named(rt: HostRuntime) -> Result<(), Fail> {
    let here = env::current_dir(&rt)?;
    let here = here.as_path().as_os_str();
    fs::write(&rt, "found", TWO)?;
    let home = format!(in rt.alloc(); "{here}/found-home")?;
    let path = format!(in rt.alloc(); "/nowhere:{here}/found-path")?;
    describe(
        &rt,
        "found-home/.local/share/jupyter/kernels",
        "here",
        "\"x\"",
    )?;
    describe(&rt, "found-path/kernels", "there", "\"x\"")?;
    let variables = Fields::of_vec(vec![in rt.alloc();
        (text(&rt, "HOME")?, Json::Str(text(&rt, home.as_str())?)),
        (
            text(&rt, "JUPYTER_PATH")?,
            Json::Str(text(&rt, path.as_str())?)
        ),
    ]?);
    let rows = [
        ("here", "found-home/.local/share/jupyter/kernels"),
        ("there", "found-path/kernels"),
    ];
    for (kernel, folder) in rows {
        let words = format!(in rt.alloc(); "found found-out --kernel-path /nowhere -k {kernel}")?;
        let ran = run(&rt, "found", "", words.as_str(), &variables)?;
        assert_eq!(rt; ran.status, 3, "{kernel}");
        let hint = format!(in rt.alloc();
            "nbrun: --kernel-path {here}/{folder} has this kernel\n"
        )?;
        assert!(rt; ran.hint.as_str().contains(hint.as_str()), "{}", ran.hint);
    }
    let words = "found found-out --kernel-path /nowhere -k nobody-has-this";
    let ran = run(&rt, "found", "", words, &variables)?;
    assert!(rt;
        ran.hint
            .as_str()
            .starts_with("nbrun: /nowhere/nobody-has-this/kernel.json: No such")
    );
    fs::remove_dir_all(&rt, "found-home")?;
    fs::remove_dir_all(&rt, "found-path")?;
    remove(&rt, &["found"])
}

#[test]
fn a_kernel_that_does_not_start_or_ends_is_told(rt: HostRuntime) -> Result<(), Fail> {
    fs::write(&rt, "ends", TWO)?;
    describe(&rt, "ends-kernels", "none", "\"./no-such-kernel\"")?;
    describe(&rt, "ends-kernels", "ends", "\"/bin/sh\",\"-c\",\"exit 3\"")?;
    let rows = [
        (
            "none",
            6,
            "nbrun: ./no-such-kernel: No such file or directory",
        ),
        (
            "ends",
            8,
            "nbrun: the kernel ended with status 3 before it was ready\n",
        ),
    ];
    for (kernel, status, hint) in rows {
        let words = format!(in rt.alloc(); "ends ends-out --kernel-path ends-kernels -k {kernel}")?;
        let ran = run(&rt, "ends", "", words.as_str(), &Fields::new(rt.alloc()))?;
        assert_eq!(rt; ran.status, status, "{kernel}: {}", ran.said);
        assert!(rt; ran.hint.as_str().contains(hint), "{kernel}: {}", ran.hint);
    }
    fs::remove_dir_all(&rt, "ends-kernels")?;
    remove(&rt, &["ends", "ends-out"])
}

#[test]
fn an_output_that_another_run_has_in_use_is_told(rt: HostRuntime) -> Result<(), Fail> {
    let mut first = real_world(&rt)?;
    let file = text(&rt, "busy-out.nbrun-kernel.json")?;
    assert_eq!(rt; first.create(&file), Did::Done);
    fs::write(&rt, "busy", TWO)?;
    describe(&rt, "busy-kernels", "toy", "\"/bin/sh\",\"-c\",\"exit 3\"")?;
    let words = "busy busy-out --kernel-path busy-kernels";
    let ran = run(&rt, "busy", "", words, &Fields::new(rt.alloc()))?;
    assert_eq!(rt; ran.status, 10, "{}", ran.said);
    let line = "busy-out: cannot save: connection file\n";
    assert!(rt; ran.said.as_str().contains(line), "{}", ran.said);
    let hint = "nbrun: busy-out.nbrun-kernel.json: another run has the file in use\n";
    assert!(rt; ran.hint.as_str().contains(hint), "{}", ran.hint);
    assert_eq!(rt;
        first.remove(&file),
        Did::Done,
        "it is the first run's still"
    );
    fs::remove_dir_all(&rt, "busy-kernels")?;
    remove(&rt, &["busy", "busy-out"])
}
