//! What nbrun says on the standard output of a program of its own.
use crate::programs::run;
use jtext::Fields;
use std::fs;
use std::test::Fail;

// Whether a run of these words has this status and says this line.
fn says(rt: &HostRuntime, words: &str, status: u8, line: &str) -> Result<bool, Fail> {
    let none = Fields::new(rt.alloc());
    let ran = run(rt, "said", "", words, &none)?;
    let is_so = ran.status == status && ran.said.as_str().contains(line);
    drop(ran);
    Ok(is_so)
}

#[test]
fn an_exercise_and_a_refused_notebook_are_said(rt: HostRuntime) -> Result<(), Fail> {
    fs::write(&rt, "said-twice", "{\"a\":1,\"a\":2}")?;
    let rows = [
        (
            "--exercise 8",
            0,
            "exercise 8: cells 8 outputs 6 status 0\n",
        ),
        (
            "said-twice said-never --prepare-only",
            4,
            "said-never: not JSON: repeated key at 7\n",
        ),
        ("--version", 0, "nbrun 0.1.0\n"),
    ];
    for (words, status, line) in rows {
        assert!(rt; says(&rt, words, status, line)?, "{words}");
    }
    assert!(rt; fs::read(&rt, "said-never").is_err());
    fs::remove_file(&rt, "said-twice")?;
    Ok(())
}
