//! The exercise, as the words ask for it: its line, its status, and that the line is of its run.
use crate::runs::{status_and_text, world};
use nbrun_top::{exercise, exercise_world};
use std::test::Fail;

/// How many waits a run may make, the words, the status, and the line.
const ROWS: [(u64, &str, u8, &str); 5] = [
    (
        1 << 40,
        "--exercise 0",
        0,
        "exercise 0: cells 0 outputs 0 status 0\n",
    ),
    (
        1 << 40,
        "--exercise 8",
        0,
        "exercise 8: cells 8 outputs 6 status 0\n",
    ),
    (
        1 << 40,
        "--exercise 008",
        0,
        "exercise 8: cells 8 outputs 6 status 0\n",
    ),
    (
        1,
        "--exercise 8",
        16,
        "exercise 8: cells 8 outputs 0 status 16\n",
    ),
    (
        1 << 40,
        "--exercise 200",
        0,
        "exercise 200: cells 200 outputs 150 status 0\n",
    ),
];

/// What a run of these words answers and says in a world without a notebook, with at most that many
/// waits.
fn run(rt: &HostRuntime, words: &str, turns: u64) -> Result<(u8, String), Fail> {
    let mut w = world(rt, b"", None)?;
    let ran = status_and_text(rt, words, turns, &mut w);
    drop(w);
    ran
}

/// Whether it answers this status and says this line.
fn says(rt: &HostRuntime, words: &str, turns: u64, code: u8, line: &str) -> Result<bool, Fail> {
    let (answered, said) = run(rt, words, turns)?;
    Ok(answered == code && said.as_str() == line)
}

/// The status of the exercise of eight cells with at most that many waits, and its line.
fn status_and_line(rt: &HostRuntime, turns: u64) -> Result<(u8, String), Fail> {
    let alloc = rt.alloc();
    let mut v = exercise_world(alloc, 8)?;
    let run = exercise(alloc, 8, turns, &mut v);
    drop(v);
    let tally = run?;
    let (cells, outputs, code) = (tally.cells, tally.outputs, tally.answer.status);
    drop(tally);
    let line = format!(in alloc; "exercise 8: cells {cells} outputs {outputs} status {code}\n")?;
    Ok((code, line))
}

#[test]
fn an_exercise_is_one_line(rt: HostRuntime) -> Result<(), Fail> {
    for (turns, words, code, line) in ROWS {
        assert!(rt; says(&rt, words, turns, code, line)?, "{words}");
    }
    Ok(())
}

#[test]
fn the_line_has_the_numbers_of_the_run(rt: HostRuntime) -> Result<(), Fail> {
    for turns in 0..61 {
        let (code, line) = status_and_line(&rt, turns)?;
        assert!(rt;
            says(&rt, "--exercise 8", turns, code, line.as_str())?,
            "{turns}"
        );
    }
    Ok(())
}
