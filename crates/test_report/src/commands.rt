//! The report command over a disk in memory, on which the output is `out`.
use jtext::{Bytes, Text};
use report_run::report;
use samples::notebooks::TWO_SAVED;
use std::test::Fail;
use world_mem::{Files, MemDisk, Sizes};

/// A disk with the input as `in` and an older output, on which the call with that number fails.
fn disk(rt: &HostRuntime, input: &[u8], fail: Option<u64>) -> Result<MemDisk, Fail> {
    let alloc = rt.alloc();
    let mut files = Files::new(alloc);
    files.push((Text::of(alloc, "in")?, Bytes::of(alloc, input)?))?;
    files.push((Text::of(alloc, "out")?, Bytes::of(alloc, b"old")?))?;
    let mut fails = Sizes::new(alloc);
    if let Some(number) = fail {
        fails.push(number)?;
    }
    Ok(MemDisk::new(alloc, files, fails)?)
}

/// The status of a report with these words, which have one space between them, what it said, and
/// the output after it.
fn outcome(rt: &HostRuntime, words: &str, w: &mut MemDisk) -> Result<String, Fail> {
    let alloc = rt.alloc();
    let mut given = Vec::new(alloc);
    for word in words.split(' ') {
        given.push(String::from_str(alloc, word)?)?;
    }
    let code = report(alloc, given.as_slice(), w);
    let said = std::str::from_utf8(w.said().bytes()).map_err(|_| "no text")?;
    let output = match w.file(&Text::of(alloc, "out")?) {
        Some(bytes) => std::str::from_utf8(bytes.bytes()).map_err(|_| "no text")?,
        None => "nothing",
    };
    Ok(format!(in alloc; "{code} {said}{output}")?)
}

/// The outcome of a report with these words of this input.
fn outcome_of(rt: &HostRuntime, words: &str, input: &str) -> Result<String, Fail> {
    let mut w = disk(rt, input.as_bytes(), None)?;
    outcome(rt, words, &mut w)
}

/// A script of one cell.
const SCRIPT: &str = "# nbrun script\n\n# %%\nprint 1\n";

#[test]
fn a_report_is_saved(rt: HostRuntime) -> Result<(), Fail> {
    assert_eq!(rt;
        outcome_of(&rt, "script in out", TWO_SAVED)?.as_str(),
        "0 out: done\n# nbrun script\n\n# %%\nprint 1\n\n# %%\nresult 2\n"
    );
    let page = outcome_of(&rt, "page in out", TWO_SAVED)?;
    assert!(rt;
        page.as_str().starts_with("0 out: done\n<!DOCTYPE html>\n"),
        "a page"
    );
    let notebook = outcome_of(&rt, "notebook in out", SCRIPT)?;
    assert!(rt;
        notebook
            .as_str()
            .starts_with("0 out: done\n{\n \"cells\": [\n"),
        "a notebook"
    );
    Ok(())
}

/// Words, and the line that refuses them.
const REFUSED: [(&str, &str); 11] = [
    ("", "unknown at 1"),
    ("x", "unknown at 1"),
    ("x -a", "unknown at 1"),
    ("script", "missing"),
    ("page in", "missing"),
    ("script -a b", "unknown at 2"),
    ("script a -b c", "unknown at 3"),
    ("script -- b", "unknown at 2"),
    ("script A B -C", "extra at 4"),
    ("script out out", "same path at 3"),
    ("notebook out.nbrun-tmp out", "same path at 3"),
];

#[test]
fn the_first_wrong_word_is_named(rt: HostRuntime) -> Result<(), Fail> {
    for (words, line) in REFUSED {
        let expected = format!(in rt.alloc(); "2 usage: {line}\nold")?;
        assert_eq!(rt;
            outcome_of(&rt, words, TWO_SAVED)?.as_str(),
            expected.as_str(),
            "{words}"
        );
    }
    let none = report(rt.alloc(), &[], &mut disk(&rt, b"", None)?);
    assert_eq!(rt; none, 2, "no words");
    Ok(())
}

/// Words, an input, and the outcome, with the old output kept.
const NOT_MADE: [(&str, &str, &str); 6] = [
    ("script nowhere out", "", "3 out: cannot read nowhere\nold"),
    ("script in out", "x", "4 out: not JSON: syntax at 0\nold"),
    ("page in out", "{}", "4 out: not nbformat 4.5: version\nold"),
    (
        "notebook in out",
        "# nbrun script\nx\n",
        "4 out: not a script at 1\nold",
    ),
    ("notebook in out", "", "4 out: not a script at 0\nold"),
    (
        "notebook in out",
        TWO_SAVED,
        "4 out: not a script at 0\nold",
    ),
];

#[test]
fn an_input_of_another_kind_is_refused(rt: HostRuntime) -> Result<(), Fail> {
    for (words, input, expected) in NOT_MADE {
        assert_eq!(rt;
            outcome_of(&rt, words, input)?.as_str(),
            expected,
            "{words}"
        );
    }
    Ok(())
}

#[test]
fn an_input_above_32_mebibytes_is_too_large(rt: HostRuntime) -> Result<(), Fail> {
    let input = vec![in rt.alloc(); b' '; 33_554_433]?;
    let mut w = disk(&rt, input.as_slice(), None)?;
    assert_eq!(rt;
        outcome(&rt, "notebook in out", &mut w)?.as_str(),
        "4 out: too large\nold"
    );
    Ok(())
}

/// The number of a call that fails, and what the report answers and says.
const FAILURES: [(u64, &str); 6] = [
    (0, "3 out: cannot read in\n"),
    (1, "10 out: cannot save: write\n"),
    (2, "10 out: cannot save: write\n"),
    (3, "10 out: cannot save: sync\n"),
    (4, "10 out: cannot save: rename\n"),
    (5, "10 out: cannot save: directory sync\n"),
];

#[test]
fn each_failing_call_is_said(rt: HostRuntime) -> Result<(), Fail> {
    for (number, expected) in FAILURES {
        let mut w = disk(&rt, SCRIPT.as_bytes(), Some(number))?;
        let found = outcome(&rt, "notebook in out", &mut w)?;
        assert!(rt; found.as_str().starts_with(expected), "{expected}");
    }
    let mut w = disk(&rt, SCRIPT.as_bytes(), Some(6))?;
    let found = outcome(&rt, "notebook in out", &mut w)?;
    assert!(rt;
        found.as_str().starts_with("11 {\n"),
        "the line can't be said"
    );
    Ok(())
}
