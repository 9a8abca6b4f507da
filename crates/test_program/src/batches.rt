//! Batches, by a jobs file, of notebooks that have no code: no kernel is started for them.
use crate::runs::{Quiet, add, status_and_text, world_of};
use jtext::Text;
use std::test::Fail;
use world_mem::Files;

const NOTE: &[u8] =
    br#"{"cells":[{"cell_type":"markdown","id":"a","metadata":{},"source":"x"}],"metadata":{},"nbformat":4,"nbformat_minor":5}"#;

const TWO: &[u8] =
    br#"{"jobs":[{"input":"a","output":"x"},{"input":"b","output":"y","parameters":{"p":1}}]}"#;

const SAVED: &str = "saved 0/1 x\nsaved 1/1 x\nx: done\n";

/// What a run leaves: its status, what it said, and whether there is a file `x`, and one `y`.
#[derive(Drop)]
struct Left {
    code: u8,
    said: String,
    x: bool,
    y: bool,
}

/// What a run of the jobs file `jobs` leaves, with the call of this number failing.
fn batch(rt: &HostRuntime, jobs: &[u8], second: &[u8], fail: Option<u64>) -> Result<Left, Fail> {
    let mut w = world_of(rt, files_with(rt, jobs, second)?, fail)?;
    let left = run(rt, &mut w);
    drop(w);
    left
}

/// The jobs file and the two inputs that it may name.
fn files_with(rt: &HostRuntime, jobs: &[u8], second: &[u8]) -> Result<Files, Fail> {
    let mut files = Files::new(rt.alloc());
    add(rt, &mut files, "jobs", jobs)?;
    add(rt, &mut files, "a", NOTE)?;
    add(rt, &mut files, "b", second)?;
    Ok(files)
}

fn run(rt: &HostRuntime, w: &mut Quiet) -> Result<Left, Fail> {
    let (code, said) = status_and_text(rt, "--jobs jobs", 1 << 40, w)?;
    let x = has(rt, w, "x")?;
    let y = has(rt, w, "y")?;
    Ok(Left { code, said, x, y })
}

fn has(rt: &HostRuntime, w: &Quiet, path: &str) -> Result<bool, Fail> {
    Ok(w.file(&Text::of(rt.alloc(), path)?).is_some())
}

/// Whether a run of the jobs file in which no call fails ends with this status and says this text.
fn gives(rt: &HostRuntime, jobs: &[u8], second: &[u8], code: u8, said: &str) -> Result<bool, Fail> {
    let left = batch(rt, jobs, second, None)?;
    Ok(left.code == code && left.said.as_str() == said)
}

#[test]
fn each_job_of_a_file_is_run(rt: HostRuntime) -> Result<(), Fail> {
    let left = batch(&rt, TWO, NOTE, None)?;
    let line = "y: kernel spec: no name\n";
    let said = format!(in rt.alloc(); "{SAVED}{line}")?;
    let is_so = left.code == 5 && left.said.as_str() == said.as_str();
    assert!(rt; is_so && left.x && !left.y);
    Ok(())
}

/// The status, the input of the second job, and what is said of it.
const SECOND: &str = r#"4|{"a":1,"a":2}|y: not JSON: repeated key at 7
4|[]|y: not nbformat 4.5: shape at "#;

/// Whether a second job with this input ends the run with this status and says this line.
fn gives_second(rt: &HostRuntime, input: &str, code: &str, line: &str) -> Result<bool, Fail> {
    let code = code.parse::<u8>().map_err(|_| "no status")?;
    let said = format!(in rt.alloc(); "{SAVED}{line}\n")?;
    gives(rt, TWO, input.as_bytes(), code, said.as_str())
}

#[test]
fn the_status_is_that_of_the_first_job_that_fails(rt: HostRuntime) -> Result<(), Fail> {
    for row in SECOND.lines() {
        let (code, row) = row.split_once('|').ok_or("no status")?;
        let (input, line) = row.split_once('|').ok_or("no line")?;
        assert!(rt; gives_second(&rt, input, code, line)?, "{input}");
    }
    Ok(())
}

/// The jobs file, and what is said of it.
const FILES: &str = r#"{"jobs":[]}|usage: bad jobs at /jobs
{"jobs":[{"input":"a"}]}|usage: bad jobs at /jobs/0
{"jobs":[{"input":"a","output":"x"},{"input":"b","output":"x"}]}|usage: bad jobs at /jobs/1/output
{"jobs":[{"input":"jobs","output":"x"}]}|usage: bad jobs at /jobs/0/input
{"jobs":[|usage: bad jobs at "#;

/// Whether a run of this jobs file ends as one of wrong words, says this line and saves nothing.
fn is_refused(rt: &HostRuntime, jobs: &str, line: &str) -> Result<bool, Fail> {
    let left = batch(rt, jobs.as_bytes(), NOTE, None)?;
    let said = format!(in rt.alloc(); "{line}\n")?;
    Ok(left.code == 2 && left.said.as_str() == said.as_str() && !left.x)
}

#[test]
fn a_jobs_file_is_refused_with_the_pointer(rt: HostRuntime) -> Result<(), Fail> {
    for row in FILES.lines() {
        let (jobs, line) = row.split_once('|').ok_or("no line")?;
        assert!(rt; is_refused(&rt, jobs, line)?, "{jobs}");
    }
    Ok(())
}

#[test]
fn a_jobs_file_over_1_mib_is_refused(rt: HostRuntime) -> Result<(), Fail> {
    let jobs = vec![in rt.alloc(); b' '; 1_048_577]?;
    assert!(rt; gives(&rt, jobs.as_slice(), NOTE, 2, "usage: bad jobs at \n")?);
    Ok(())
}

#[test]
fn a_jobs_file_that_cannot_be_read_is_named(rt: HostRuntime) -> Result<(), Fail> {
    let left = batch(&rt, TWO, NOTE, Some(0))?;
    let is_so = left.code == 3 && left.said.as_str() == "nbrun: cannot read jobs\n";
    assert!(rt; is_so);
    Ok(())
}
