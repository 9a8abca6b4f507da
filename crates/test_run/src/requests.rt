//! What the requests of a job say.
use crate::checks::{has_status, sends};
use crate::jobs::{run, world_of};
use crate::toys::toys;
use jtext::NoMemory;
use samples::notebooks::TWO;
use std::alloc::Global;
use std::process::Abort;
use std::test::Fail;
use toy_core::Toy;
use world_mem::MemWorld;

/// A cell that may fail, and one that may not.
const TAGGED: &str =
    r#"{"cells":[{"cell_type":"code","execution_count":null,"id":"a","metadata":{"tags":["raises-exception"]},"outputs":[],"source":["print 1"]},{"cell_type":"code","execution_count":null,"id":"b","metadata":{},"outputs":[],"source":["print 2"]}],"metadata":{"kernelspec":{"display_name":"Toy","name":"toy"}},"nbformat":4,"nbformat_minor":5}"#;

/// How many requests stop the kernel at an error, and how many don't.
type Stops = (usize, usize);

// Those of a job with this input and these words that is done.
fn stops(alloc: Global, input: &str, words: &str) -> Result<Option<Stops>, NoMemory> {
    let mut w = world_of(alloc, input, toys(alloc, 2, 3)?, &[], &[])?;
    let stops = run_stops(alloc, &mut w, words);
    drop(w);
    stops
}

fn run_stops(alloc: Global, w: &mut MemWorld<Toy>, words: &str) -> Result<Option<Stops>, NoMemory> {
    let answers = run(alloc, w, words)?;
    Ok(if has_status(&answers, 0, 0) {
        Some((
            sends(w, "\"stop_on_error\":true"),
            sends(w, "\"stop_on_error\":false"),
        ))
    } else {
        None
    })
}

#[test]
fn a_kernel_stops_at_an_error_where_that_ends_the_job(rt: HostRuntime) -> Result<(), Fail> {
    let alloc = rt.alloc();
    let words = "in.ipynb out.ipynb";
    assert!(rt; stops(alloc, TWO, words)? == Some((2, 0)));
    assert!(rt; stops(alloc, TAGGED, words)? == Some((1, 1)));
    let allowed = "in.ipynb out.ipynb --allow-errors";
    assert!(rt; stops(alloc, TWO, allowed)? == Some((0, 2)));
    Ok(())
}
