//! Runs that save a notebook, and saves and lines that fail.
use crate::notebooks::{INJECTED, INJECTED_SAVED, OLD, OLD_REPORT};
use crate::runs::{gives, world};
use samples::notebooks::{DEFAULTS, DEFAULTS_SAVED, EMPTY, EMPTY_SAVED, LAB};
use std::test::Fail;

/// Whether the run of these words on this input says these lines and saves this text.
fn saves(
    rt: &HostRuntime,
    words: &str,
    input: &str,
    said: &str,
    saved: &str,
) -> Result<bool, Fail> {
    let mut w = world(rt, input.as_bytes(), None)?;
    gives(rt, words, &mut w, 0, said, Some(saved))
}

#[test]
fn an_empty_notebook_is_saved_as_it_is(rt: HostRuntime) -> Result<(), Fail> {
    assert!(rt;
        saves(
            &rt,
            "in out --prepare-only",
            EMPTY,
            "saved 0/0 out\nout: done\n",
            EMPTY_SAVED
        )?
    );
    Ok(())
}

#[test]
fn a_notebook_of_jupyterlab_keeps_its_tree(rt: HostRuntime) -> Result<(), Fail> {
    assert!(rt;
        saves(
            &rt,
            "in out --prepare-only",
            LAB.trim_end(),
            "saved 0/2 out\nout: done\n",
            LAB
        )?
    );
    Ok(())
}

#[test]
fn parameters_stand_after_the_cell_of_defaults(rt: HostRuntime) -> Result<(), Fail> {
    let words = "in out --prepare-only -p a 1e2 -r b 007 -p c True";
    assert!(rt;
        saves(
            &rt,
            words,
            DEFAULTS,
            "saved 0/2 out\nout: done\n",
            DEFAULTS_SAVED
        )?
    );
    Ok(())
}

#[test]
fn an_earlier_injection_is_replaced_under_a_free_id(rt: HostRuntime) -> Result<(), Fail> {
    let words = "in out --prepare-only -p a 1";
    assert!(rt;
        saves(
            &rt,
            words,
            INJECTED,
            "saved 0/3 out\nout: done\n",
            INJECTED_SAVED
        )?
    );
    Ok(())
}

#[test]
fn an_older_notebook_is_raised_and_its_sources_hidden(rt: HostRuntime) -> Result<(), Fail> {
    let words = "--report-mode in out --prepare-only";
    assert!(rt; saves(&rt, words, OLD, "saved 0/2 out\nout: done\n", OLD_REPORT)?);
    Ok(())
}

/// The number of the call that fails, the status, whether the output is there whole, and what is said. The calls
/// are the read, the create, the one write, the sync, the rename, the sync of the folder, and the one line that
/// is said; one more isn't made.
const FAILING: &str = "\
0 3 no out: cannot read in
1 10 no out: cannot save: write
2 10 no out: cannot save: write
3 10 no out: cannot save: sync
4 10 no out: cannot save: rename
5 10 whole out: cannot save: directory sync
6 11 whole -
7 0 whole saved 0/0 out+out: done";

#[test]
fn each_failed_call_has_its_status_and_its_line(rt: HostRuntime) -> Result<(), Fail> {
    for row in FAILING.lines() {
        let (number, row) = row.split_once(' ').ok_or("no number")?;
        let (code, row) = row.split_once(' ').ok_or("no status")?;
        let (output, said) = row.split_once(' ').ok_or("no output")?;
        let number = number.parse::<u64>().map_err(|_| "no number")?;
        let code = code.parse::<u8>().map_err(|_| "no status")?;
        assert!(rt; fails(&rt, number, code, output, said)?, "call {number}");
    }
    Ok(())
}

fn fails(rt: &HostRuntime, number: u64, code: u8, output: &str, said: &str) -> Result<bool, Fail> {
    let mut said = match said {
        "-" => String::new(rt.alloc()),
        _ => said.replace(rt.alloc(), "+", "\n")?,
    };
    if !said.is_empty() {
        said.push('\n')?;
    }
    let output = match output {
        "no" => None,
        _ => Some(EMPTY_SAVED),
    };
    let mut w = world(rt, EMPTY.as_bytes(), Some(number))?;
    gives(
        rt,
        "in out --prepare-only",
        &mut w,
        code,
        said.as_str(),
        output,
    )
}

#[test]
fn a_line_that_is_not_said_leaves_a_refusal_its_status(rt: HostRuntime) -> Result<(), Fail> {
    let mut w = world(&rt, b"[]", Some(1))?;
    let is_so = gives(&rt, "in out --prepare-only", &mut w, 4, "", None);
    drop(w);
    assert!(rt; is_so?);
    Ok(())
}
