//! Reports: a notebook as a script and as a page, and a script as a notebook.
use crate::runs::{add, gives, world, world_of};
use samples::notebooks::TWO_SAVED;
use std::test::Fail;
use world_mem::Files;

/// The two cells of `TWO_SAVED` as a script.
const SCRIPT: &str = "# nbrun script\n\n# %%\nprint 1\n\n# %%\nresult 2\n";

/// They as a page.
const PAGE: &str = "<!DOCTYPE html>
<html><head><meta charset=\"utf-8\"><title>notebook</title></head><body>
<pre class=\"code\">print 1</pre>
<pre class=\"stream\">1
</pre>
<pre class=\"code\">result 2</pre>
<pre class=\"data\">2</pre>
</body></html>
";

/// A script of a cell of text, as a notebook.
const NOTEBOOK: &str = r#"{
 "cells": [
  {
   "cell_type": "markdown",
   "id": "cell-0",
   "metadata": {},
   "source": [
    "x\n"
   ]
  }
 ],
 "metadata": {},
 "nbformat": 4,
 "nbformat_minor": 5
}
"#;

// Whether a run of these words is done, and makes that of this input.
fn makes(rt: &HostRuntime, words: &str, input: &[u8], output: &str) -> Result<bool, Fail> {
    let mut w = world(rt, input, None)?;
    let is_so = gives(rt, words, &mut w, 0, "out: done\n", Some(output));
    drop(w);
    is_so
}

#[test]
fn a_report_is_made_of_its_input(rt: HostRuntime) -> Result<(), Fail> {
    let saved = TWO_SAVED.as_bytes();
    let text = b"# nbrun script\n\n# %% [markdown]\n# x\n";
    assert!(rt; makes(&rt, "report script in out", saved, SCRIPT)?);
    assert!(rt; makes(&rt, "report page in out", saved, PAGE)?);
    assert!(rt; makes(&rt, "report notebook in out", text, NOTEBOOK)?);
    Ok(())
}

// Whether a run over this input, in which the call of this number fails, ends so and leaves the old output.
fn fails(
    rt: &HostRuntime,
    words: &str,
    input: &[u8],
    fail: Option<u64>,
    (code, line): (u8, &str),
) -> Result<bool, Fail> {
    let mut files = Files::new(rt.alloc());
    add(rt, &mut files, "in", input)?;
    add(rt, &mut files, "out", b"old")?;
    let mut w = world_of(rt, files, fail)?;
    let said = format!(in rt.alloc(); "out: {line}\n")?;
    let is_so = gives(rt, words, &mut w, code, said.as_str(), Some("old"));
    drop(w);
    is_so
}

#[test]
fn a_report_that_fails_keeps_the_old_output(rt: HostRuntime) -> Result<(), Fail> {
    let saved = TWO_SAVED.as_bytes();
    let page = "report page in out";
    assert!(rt; fails(&rt, page, saved, Some(0), (3, "cannot read in"))?);
    assert!(rt; fails(&rt, page, saved, Some(1), (10, "cannot save: write"))?);
    assert!(rt; fails(&rt, page, saved, Some(3), (10, "cannot save: sync"))?);
    assert!(rt; fails(&rt, page, saved, Some(4), (10, "cannot save: rename"))?);
    assert!(rt; fails(&rt, page, b"[]", None, (4, "not nbformat 4.5: shape at "))?);
    let script = "report notebook in out";
    assert!(rt;
        fails(
            &rt,
            script,
            b"# nbrun script\nx\n",
            None,
            (4, "not a script at 1")
        )?
    );
    assert!(rt;
        fails(
            &rt,
            script,
            b"# nbrun script\n\xff",
            None,
            (4, "not a script at 0")
        )?
    );
    let large = vec![in rt.alloc(); b' '; (32 << 20) + 1]?;
    assert!(rt; fails(&rt, script, large.as_slice(), None, (4, "too large"))?);
    Ok(())
}
