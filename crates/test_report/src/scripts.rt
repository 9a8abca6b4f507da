//! Scripts of notebooks, and notebooks of scripts.
use crate::reading::{notebook, shown, with_cells};
use nb_model::{Notebook, code};
use nb_text::text;
use report_text::{script, unscript};
use samples::notebooks::TWO_SAVED;
use std::test::Fail;

/// The notebook's script.
fn script_of(rt: &HostRuntime, n: &Notebook) -> Result<String, Fail> {
    shown(rt, &script(rt.alloc(), n)?)
}

/// A line a cell of what is read of the script: its kind, its id, its source.
fn cells_of(rt: &HostRuntime, text: &str) -> Result<String, Fail> {
    let n = unscript(rt.alloc(), text.as_bytes())?;
    let mut found = String::new(rt.alloc());
    for cell in n.cells.as_slice() {
        let source = code(rt.alloc(), cell)?;
        let line = format!(in rt.alloc();
            "{:?} {} {:?};",
            cell.kind,
            cell.id.as_str(),
            source.as_str()
        )?;
        found.push_str(line.as_str())?;
    }
    Ok(found)
}

#[test]
fn a_script_has_the_sources_and_no_outputs(rt: HostRuntime) -> Result<(), Fail> {
    let n = notebook(&rt, TWO_SAVED)?;
    assert_eq!(rt;
        script_of(&rt, &n)?.as_str(),
        "# nbrun script\n\n# %%\nprint 1\n\n# %%\nresult 2\n"
    );
    Ok(())
}

/// A cell of each kind, with empty lines and lines that look like markers in its source.
const KINDS: &str =
    r##"{"cell_type":"code","execution_count":null,"id":"c","metadata":{},"outputs":[],"source":["a\n","\n","b\n","# %%\n"]},{"cell_type":"markdown","id":"m","metadata":{},"source":"x\n\n# %%\n\ny"},{"cell_type":"raw","id":"r","metadata":{},"source":""}"##;

#[test]
fn the_lines_of_text_cells_follow_a_number_sign(rt: HostRuntime) -> Result<(), Fail> {
    let n = with_cells(&rt, KINDS)?;
    assert_eq!(rt;
        script_of(&rt, &n)?.as_str(),
        "# nbrun script\n\n# %%\na\n\nb\n# %%\n\n# %% [markdown]\n# x\n# \n# # %%\n# \n# y\n\n# %% [raw]\n"
    );
    Ok(())
}

#[test]
fn a_script_reads_back(rt: HostRuntime) -> Result<(), Fail> {
    let n = with_cells(&rt, KINDS)?;
    assert_eq!(rt;
        cells_of(&rt, script_of(&rt, &n)?.as_str())?.as_str(),
        "Code cell-0 \"a\\n\\nb\\n# %%\\n\";Markdown cell-1 \"x\\n\\n# %%\\n\\ny\\n\";Raw cell-2 \"\";"
    );
    Ok(())
}

#[test]
fn a_notebook_of_a_script_is_saved_with_its_lines(rt: HostRuntime) -> Result<(), Fail> {
    let n = unscript(rt.alloc(), b"# nbrun script\n\n# %%\na\nb")?;
    assert_eq!(rt;
        shown(&rt, &text(rt.alloc(), &n)?)?.as_str(),
        r#"{
 "cells": [
  {
   "cell_type": "code",
   "execution_count": null,
   "id": "cell-0",
   "metadata": {},
   "outputs": [],
   "source": [
    "a\n",
    "b\n"
   ]
  }
 ],
 "metadata": {},
 "nbformat": 4,
 "nbformat_minor": 5
}
"#
    );
    Ok(())
}

#[test]
fn the_first_line_alone_is_a_script(rt: HostRuntime) -> Result<(), Fail> {
    assert_eq!(rt; cells_of(&rt, "# nbrun script")?.as_str(), "");
    assert_eq!(rt; cells_of(&rt, "# nbrun script\n")?.as_str(), "");
    Ok(())
}

#[test]
fn the_last_line_end_may_be_missing(rt: HostRuntime) -> Result<(), Fail> {
    assert_eq!(rt;
        cells_of(&rt, "# nbrun script\n\n# %%\na")?.as_str(),
        "Code cell-0 \"a\\n\";"
    );
    assert_eq!(rt;
        cells_of(&rt, "# nbrun script\n\n# %%\na\n")?.as_str(),
        "Code cell-0 \"a\\n\";"
    );
    assert_eq!(rt;
        cells_of(&rt, "# nbrun script\n\n# %%")?.as_str(),
        "Code cell-0 \"\";"
    );
    Ok(())
}

#[test]
fn only_a_marker_after_an_empty_line_begins_a_cell(rt: HostRuntime) -> Result<(), Fail> {
    assert_eq!(rt;
        cells_of(&rt, "# nbrun script\n\n# %%\n# %% [raw]\na\n\n\n# %%\n")?.as_str(),
        "Code cell-0 \"# %% [raw]\\na\\n\\n\";Code cell-1 \"\";"
    );
    assert_eq!(rt;
        cells_of(&rt, "# nbrun script\n\n# %%\n\n# %% x\n\n")?.as_str(),
        "Code cell-0 \"\\n# %% x\\n\\n\";"
    );
    Ok(())
}
