//! Notebooks as they are written, whole and cell by cell, and generated.
use crate::reading::notebook;
use jtext::Texts;
use nb_model::{Notebook, code};
use nb_text::{cell_text, generate, join, text, text_with_capacity};
use std::test::Fail;

/// A notebook whose keys stand in another order.
const CELLS: &str =
    r#"{"nbformat_minor":5,"nbformat":4,"metadata":{"x":1e2},"cells":[{"source":["a"],"id":"c","cell_type":"code","execution_count":7,"metadata":{},"outputs":[{"text":"1","name":"stdout","output_type":"stream"}]},{"source":"b","metadata":{},"id":"m","cell_type":"markdown","attachments":{}},{"cell_type":"raw","id":"r","metadata":{},"source":""}]}"#;

/// The same as it is saved.
const TEXT: &str = r#"{
 "cells": [
  {
   "cell_type": "code",
   "execution_count": 7,
   "id": "c",
   "metadata": {},
   "outputs": [
    {
     "name": "stdout",
     "output_type": "stream",
     "text": "1"
    }
   ],
   "source": [
    "a"
   ]
  },
  {
   "attachments": {},
   "cell_type": "markdown",
   "id": "m",
   "metadata": {},
   "source": "b"
  },
  {
   "cell_type": "raw",
   "id": "r",
   "metadata": {},
   "source": ""
  }
 ],
 "metadata": {
  "x": 1e2
 },
 "nbformat": 4,
 "nbformat_minor": 5
}
"#;

/// The bytes as text.
fn shown(rt: &HostRuntime, bytes: &[u8]) -> Result<String, Fail> {
    Ok(String::from_utf8_lossy(rt.alloc(), bytes)?)
}

/// The text of the notebook, made of the texts of its cells.
fn joined_text(rt: &HostRuntime, n: &Notebook) -> Result<String, Fail> {
    let mut texts = Texts::new(rt.alloc());
    for cell in n.cells.as_slice() {
        texts.push(cell_text(rt.alloc(), cell)?)?;
    }
    shown(rt, join(rt.alloc(), n, &texts)?.bytes())
}

#[test]
fn a_notebook_is_written_with_its_keys_in_order(rt: HostRuntime) -> Result<(), Fail> {
    let n = notebook(&rt, CELLS)?;
    assert_eq!(rt; shown(&rt, text(rt.alloc(), &n)?.bytes())?.as_str(), TEXT);
    let roomy = text_with_capacity(rt.alloc(), &n, 4096)?;
    assert_eq!(rt; shown(&rt, roomy.bytes())?.as_str(), TEXT, "with room");
    assert_eq!(rt; joined_text(&rt, &n)?.as_str(), TEXT, "cell by cell");
    Ok(())
}

#[test]
fn a_cell_is_written_without_its_margin_and_comma(rt: HostRuntime) -> Result<(), Fail> {
    let n = notebook(
        &rt,
        r#"{"cells":[{"cell_type":"markdown","id":"m","metadata":{},"source":"hi"}],"metadata":{},"nbformat":4,"nbformat_minor":5}"#,
    )?;
    assert_eq!(rt; n.cells.len(), 1);
    for cell in n.cells.as_slice() {
        assert_eq!(rt;
            cell_text(rt.alloc(), cell)?.as_str(),
            r#"{
   "cell_type": "markdown",
   "id": "m",
   "metadata": {},
   "source": "hi"
  }"#
        );
    }
    Ok(())
}

#[test]
fn a_notebook_without_cells_is_joined_of_no_texts(rt: HostRuntime) -> Result<(), Fail> {
    let n = generate(rt.alloc(), 0)?;
    let whole = text(rt.alloc(), &n)?;
    assert_eq!(rt;
        joined_text(&rt, &n)?.as_str(),
        shown(&rt, whole.bytes())?.as_str()
    );
    Ok(())
}

/// A line a generated cell: its id and its source.
const GENERATED: &str = "g0 print 0
g1 show d 1
g2 update d 2
g3 result 3
g4 print 4
g5 show d 5
g6 update d 6
g7 result 7";

#[test]
fn generated_cells_take_turns(rt: HostRuntime) -> Result<(), Fail> {
    let n = generate(rt.alloc(), 8)?;
    assert_eq!(rt; n.cells.len(), 8);
    for (cell, row) in n.cells.as_slice().iter().zip(GENERATED.lines()) {
        let source = code(rt.alloc(), cell)?;
        let found = format!(in rt.alloc(); "{} {}", cell.id.as_str(), source.as_str())?;
        assert_eq!(rt; found.as_str(), row);
    }
    Ok(())
}
