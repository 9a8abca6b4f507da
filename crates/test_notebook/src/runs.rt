//! Notebooks as they are read, prepared and planned.
use crate::reading::{compact, notebook};
use jtext::NoMemory;
use nb_model::{Cell, Kind, Notebook, code, plan, prepare, tagged};
use samples::notebooks::{LAB, TWO};
use std::alloc::Global;
use std::process::Abort;
use std::test::Fail;

/// A line a cell of `LAB`: kind, id, count, outputs, whether it is tagged `parameters`, and its source.
const CELLS: &str = r#"Markdown 5ad6f3b2-9d55-4b0c-8b3f-3a1f0b1f7c11 - 0 no # Title|text
Code 0c1b7e0e-93f1-4c5c-a7ad-0d5b8a1a2f6c 3 1 yes a = 1|plot(a)"#;

/// The source of the cell in one line.
fn source_line(alloc: Global, cell: &Cell) -> Result<String, NoMemory> {
    let source = code(alloc, cell)?;
    Ok(source.as_str().replace(alloc, "\n", "|")?)
}

/// The cell as in the rows of `CELLS`.
fn row_of(alloc: Global, cell: &Cell) -> Result<String, NoMemory> {
    let count = match &cell.count {
        Some(count) => count.as_str(),
        None => "-",
    };
    let tag = if tagged(cell, "parameters") {
        "yes"
    } else {
        "no"
    };
    let source = source_line(alloc, cell)?;
    Ok(format!(in alloc;
        "{:?} {} {count} {} {tag} {source}",
        cell.kind,
        cell.id.as_str(),
        cell.outputs.len()
    )?)
}

fn is_row(alloc: Global, cell: &Cell, row: &str) -> Result<bool, NoMemory> {
    let found = row_of(alloc, cell)?;
    Ok(found.as_str() == row)
}

/// The notebook has the cells of the rows, of which none is planned.
fn compare_cells(rt: &impl Abort, alloc: Global, n: &Notebook) -> Result<(), NoMemory> {
    assert_eq!(rt; n.cells.len(), 2);
    for (cell, row) in n.cells.as_slice().iter().zip(CELLS.lines()) {
        assert!(rt; is_row(alloc, cell, row)?, "{row}");
    }
    assert!(rt; plan(alloc, n)?.is_empty());
    Ok(())
}

#[test]
fn a_saved_notebook_is_read(rt: HostRuntime) -> Result<(), Fail> {
    let n = notebook(&rt, LAB)?;
    let end = compare_cells(&rt, rt.alloc(), &n);
    drop(n);
    Ok(end?)
}

/// Two code cells and a markdown cell, which have marks, counts and outputs of an earlier run.
const USED: &str =
    r#"{"cells":[{"cell_type":"code","execution_count":7,"id":"a","metadata":{"papermill":1,"x":2},"outputs":[{"output_type":"stream","name":"stdout","text":"1"}],"source":"print 1"},{"cell_type":"code","execution_count":null,"id":"b","metadata":{},"outputs":[],"source":["result 2"]},{"cell_type":"markdown","id":"c","metadata":{"papermill":{"status":"failed"}},"source":"x"}],"metadata":{"papermill":{"exception":true,"parameters":{"p":1}},"kernelspec":{"display_name":"Toy","name":"toy"}},"nbformat":4,"nbformat_minor":5}"#;

/// A line a cell: how many outputs it has, its count, its source and its metadata.
fn cell_lines(rt: &HostRuntime, n: &Notebook) -> Result<String, Fail> {
    let mut lines = String::new(rt.alloc());
    for cell in n.cells.as_slice() {
        let count = match &cell.count {
            Some(count) => count.as_str(),
            None => "null",
        };
        let source = compact(rt, &cell.source)?;
        let metadata = compact(rt, &cell.metadata)?;
        let line = format!(in rt.alloc(); "{} {count} {source} {metadata}\n", cell.outputs.len())?;
        lines.push_str(line.as_str())?;
    }
    Ok(lines)
}

#[test]
fn preparation_clears_and_marks(rt: HostRuntime) -> Result<(), Fail> {
    let n = prepare(rt.alloc(), notebook(&rt, USED)?)?;
    let metadata =
        r#"{"papermill":{"exception":null,"parameters":{"p":1}},"kernelspec":{"display_name":"Toy","name":"toy"}}"#;
    assert_eq!(rt; compact(&rt, &n.metadata)?.as_str(), metadata);
    assert_eq!(rt; n.cells.len(), 3);
    let cells = r#"0 null "print 1" {"papermill":{"exception":null,"status":"pending"},"x":2}
0 null ["result 2"] {"papermill":{"exception":null,"status":"pending"}}
0 null "x" {"papermill":{"exception":null,"status":"pending"}}
"#;
    assert_eq!(rt; cell_lines(&rt, &n)?.as_str(), cells);
    Ok(())
}

#[test]
fn preparation_marks_what_has_no_mark(rt: HostRuntime) -> Result<(), Fail> {
    let n = prepare(rt.alloc(), notebook(&rt, TWO)?)?;
    let metadata =
        r#"{"kernelspec":{"display_name":"Toy","name":"toy"},"papermill":{"exception":null}}"#;
    assert_eq!(rt; compact(&rt, &n.metadata)?.as_str(), metadata);
    assert_eq!(rt; n.cells.len(), 2);
    let cells = r#"0 null "print 1" {"papermill":{"exception":null,"status":"pending"}}
0 null ["result 2"] {"papermill":{"exception":null,"status":"pending"}}
"#;
    assert_eq!(rt; cell_lines(&rt, &n)?.as_str(), cells);
    Ok(())
}

#[test]
fn a_mark_that_is_no_object_becomes_one(rt: HostRuntime) -> Result<(), Fail> {
    let text = r#"{"cells":[],"metadata":{"papermill":"x"},"nbformat":4,"nbformat_minor":5}"#;
    let n = prepare(rt.alloc(), notebook(&rt, text)?)?;
    assert_eq!(rt;
        compact(&rt, &n.metadata)?.as_str(),
        r#"{"papermill":{"exception":null}}"#
    );
    Ok(())
}

/// A line a cell: whether it is executed, its kind, its tag, and its source as JSON.
const SOURCES: &str = r#"yes code x "a"
no code skip-execution "a"
yes code skip-execution2 "a"
no markdown x "a"
no raw x "a"
no code x ""
no code x []
no code x " \t\n\r\u000b\f"
no code x ["\u0085\u00a0","\u1680\u2000\u2028\u3000"]
yes code x "\u200b"
yes code x ["\n"," b"]
yes code x "\u0000""#;

/// A notebook of one cell.
fn of_source(rt: &HostRuntime, kind: &str, tag: &str, source: &str) -> Result<Notebook, Fail> {
    let more = if kind == "code" {
        r#","outputs":[],"execution_count":null"#
    } else {
        ""
    };
    let text = format!(in rt.alloc();
        "{{\"cells\":[{{\"cell_type\":\"{kind}\",\"id\":\"a\",\"metadata\":{{\"tags\":[\"{tag}\"]}},\"source\":{source}{more}}}],\"metadata\":{{}},\"nbformat\":4,\"nbformat_minor\":5}}"
    )?;
    notebook(rt, text.as_str())
}

#[test]
fn the_plan_leaves_out_blank_and_skipped_cells(rt: HostRuntime) -> Result<(), Fail> {
    for row in SOURCES.lines() {
        let (planned, rest) = row.split_once(' ').ok_or("a word is missing")?;
        let (kind, rest) = rest.split_once(' ').ok_or("a kind is missing")?;
        let (tag, source) = rest.split_once(' ').ok_or("a tag is missing")?;
        let n = of_source(&rt, kind, tag, source)?;
        assert_eq!(rt; n.cells.len(), 1);
        assert!(rt;
            (plan(rt.alloc(), &n)?.len() == 1) == (planned == "yes"),
            "{row}"
        );
    }
    Ok(())
}

#[test]
fn the_plan_has_the_places_of_its_cells(rt: HostRuntime) -> Result<(), Fail> {
    let n = notebook(&rt, USED)?;
    assert_eq!(rt; n.cells.len(), 3);
    let planned = plan(rt.alloc(), &n)?;
    assert_eq!(rt; planned.as_slice(), [0, 1].as_slice());
    Ok(())
}
