//! Notebooks of older formats, raised and refused.
use jtext::{Text, read};
use nb_migrate::of_any;
use nb_model::NbFault;
use std::test::Fail;

/// The id of the first cell, or why the notebook is refused.
fn first_id(rt: &HostRuntime, text: &str) -> Result<Text, Fail> {
    let alloc = rt.alloc();
    let Ok(t) = read(alloc, text.as_bytes(), 128) else {
        return Ok(Text::of(alloc, "no tree")?);
    };
    match of_any(alloc, t) {
        Ok(n) => match n.cells.get(0) {
            Some(cell) => Ok(Text::of(alloc, cell.id.as_str())?),
            None => Ok(Text::new(alloc)),
        },
        Err(NbFault::Version) => Ok(Text::of(alloc, "version")?),
        Err(NbFault::Shape { pointer }) => Ok(pointer),
        Err(NbFault::SameId { id }) => Ok(id),
        Err(NbFault::NoMemory) => Ok(Text::of(alloc, "no memory")?),
    }
}

/// A line a notebook: the id of its first cell, or why it is refused, and its text.
const NOTEBOOKS: &str =
    r#"cell-0 {"cells":[{"cell_type":"markdown","metadata":{},"source":"hi"}],"metadata":{},"nbformat":4,"nbformat_minor":4}
cell-0 {"cells":[{"cell_type":"raw","id":"mine","metadata":{},"source":""}],"metadata":{},"nbformat":4,"nbformat_minor":0}
mine {"cells":[{"cell_type":"raw","id":"mine","metadata":{},"source":""}],"metadata":{},"nbformat":4,"nbformat_minor":5}
version {"cells":[],"metadata":{},"nbformat":4,"nbformat_minor":6}
version {"cells":[],"metadata":{},"nbformat":3,"nbformat_minor":4}
/cells/0 {"cells":[{"cell_type":"code","execution_count":null,"metadata":{},"source":""}],"metadata":{},"nbformat":4,"nbformat_minor":2}"#;

#[test]
fn older_notebooks_are_raised_and_other_versions_refused(rt: HostRuntime) -> Result<(), Fail> {
    for row in NOTEBOOKS.lines() {
        let (expected, text) = row.split_once(' ').ok_or("an answer is missing")?;
        assert_eq!(rt; first_id(&rt, text)?.as_str(), expected, "{row}");
    }
    Ok(())
}
