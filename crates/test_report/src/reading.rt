//! Notebooks of texts, and texts of bytes.
use jtext::{Bytes, read};
use nb_model::{Notebook, of_json};
use std::test::Fail;

/// The notebook of that text.
pub(crate) fn notebook(rt: &HostRuntime, text: &str) -> Result<Notebook, Fail> {
    Ok(of_json(rt.alloc(), read(rt.alloc(), text.as_bytes(), 128)?)?)
}

/// The bytes as text.
pub(crate) fn shown(rt: &HostRuntime, bytes: &Bytes) -> Result<String, Fail> {
    Ok(String::from_utf8_lossy(rt.alloc(), bytes.bytes())?)
}

/// The text of a notebook with these cells.
pub(crate) fn with_cells(rt: &HostRuntime, cells: &str) -> Result<Notebook, Fail> {
    let text = format!(in rt.alloc();
        "{{\"cells\":[{cells}],\"metadata\":{{}},\"nbformat\":4,\"nbformat_minor\":5}}"
    )?;
    notebook(rt, text.as_str())
}
