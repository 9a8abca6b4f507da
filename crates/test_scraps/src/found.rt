//! The scraps of notebooks of texts, as JSON.
use jtext::{Json, read, write_compact};
use nb_model::of_json;
use scrap_book::scraps;
use std::test::Fail;

/// The scraps of a notebook of these cells, as the text of an object.
pub(crate) fn found(rt: &HostRuntime, cells: &str) -> Result<String, Fail> {
    let alloc = rt.alloc();
    let text = format!(in alloc;
        "{{\"cells\":[{cells}],\"metadata\":{{}},\"nbformat\":4,\"nbformat_minor\":5}}"
    )?;
    let n = of_json(alloc, read(alloc, text.as_str().as_bytes(), 128)?)?;
    let pairs = write_compact(alloc, &Json::Obj(scraps(alloc, &n)?))?;
    Ok(String::from_utf8_lossy(alloc, pairs.bytes())?)
}

/// The text of a code cell with this id and these outputs.
pub(crate) fn cell(rt: &HostRuntime, id: &str, outputs: &str) -> Result<String, Fail> {
    Ok(format!(in rt.alloc();
        "{{\"cell_type\":\"code\",\"execution_count\":null,\"id\":\"{id}\",\"metadata\":{{}},\"outputs\":[{outputs}],\"source\":\"\"}}"
    )?)
}

/// The scraps of a notebook with one cell of these outputs.
pub(crate) fn found_in(rt: &HostRuntime, outputs: &str) -> Result<String, Fail> {
    found(rt, cell(rt, "a", outputs)?.as_str())
}

/// The scraps of a notebook with one stream of that name and text, which is JSON.
pub(crate) fn printed(rt: &HostRuntime, name: &str, text: &str) -> Result<String, Fail> {
    let output = format!(in rt.alloc();
        "{{\"name\":\"{name}\",\"output_type\":\"stream\",\"text\":{text}}}"
    )?;
    found_in(rt, output.as_str())
}
