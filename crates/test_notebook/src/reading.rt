//! Notebooks and objects of texts, and the texts of trees.
use jtext::{Fields, Json, read, write_compact};
use nb_model::{Notebook, of_json};
use std::test::Fail;

/// The notebook of that text.
pub(crate) fn notebook(rt: &HostRuntime, text: &str) -> Result<Notebook, Fail> {
    Ok(of_json(rt.alloc(), read(rt.alloc(), text.as_bytes(), 128)?)?)
}

/// The pairs of the object of that text, and none of another value.
pub(crate) fn pairs(rt: &HostRuntime, text: &str) -> Result<Fields, Fail> {
    match read(rt.alloc(), text.as_bytes(), 128)? {
        Json::Obj(pairs) => Ok(pairs),
        _ => Ok(Fields::new(rt.alloc())),
    }
}

/// The compact text of the tree.
pub(crate) fn compact(rt: &HostRuntime, tree: &Json) -> Result<String, Fail> {
    let text = write_compact(rt.alloc(), tree)?;
    Ok(String::from_utf8_lossy(rt.alloc(), text.bytes())?)
}
