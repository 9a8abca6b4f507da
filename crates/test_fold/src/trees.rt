//! Trees as texts.
use jtext::{Bytes, Json, NoMemory, write_compact};
use std::alloc::Global;

/// The tree in one line. The tree is dropped by a call, for a short proof.
pub(crate) fn tree_text(alloc: Global, tree: Json) -> Result<Bytes, NoMemory> {
    let text = write_compact(alloc, &tree);
    drop(tree);
    text
}
