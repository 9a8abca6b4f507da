//! Copies of texts, pairs and files.
ghost use Rattle.std.specs.Prelude.{◌≡◌, IfOk};

use crate::Files;
use jtext::{Bytes, Fields, NoMemory, Text, Texts};
use std::alloc::Global;

/// A text equal to this one.
pub(crate) fn copy_text(alloc: Global, text: &Text) -> Result<Text, NoMemory>
    ensures { IfOk result (λ t. t ≡ text.now) }
{
    Text::of(alloc, text.as_str())
}

/// Texts equal to these.
pub(crate) fn copy_texts(alloc: Global, texts: &Texts) -> Result<Texts, NoMemory>
    ensures { IfOk result (λ r. r ≡ texts.now) }
{
    let mut copy = Texts::new(alloc);
    for text in texts.as_slice() {
        copy.push(copy_text(alloc, text)?)?;
    }
    Ok(copy)
}

/// Pairs of a key and a value equal to these.
pub(crate) fn copy_fields(alloc: Global, fields: &Fields) -> Result<Fields, NoMemory>
    ensures { IfOk result (λ r. r ≡ fields.now) }
{
    let mut copy = Fields::new(alloc);
    for (key, value) in fields.as_slice() {
        copy.push((copy_text(alloc, key)?, jtext::copy(alloc, value)?))?;
    }
    Ok(copy)
}

/// Files equal to these.
pub(crate) fn copy_files(alloc: Global, files: &Files) -> Result<Files, NoMemory>
    ensures { IfOk result (λ r. r ≡ files.now) }
{
    let mut copy = Files::new(alloc);
    for (path, bytes) in files.as_slice() {
        copy.push((copy_text(alloc, path)?, Bytes::of(alloc, bytes.bytes())?))?;
    }
    Ok(copy)
}
