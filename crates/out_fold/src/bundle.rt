//! Bundles as nbformat stores them.
ghost use Rattle.std.specs.Prelude.{◌≡◌, IfOk};
ghost use Rattle.out_fold.specs.Tree as spec;

use jtext::{Fields, Json, NoMemory, Text, copy};
use nb_model::split_lines;
use std::alloc::Global;

/// The bundle of a message, with the strings of text types as lines.
pub(crate) fn stored_bundle(alloc: Global, bundle: &Fields) -> Result<Json, NoMemory>
    ensures { IfOk result (λ r. r ≡ spec.stored_bundle bundle.now) }
{
    let mut pairs = Fields::new(alloc);
    for (key, value) in bundle.as_slice() {
        pairs.push(stored_pair(alloc, key, value)?)?;
    }
    Ok(Json::Obj(pairs))
}

fn stored_pair(alloc: Global, key: &Text, value: &Json) -> Result<(Text, Json), NoMemory>
    ensures { IfOk result (λ r. r ≡ spec.stored_pair (key.now, value.now)) }
{
    let name = Text::of(alloc, key.as_str())?;
    if is_text_type(key.bytes()) {
        Ok((name, in_lines(alloc, value)?))
    } else {
        Ok((name, copy(alloc, value)?))
    }
}

fn in_lines(alloc: Global, v: &Json) -> Result<Json, NoMemory>
    ensures { IfOk result (λ r. r ≡ spec.in_lines v.now) }
{
    match v {
        Json::Str(text) => split_lines(alloc, text.as_str()),
        Json::Null => copy(alloc, v),
        Json::Bool(_) => copy(alloc, v),
        Json::Num(_) => copy(alloc, v),
        Json::Arr(_) => copy(alloc, v),
        Json::Obj(_) => copy(alloc, v),
    }
}

fn is_text_type(key: &[u8]) -> bool
    ensures { result ≡ spec.is_text_type key.now }
{
    (key.starts_with(b"text/")
        || key == b"application/javascript".as_slice()
        || key == b"image/svg+xml".as_slice())
        && !key.ends_with(b"+json")
}
