//! Bundles: data by MIME type.
ghost use Rattle.std.specs.Prelude.{◌≡◌, IfOk};
ghost use Rattle.jcontent.specs.Bundle as bundles;

use jtext::{Fields, Json, NoMemory, copy, field, is_bundle};
use std::alloc::Global;

/// A copy of the bundle under `data`; `None` where there is none.
pub(crate) fn bundle_at(alloc: Global, t: &Json) -> Result<Option<Fields>, NoMemory>
    ensures { IfOk result (λ r. r ≡ bundles.bundle_at t.now) }
{
    match field(t, "data") {
        Some(v) => bundle(alloc, v),
        None => Ok(None),
    }
}

fn bundle(alloc: Global, v: &Json) -> Result<Option<Fields>, NoMemory>
    ensures { IfOk result (λ r. r ≡ bundles.bundle v.now) }
{
    if is_bundle(v) {
        Ok(object(copy(alloc, v)?))
    } else {
        Ok(None)
    }
}

fn object(t: Json) -> Option<Fields>
    ensures { result ≡ bundles.pairs t }
{
    match t {
        Json::Obj(fields) => Some(fields),
        _ => None,
    }
}
