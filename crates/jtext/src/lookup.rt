//! The value of a key.
ghost use Rattle.std.specs.Prelude.{◌≡◌, IfOk, option_map};
ghost use Rattle.jtext.specs.Find as spec;
ghost use Rattle.jtext.specs.Look as look;

use crate::{Json, NoMemory, Text};
use std::alloc::Global;

/// The value of the first pair with that key, and `None` where `t` is no object or lacks it.
pub fn field<'a>(t: &'a Json, key: &str) -> Option<&'a Json>
    ensures { option_map (λ r. r.now) result ≡ spec.field t.now key.now }
{
    let Json::Obj(fields) = t else {
        return None;
    };
    for pair in fields.as_slice() {
        if pair.0.as_str() == key {
            return Some(&pair.1);
        }
    }
    None
}

/// The string under a key, and `None` where there is none.
pub fn string_at<'a>(t: &'a Json, key: &str) -> Option<&'a Text>
    ensures { option_map (λ r. r.now) result ≡ look.string_at t.now key.now }
{
    field(t, key)?.as_text()
}

/// A copy of the string under a key, and `None` where there is none.
pub fn text_at(alloc: Global, t: &Json, key: &str) -> Result<Option<Text>, NoMemory>
    ensures { IfOk result (λ r. r ≡ look.string_at t.now key.now) }
{
    match string_at(t, key) {
        Some(text) => Ok(Some(Text::of(alloc, text.as_str())?)),
        None => Ok(None),
    }
}

/// Whether `true` stands under the key.
pub fn is_true_at(t: &Json, key: &str) -> bool
    ensures { result ≡ look.is_true_at t.now key.now }
{
    field(t, key).is_some_and(|v| v.is_true())
}
