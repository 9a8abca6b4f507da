//! Lists of texts and counts in a content.
ghost use Rattle.std.specs.Prelude.{◌≡◌, IfOk, option_map};
ghost use Rattle.jtext.specs.Look as look;
ghost use Rattle.jcontent.specs.Texts as texts;

use jtext::{Json, NoMemory, NumText, Texts, field, is_whole_text, texts_of};
use std::alloc::Global;

/// A copy of the list of strings at the key; `None` where there is none.
pub(crate) fn texts_at(alloc: Global, t: &Json, key: &str) -> Result<Option<Texts>, NoMemory>
    ensures { IfOk result (λ r. r ≡ texts.texts_at t.now key.now) }
{
    match field(t, key) {
        Some(v) => texts(alloc, v),
        None => Ok(None),
    }
}

fn texts(alloc: Global, v: &Json) -> Result<Option<Texts>, NoMemory>
    ensures { IfOk result (λ r. r ≡ texts.texts v.now) }
{
    if v.is_strings() {
        Ok(Some(texts_of(alloc, v.items())?))
    } else {
        Ok(None)
    }
}

/// The execution count that the content tells.
pub(crate) fn count(alloc: Global, t: &Json) -> Result<Option<NumText>, NoMemory>
    ensures { IfOk result (λ r. r ≡ texts.count t.now) }
{
    match found_number(t, "execution_count") {
        Some(text) => {
            if is_whole_text(text.as_str().as_bytes()) {
                Ok(Some(NumText::of_number(alloc, text.as_str())?))
            } else {
                Ok(None)
            }
        }
        None => Ok(None),
    }
}

fn found_number<'a>(t: &'a Json, key: &str) -> Option<&'a NumText>
    ensures { option_map (λ r. r.now) result ≡ look.number_at t.now key.now }
{
    field(t, key)?.as_number()
}
