//! The value of a parameter that is given as a word.
ghost use Rattle.std.specs.Prelude.{◌≡◌, IfOk};
ghost use Rattle.jtext.specs.declared.json.Json.TheVariants as json;
ghost use Rattle.words.specs.Values as spec;

use jtext::{Json, NoMemory, NumFault, NumText, Text};
use std::alloc::Global;

/// The value that a word stands for: `True`, `False` and `None` are `true`, `false` and `null`, a
/// text of JSON's number grammar (RFC 8259, section 6) is that number, and any other text is the
/// string.
pub fn value_of(alloc: Global, t: &str) -> Result<Json, NoMemory>
    ensures value { IfOk result (λ v. v ≡ spec.value_of t.now) }
    ensures means { IfOk result (λ v. spec.IsValue t.now v) }
{
    value_of_word(alloc, t)
}

fn value_of_word(alloc: Global, t: &str) -> Result<Json, NoMemory>
    ensures { IfOk result (λ v. v ≡ spec.value_of t.now) }
{
    match t {
        "True" => Ok(Json::Bool(true)),
        "False" => Ok(Json::Bool(false)),
        "None" => Ok(Json::Null),
        _ => number_or_text(alloc, t),
    }
}

fn number_or_text(alloc: Global, t: &str) -> Result<Json, NoMemory>
    ensures { IfOk result (λ v. v ≡ spec.number_or_text t.now) }
{
    match NumText::of(alloc, t) {
        Ok(number) => Ok(Json::Num(number)),
        Err(NumFault::NotNumber) => Ok(Json::Str(Text::of(alloc, t)?)),
        Err(NumFault::NoMemory) => Err(NoMemory),
    }
}
