//! The parameters of a command line.
ghost use Rattle.std.specs.Prelude.{◌≡◌, [], map, string_bytes, IfOk};
ghost use Rattle.words.specs.Parameters as spec;

use crate::choice::Choice;
use crate::part::{Part, word};
use crate::value_of;
use jtext::{Fields, NoMemory, set_pair, string};
use std::alloc::Global;

/// The parameters that the parts give, a later value of a name in the place of the earlier one.
pub(crate) fn parameters(
    alloc: Global,
    words: &[String],
    parts: &[Part],
) -> Result<Fields, NoMemory>
    ensures { IfOk result (λ r.
        r ≡ spec.parameters_from (map string_bytes words.now) [] parts.now) }
{
    let mut fields = Fields::new(alloc);
    for part in parts {
        if part.kind.is_choice(Choice::Parameter) {
            let value = value_of(alloc, word(words, part.second))?;
            set_pair(alloc, &mut fields, word(words, part.first), value)?;
        } else if part.kind.is_choice(Choice::RawParameter) {
            let value = string(alloc, word(words, part.second))?;
            set_pair(alloc, &mut fields, word(words, part.first), value)?;
        }
    }
    Ok(fields)
}
