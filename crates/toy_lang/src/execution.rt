//! A text of the toy language, line by line.
ghost use Rattle.std.specs.Prelude.{◌≡◌, IfOk, OnOk};
ghost use Rattle.toy_lang.specs.Runs as spec;

use crate::deed::Deed;
use crate::line::deed;
use crate::{Effect, Effects, State};
use jtext::{NoMemory, Text};

/// Runs the text line by line from the variables that stand, and answers its effects in their
/// order; an error or the end of the kernel is the last one. After `NoMemory` nothing is said of
/// the state.
pub fn run(s: &mut State, text: &Text) -> Result<Effects, NoMemory>
    ensures effects { IfOk result (λ effects. effects ≡ spec.effects s.old text.now) }
    ensures variables { OnOk result (s.new ≡ spec.variables_after s.old text.now) }
{
    let mut effects = Effects::new(s.alloc());
    for line in text.as_str().split('\n') {
        match deed(s, line)? {
            Deed::Pass => {}
            Deed::Set { name, value } => {
                s.set(name, value)?;
            }
            Deed::Give(effect) => {
                let last = is_last(&effect);
                effects.push(effect)?;
                if last {
                    return Ok(effects);
                }
            }
        }
    }
    Ok(effects)
}

/// Whether nothing follows the effect.
fn is_last(effect: &Effect) -> bool
    ensures { result ≡ spec.is_last effect.now }
{
    matches!(effect, Effect::Raise { .. } | Effect::Die)
}
