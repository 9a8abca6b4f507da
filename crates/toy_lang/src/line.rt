//! What a line of the toy language does.
ghost use Rattle.std.specs.Prelude.{◌≡◌, [], ◌∷◌, ◌++◌, option_map, IfOk};
ghost use Rattle.std.specs.List.{list_all};
ghost use Rattle.toy_lang.specs.Lines as spec;

use crate::deed::Deed;
use crate::expression::{Value, begins_with, evaluate};
use crate::statement::statement;
use crate::verb::Verb;
use crate::{Effect, State};
use jtext::{NoMemory, Text, short_number};
use std::alloc::Global;

/// What the line does where the variables are these.
pub(crate) fn deed(s: &State, line: &str) -> Result<Deed, NoMemory>
    ensures { IfOk result (λ d. d ≡ spec.deed s.now line.now) }
{
    if let Some(deed) = plain_deed(line) {
        return Ok(deed);
    }
    match statement(line) {
        Some((verb, word, expression)) => deed_of_statement(s, line, verb, word, expression),
        None => syntax_error(s.alloc(), line),
    }
}

/// What a line without an expression does.
fn plain_deed(line: &str) -> Option<Deed>
    ensures { result ≡ spec.plain_deed line.now }
{
    if is_passed(line.as_bytes()) {
        return Some(Deed::Pass);
    }
    match line {
        "clear" => Some(Deed::Give(Effect::Clear { later: false })),
        "clearwait" => Some(Deed::Give(Effect::Clear { later: true })),
        "die" => Some(Deed::Give(Effect::Die)),
        _ => sleep(line),
    }
}

/// Whether the line is blank or a comment.
fn is_passed(line: &[u8]) -> bool
    ensures { result ≡ spec.is_passed line.now }
{
    begins_with(line, b'#') || is_blank(line)
}

fn is_blank(line: &[u8]) -> bool
    ensures { result ≡ list_all spec.is_blank_byte line.now }
{
    line.iter().all(|c| *c == b' ' || *c == b'\t')
}

fn sleep(line: &str) -> Option<Deed>
    ensures { result ≡ spec.sleep line.now }
{
    let ms = short_number(strip_sleep(line)?.as_bytes())?;
    Some(Deed::Give(Effect::Sleep { ms }))
}

fn strip_sleep(line: &str) -> Option<&str>
    ensures { option_map (λ r. r.now) result ≡ spec.strip_sleep line.now }
{
    line.strip_prefix("sleep ")
}

/// What a line with an expression does.
fn deed_of_statement(
    s: &State,
    line: &str,
    verb: Verb,
    word: &str,
    expression: &str,
) -> Result<Deed, NoMemory>
    ensures { IfOk result (λ d.
        d ≡ spec.deed_of_statement s.now line.now (verb, word.now, expression.now)) }
{
    match evaluate(s, expression)? {
        Value::Of(text) => deed_of_value(s.alloc(), verb, word, text),
        Value::Unset => name_error(s.alloc(), expression),
        Value::Malformed => syntax_error(s.alloc(), line),
    }
}

/// What is done with a value.
fn deed_of_value(alloc: Global, verb: Verb, word: &str, text: Text) -> Result<Deed, NoMemory>
    ensures { IfOk result (λ d. d ≡ spec.deed_of_value verb word.now text) }
{
    let deed = match verb {
        Verb::Assign => Deed::Set {
            name: Text::of(alloc, word)?,
            value: text,
        },
        Verb::Print => Deed::Give(Effect::Print {
            err: false,
            text: with_line_end(alloc, &text)?,
        }),
        Verb::PrintError => Deed::Give(Effect::Print {
            err: true,
            text: with_line_end(alloc, &text)?,
        }),
        Verb::Show => Deed::Give(Effect::Show {
            id: Text::of(alloc, word)?,
            text,
            update: false,
        }),
        Verb::Update => Deed::Give(Effect::Show {
            id: Text::of(alloc, word)?,
            text,
            update: true,
        }),
        Verb::Conclude => Deed::Give(Effect::Outcome { text }),
        Verb::Raise => Deed::Give(Effect::Raise {
            ename: Text::of(alloc, word)?,
            evalue: text,
        }),
    };
    Ok(deed)
}

/// The text with a line end.
fn with_line_end(alloc: Global, text: &Text) -> Result<Text, NoMemory>
    ensures { IfOk result (λ r. r ≡ text.now ++ 10 ∷ []) }
{
    let mut out = String::new(alloc);
    out.push_str(text.as_str())?;
    out.push_str("\n")?;
    Ok(Text::of_string(out))
}

fn name_error(alloc: Global, name: &str) -> Result<Deed, NoMemory>
    ensures { IfOk result (λ d. d ≡ spec.name_error name.now) }
{
    Ok(Deed::Give(Effect::Raise {
        ename: Text::of(alloc, "NameError")?,
        evalue: Text::of(alloc, name)?,
    }))
}

fn syntax_error(alloc: Global, line: &str) -> Result<Deed, NoMemory>
    ensures { IfOk result (λ d. d ≡ spec.syntax_error line.now) }
{
    Ok(Deed::Give(Effect::Raise {
        ename: Text::of(alloc, "SyntaxError")?,
        evalue: Text::of(alloc, line)?,
    }))
}
