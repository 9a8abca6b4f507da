//! Statements: the lines with an expression.
ghost use Rattle.std.specs.Prelude.{◌≡◌, [], option_map};
ghost use Rattle.jtext.specs.Readings as readings;
ghost use Rattle.toy_lang.specs.Lines as spec;

use crate::verb::Verb;
use jtext::is_name;

/// What the line does with the value of its expression, the name or the display id that stands in
/// it, and the expression, which is the rest of the line.
pub(crate) fn statement(line: &str) -> Option<(Verb, &str, &str)>
    ensures { option_map (λ r. (r.0, r.1.now, r.2.now)) result ≡ spec.statement line.now }
{
    let (word, rest) = split_word(line)?;
    match assignment(word, rest) {
        Some(expression) => Some((Verb::Assign, word, expression)),
        None => command(word, rest),
    }
}

/// The expression of `NAME = EXPR`, behind its first word.
fn assignment<'a>(word: &str, rest: &'a str) -> Option<&'a str>
    ensures { option_map (λ r. r.now) result ≡ spec.assignment word.now rest.now }
{
    if is_name(word.as_bytes()) {
        strip_equals(rest)
    } else {
        None
    }
}

fn strip_equals(rest: &str) -> Option<&str>
    ensures { option_map (λ r. r.now) result ≡ spec.strip_equals rest.now }
{
    rest.strip_prefix("= ")
}

/// A command by its first word.
fn command<'a>(word: &str, rest: &'a str) -> Option<(Verb, &'a str, &'a str)>
    ensures { option_map (λ r. (r.0, r.1.now, r.2.now)) result ≡ spec.command word.now rest.now }
{
    match word {
        "print" => Some((Verb::Print, "", rest)),
        "err" => Some((Verb::PrintError, "", rest)),
        "result" => Some((Verb::Conclude, "", rest)),
        "show" => with_id(Verb::Show, rest),
        "update" => with_id(Verb::Update, rest),
        "raise" => with_name(rest),
        _ => None,
    }
}

/// A display id and the expression behind it.
fn with_id(verb: Verb, rest: &str) -> Option<(Verb, &str, &str)>
    ensures { option_map (λ r. (r.0, r.1.now, r.2.now)) result ≡ spec.with_id verb rest.now }
{
    let (id, expression) = split_word(rest)?;
    if id.is_empty() {
        None
    } else {
        Some((verb, id, expression))
    }
}

/// The name of an error and the expression behind it.
fn with_name(rest: &str) -> Option<(Verb, &str, &str)>
    ensures { option_map (λ r. (r.0, r.1.now, r.2.now)) result ≡ spec.with_name rest.now }
{
    let (name, expression) = split_word(rest)?;
    if is_name(name.as_bytes()) {
        Some((Verb::Raise, name, expression))
    } else {
        None
    }
}

/// What stands before the first space and what stands behind it.
fn split_word(line: &str) -> Option<(&str, &str)>
    ensures { option_map (λ r. (r.0.now, r.1.now)) result ≡ spec.split_word line.now }
{
    line.split_once(' ')
}
