//! Expressions: literals, and the names of variables.
ghost use Rattle.std.specs.Prelude.{◌≡◌, IfOk};
ghost use Rattle.jtext.specs.Names as names;
ghost use Rattle.toy_lang.specs.Expressions as spec;

use crate::State;
use crate::literal::literal_text;
use jtext::{NoMemory, NumFault, NumText, Text, is_name};
use std::alloc::Global;

/// What an expression comes to: a text, no value since no variable has that name, or nothing since
/// it is no expression.
#[derive(Debug, Drop)]
pub(crate) enum Value {
    Of(Text),
    Unset,
    Malformed,
}

/// What the expression comes to where the variables are these.
pub(crate) fn evaluate(s: &State, expression: &str) -> Result<Value, NoMemory>
    ensures { IfOk result (λ v. v ≡ spec.value s.now expression.now) }
{
    let alloc = s.alloc();
    if stands_for_itself(alloc, expression)? {
        return Ok(Value::Of(Text::of(alloc, expression)?));
    }
    if begins_with(expression.as_bytes(), b'"') {
        return value_of_literal(alloc, expression);
    }
    if is_name(expression.as_bytes()) {
        return value_of_name(s, expression);
    }
    Ok(Value::Malformed)
}

fn value_of_literal(alloc: Global, literal: &str) -> Result<Value, NoMemory>
    ensures { IfOk result (λ v. v ≡ spec.value_of_literal literal.now) }
{
    match literal_text(alloc, literal)? {
        Some(text) => Ok(Value::Of(text)),
        None => Ok(Value::Malformed),
    }
}

fn value_of_name(s: &State, name: &str) -> Result<Value, NoMemory>
    ensures { IfOk result (λ v. v ≡ spec.value_of_name s.now name.now) }
{
    match s.value(name) {
        Some(value) => Ok(Value::Of(value.copy(s.alloc())?)),
        None => Ok(Value::Unset),
    }
}

/// Whether the value of the expression is the expression as it is written.
fn stands_for_itself(alloc: Global, expression: &str) -> Result<bool, NoMemory>
    ensures { IfOk result (λ r. r ≡ spec.stands_for_itself expression.now) }
{
    let bytes = expression.as_bytes();
    if is_constant(expression) || begins_with(bytes, b'[') || begins_with(bytes, b'{') {
        return Ok(true);
    }
    is_number(alloc, expression)
}

fn is_constant(word: &str) -> bool
    ensures { result ≡ spec.is_constant word.now }
{
    word == "True" || word == "False" || word == "None"
}

fn is_number(alloc: Global, text: &str) -> Result<bool, NoMemory>
    ensures { IfOk result (λ r. r ≡ names.is_number text.now) }
{
    match NumText::of(alloc, text) {
        Ok(_) => Ok(true),
        Err(NumFault::NotNumber) => Ok(false),
        Err(NumFault::NoMemory) => Err(NoMemory),
    }
}

pub(crate) fn begins_with(text: &[u8], c: u8) -> bool
    ensures { result ≡ spec.begins_with c text.now }
{
    0 < text.len() && text[0] == c
}
