//! Neighbouring streams of one name.
ghost use Rattle.std.specs.Prelude.{◌≡◌, ◌≤◌, ◌++◌, length, IfOk, string_bytes, flat_map, is_some, OnOk};
ghost use Rattle.out_fold.specs.Joined as spec;

use jcontent::Content;
use jtext::{NoMemory, Text};
use std::alloc::Global;

/// How many streams of this name come first.
pub(crate) fn run_len(outputs: &[Content], name: &Text) -> usize
    ensures value { result ≡ spec.run_len name.now outputs.now }
    ensures within { result ≤ length outputs.now }
{
    for (i, c) in outputs.iter().enumerate() {
        if !is_stream(c, name) {
            return i;
        }
    }
    outputs.len()
}

fn is_stream(c: &Content, wanted: &Text) -> bool
    ensures { result ≡ is_some (spec.text_of wanted.now c.now) }
{
    match c {
        Content::Stream { name, text: _ } => name.as_str() == wanted.as_str(),
        _ => false,
    }
}

/// The text of a stream and of those that follow it.
pub(crate) fn run_text(alloc: Global, first: &Text, run: &[Content]) -> Result<String, NoMemory>
    ensures { IfOk result (λ r. string_bytes r ≡ first.now ++ flat_map spec.stream_text run.now) }
{
    let mut text = String::from_str(alloc, first.as_str())?;
    for c in run {
        put_text(&mut text, c)?;
    }
    Ok(text)
}

fn put_text(out: &mut String, c: &Content) -> Result<(), NoMemory>
    ensures { OnOk result (string_bytes out.new ≡ string_bytes out.old ++ spec.stream_text c.now) }
{
    match c {
        Content::Stream { name: _, text } => Ok(out.push_str(text.as_str())?),
        _ => Ok(()),
    }
}
