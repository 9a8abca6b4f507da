//! The arguments of a kernel's program.
ghost use Rattle.std.specs.Prelude.{◌≤◌, length, IfOk};
ghost use Rattle.kspec.specs.Arguments.{IsFilled, AreFilled, Puts};

use crate::Spec;
use jtext::{NoMemory, Text, Texts};
use std::alloc::Global;

/// The arguments of the kernel's program, which comes first: in those of the spec each
/// `{connection_file}` is replaced by `file` and each `{resource_dir}` by `folder`, from the left.
/// What was put in is not read again.
pub fn argv(alloc: Global, s: &Spec, file: &Text, folder: &Text) -> Result<Texts, NoMemory>
    ensures { IfOk result (λ words. AreFilled file.now folder.now s.now.argv words) }
{
    let mut words = Texts::new(alloc);
    for word in s.argv.as_slice() {
        words.push(fill(alloc, word.as_str(), file.as_str(), folder.as_str())?)?;
    }
    Ok(words)
}

/// The word with each name replaced.
fn fill(alloc: Global, word: &str, file: &str, folder: &str) -> Result<Text, NoMemory>
    ensures { IfOk result (λ text. IsFilled file.now folder.now word.now text) }
{
    let mut out = String::new(alloc);
    let mut rest = word;
    while let Some((front, after)) = rest.split_once('{') {
        let (put, left) = put_in(after, file, folder);
        out.push_str(front)?;
        out.push_str(put)?;
        rest = left;
    }
    out.push_str(rest)?;
    Ok(Text::of_string(out))
}

/// What is put in for a brace and the name behind it, and the text that is read on.
fn put_in<'a>(after: &'a str, file: &'a str, folder: &'a str) -> (&'a str, &'a str)
    ensures puts { Puts file.now folder.now after.now result.0.now result.1.now }
    ensures within { length result.1.now ≤ length after.now }
{
    if let Some(rest) = after.strip_prefix("connection_file}") {
        (file, rest)
    } else if let Some(rest) = after.strip_prefix("resource_dir}") {
        (folder, rest)
    } else {
        ("{", after)
    }
}
