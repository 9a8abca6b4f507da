//! Scripts of what a client of a toy kernel does, each line with what it finds.
use crate::pair::Pair;
use crate::requests::KEY;
use jtext::{NoMemory, Text};
use std::alloc::Global;
use toy_core::Toy;

/// A toy kernel to which nobody is connected.
fn toy(alloc: Global) -> Result<Pair<Toy>, NoMemory> {
    let kernel = Toy::new(alloc, &Text::of(alloc, KEY)?)?;
    Ok(Pair::new(alloc, kernel))
}

/// The script as it goes: each line that begins with no space is done, and what is found stands in
/// lines below it that begin with one.
pub(crate) fn played(alloc: Global, script: &str) -> Result<String, NoMemory> {
    let mut pair = toy(alloc)?;
    let mut out = String::new(alloc);
    for line in script.lines() {
        if line.starts_with(' ') {
            continue;
        }
        out.push_str(line)?;
        out.push_str("\n")?;
        let (verb, rest) = line.split_once(' ').unwrap_or((line, ""));
        if verb == "new" {
            pair = toy(alloc)?;
        } else {
            pair.play(verb, rest, &mut out)?;
        }
    }
    Ok(out)
}
