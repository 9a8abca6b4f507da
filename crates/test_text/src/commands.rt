//! Command lines as texts, whose words single spaces part.
use jtext::NoMemory;
use std::test::Fail;
use words::{Command, read};

/// The words of the line.
pub(crate) fn words_of(rt: &HostRuntime, line: &str) -> Result<Vec<String>, NoMemory> {
    let mut words = Vec::new(rt.alloc());
    for word in line.split(' ') {
        words.push(String::from_str(rt.alloc(), word)?)?;
    }
    Ok(words)
}

/// What the line asks for.
pub(crate) fn command_of(rt: &HostRuntime, line: &str) -> Result<Command, Fail> {
    let words = words_of(rt, line)?;
    let command = read(rt.alloc(), words.as_slice());
    drop(words);
    Ok(command.map_err(|_| "the words are refused")?)
}
