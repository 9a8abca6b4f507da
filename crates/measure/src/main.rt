//! Times the layers of nbrun on inputs that bench/ makes: `measure json FILE`, `measure loop TURNS`,
//! `measure messages COUNT SIZE`, `measure fold COUNT CELLS`, `measure takes OUTPUTS COUNT`,
//! `measure updates CELLS COUNT`, `measure frames SIZE PIECE COUNT` and `measure saves FIRST SECOND OUTPUT`.
//! Each line that it prints is a name and milliseconds, of the last three microseconds; of `loop` nanoseconds
//! a turn and microseconds of 64 MiB.
#![tactic(auto)]

mod fold;
mod frames;
mod loops;
mod messages;
mod saves;
mod spout;
mod steps;
mod texts;

use anyhow::{Result, bail};
use std::env;

const USAGE: &str =
    "measure json FILE | loop TURNS | messages COUNT SIZE | fold COUNT CELLS | takes OUTPUTS COUNT | updates CELLS COUNT | frames SIZE PIECE COUNT | saves FIRST SECOND OUTPUT";

fn main(rt: HostRuntime) -> Result<()> {
    let mut args = env::args(&rt)?;
    args.next();
    let words: Vec<String> = args.collect(rt.alloc())?;
    run(&rt, words.as_slice())
}

fn run(rt: &HostRuntime, words: &[String]) -> Result<()> {
    match words {
        [] => usage(rt),
        [kind, value] => one(rt, kind.as_str(), value.as_str()),
        [kind, first, second] => two(rt, kind.as_str(), first.as_str(), second.as_str()),
        [kind, first, second, third] => three(
            rt,
            kind.as_str(),
            first.as_str(),
            second.as_str(),
            third.as_str(),
        ),
        _ => bail!("{USAGE}"),
    }
}

fn usage(rt: &HostRuntime) -> Result<()> {
    println!(rt; "{USAGE}")?;
    Ok(())
}

fn one(rt: &HostRuntime, kind: &str, value: &str) -> Result<()> {
    match kind {
        "json" => texts::measure(rt, value),
        "loop" => loops::measure(rt, number(value)?),
        _ => bail!("{USAGE}"),
    }
}

fn two(rt: &HostRuntime, kind: &str, first: &str, second: &str) -> Result<()> {
    let (first, second) = (number(first)?, number(second)?);
    match kind {
        "messages" => messages::measure(rt, first, second),
        "fold" => fold::measure(rt, first, second),
        "takes" => fold::measure_takes(rt, first, second),
        "updates" => fold::measure_updates(rt, first, second),
        _ => bail!("{USAGE}"),
    }
}

fn three(rt: &HostRuntime, kind: &str, first: &str, second: &str, third: &str) -> Result<()> {
    match kind {
        "frames" => frames::measure(rt, number(first)?, number(second)?, number(third)?),
        "saves" => saves::measure_files(rt, first, second, third),
        _ => bail!("{USAGE}"),
    }
}

fn number(word: &str) -> Result<u32> {
    match word.parse::<u32>() {
        Ok(n) => Ok(n),
        Err(_) => bail!("{word} is no number"),
    }
}
