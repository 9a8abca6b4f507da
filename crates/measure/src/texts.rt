//! Reading a JSON text and writing its tree.
use anyhow::{Result, bail};
use jtext::{Json, read, write_compact, write_indented};
use std::fs;
use std::time::Instant;

/// How deep lists and objects may nest.
const DEEP: u32 = 128;

/// Reads the file, and writes its tree in both forms, each freed before the next.
pub fn measure(rt: &HostRuntime, file: &str) -> Result<()> {
    let tree = parsed(rt, file)?;
    indented(rt, &tree)?;
    compact(rt, &tree)
}

fn parsed(rt: &HostRuntime, file: &str) -> Result<Json> {
    let bytes = fs::read(rt, file)?;
    let start = Instant::now(rt)?;
    let Ok(tree) = read(rt.alloc(), bytes.as_slice(), DEEP) else {
        bail!("{file} was not read");
    };
    let took = start.elapsed(rt)?.as_millis();
    println!(rt; "read {took}")?;
    Ok(tree)
}

fn indented(rt: &HostRuntime, tree: &Json) -> Result<()> {
    let start = Instant::now(rt)?;
    let Ok(text) = write_indented(rt.alloc(), tree) else {
        bail!("no memory");
    };
    let took = start.elapsed(rt)?.as_millis();
    let bytes = text.len();
    println!(rt; "write_indented {took} {bytes}")?;
    Ok(())
}

fn compact(rt: &HostRuntime, tree: &Json) -> Result<()> {
    let start = Instant::now(rt)?;
    let Ok(text) = write_compact(rt.alloc(), tree) else {
        bail!("no memory");
    };
    let took = start.elapsed(rt)?.as_millis();
    let bytes = text.len();
    println!(rt; "write_compact {took} {bytes}")?;
    Ok(())
}
