//! What the program does with its words.

use crate::status::{NO_CONNECTION, NO_MEMORY, USAGE, served_status};
use jtext::NoMemory;
use std::alloc::Global;
use std::io::{ErrorKind, Read};
use std::net::Net;
use std::rt::{Clock, Files};
use std::{env, fs, io};
use toy_core::Toy;
use toy_host::{Connection, connection_in, serve};

/// The most bytes that a connection file has.
const MOST: u64 = 1 << 20;

/// Does what the arguments ask for, and answers the exit status.
pub(crate) fn run(rt: &HostRuntime) -> u8 {
    match words(rt) {
        Ok(words) => run_words(rt, words.as_slice()),
        Err(e) => unread(e.kind()),
    }
}

/// The words after the program's name.
fn words(rt: &HostRuntime) -> io::Result<Vec<String>> {
    let mut args = env::args(rt)?;
    args.next();
    Ok(args.collect(rt.alloc())?)
}

fn run_words(rt: &HostRuntime, words: &[String]) -> u8 {
    let [word] = words else {
        return USAGE;
    };
    match word.as_str() {
        "--about" => about(rt),
        path => serve_file(rt, rt.alloc(), path),
    }
}

fn about(rt: &impl Print) -> u8 {
    match println!(rt; "toy") {
        Ok(()) => 0,
        Err(_) => USAGE,
    }
}

/// Serves the kernel on the ports of a connection file.
fn serve_file<R: Files + Net + Clock>(rt: &R, alloc: Global, path: &str) -> u8 {
    let bytes = match file(rt, alloc, path) {
        Ok(bytes) => bytes,
        Err(e) => return unread(e.kind()),
    };
    if MOST < bytes.len() as u64 {
        return NO_CONNECTION;
    }
    match connection_in(alloc, bytes.as_slice()) {
        Ok(Some(connection)) => serve_toy(rt, alloc, &connection),
        Ok(None) => NO_CONNECTION,
        Err(NoMemory) => NO_MEMORY,
    }
}

fn serve_toy<R: Net + Clock>(rt: &R, alloc: Global, connection: &Connection) -> u8 {
    match Toy::new(alloc, &connection.key) {
        Ok(mut toy) => {
            let end = serve(rt, alloc, connection.ports, &mut toy);
            drop(toy);
            served_status(end)
        }
        Err(NoMemory) => NO_MEMORY,
    }
}

/// The bytes of a file; of a larger one than a connection file, only so many that it shows.
fn file<R: Files>(rt: &R, alloc: Global, path: &str) -> io::Result<Vec<u8>> {
    let mut bytes = Vec::new(alloc);
    fs::open(rt, path)?.take(MOST + 1).read_to_end(&mut bytes)?;
    Ok(bytes)
}

/// The status where the arguments or the file can't be read, by the kind of the error.
fn unread(kind: ErrorKind) -> u8 {
    match kind {
        ErrorKind::OutOfMemory => NO_MEMORY,
        _ => USAGE,
    }
}
