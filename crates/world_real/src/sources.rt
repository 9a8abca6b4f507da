//! The clock, random words and the standard output.
use crate::RealWorld;
use crate::answers::{value_of, wrote_of};
use crate::disk::cap;
use std::fs::File;
use std::io::Read;
use std::net::Net;
use std::process::Processes;
use std::rt::{Clock as SystemClock, Files};
use std::{fs, io};
use world::{Clock, Rand, Say, Wrote};

/// The system's random bytes (random(4)).
const RANDOM: &str = "/dev/urandom";

impl<R: Files<File = File> + Net + Processes + SystemClock + Print + Drop> Clock for RealWorld<R> {
    fn now(&mut self) -> u64 {
        self.moment.look(&self.rt);
        self.moment.ms()
    }

    fn last(&self) -> u64 {
        self.moment.ms()
    }
}

impl<R: Files<File = File> + Net + Processes + SystemClock + Print + Drop> Rand for RealWorld<R> {
    fn rand_faults(&self) -> u64 {
        self.rand_faults
    }

    fn word(&mut self) -> Option<u64> {
        let word = random_word(&self.rt);
        value_of(word, &mut self.rand_faults)
    }
}

// Eight random bytes, as a number.
fn random_word<R: Files>(files: &R) -> io::Result<u64> {
    let mut bytes = [0u8; 8];
    fs::open(files, RANDOM)?.read_exact(&mut bytes)?;
    Ok(u64::from_be_bytes(bytes))
}

impl<R: Files<File = File> + Net + Processes + SystemClock + Print + Drop> Say for RealWorld<R> {
    fn say_faults(&self) -> u64 {
        self.say_faults
    }

    fn write(&mut self, piece: &[u8]) -> Wrote {
        let taken = self.rt.write_some(cap(piece));
        wrote_of(taken, &mut self.say_faults)
    }
}
