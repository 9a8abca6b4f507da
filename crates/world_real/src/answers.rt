//! What the world answers to a call of the system, and what it counts. These functions call nothing:
//! each is one of how the call ended.
ghost use Rattle.std.specs.Prelude.{◌≡◌, ◌≤◌, None, IfOk};
ghost use Rattle.std.specs.Result.{result_ok};
ghost use Rattle.world_real.specs.Answers as spec;
ghost use Rattle.world.specs.Counts.{HasCause, Rose};
ghost use Rattle.world.specs.Rises.{one_more};

use crate::trouble::{Trouble, trouble_of};
use jtext::Bytes;
use std::io;
use std::io::ErrorKind;
use world::{Connected, Did, Got, Put, ReadFile, Wrote};

/// One fault more.
pub(crate) fn count(faults: &mut u64)
    ensures is { faults.new ≡ one_more faults.old }
    ensures later { faults.old ≤ faults.new }
    ensures rose { Rose faults.old faults.new }
{
    *faults = faults.saturating_add(1);
}

/// What a call did, counted where it failed.
pub(crate) fn did_of(outcome: io::Result<()>, faults: &mut u64) -> Did
    ensures answer { result ≡ spec.did_of outcome }
    ensures count { faults.new ≡ spec.count_after outcome faults.old }
    ensures cause { HasCause faults.old faults.new (result ≡ Did.Failed) }
{
    match outcome {
        Ok(()) => Did::Done,
        Err(_) => {
            count(faults);
            Did::Failed
        }
    }
}

/// The value of a call, and `None` where it failed, which is counted.
pub(crate) fn value_of<T>(outcome: io::Result<T>, faults: &mut u64) -> Option<T>
    ensures answer { result ≡ result_ok outcome }
    ensures count { faults.new ≡ spec.count_after outcome faults.old }
    ensures cause { HasCause faults.old faults.new (result ≡ None) }
{
    match outcome {
        Ok(value) => Some(value),
        Err(_) => {
            count(faults);
            None
        }
    }
}

/// What became of a piece, by how many of its bytes were taken.
pub(crate) fn wrote_of(taken: io::Result<usize>, faults: &mut u64) -> Wrote
    requires { IfOk taken (λ n. n ≤ 1073741824) }
    ensures answer { result ≡ spec.wrote_of taken }
    ensures count { faults.new ≡ spec.count_after_write taken faults.old }
    ensures cause { HasCause faults.old faults.new (result ≡ Wrote.Failed) }
{
    match taken {
        Ok(n) if 0 < n => Wrote::Took(n as u32),
        _ => {
            count(faults);
            Wrote::Failed
        }
    }
}

/// What a read of a file found, counted where it failed.
pub(crate) fn found_of(outcome: io::Result<Option<Bytes>>, faults: &mut u64) -> ReadFile
    ensures answer { result ≡ spec.found_of outcome }
    ensures count { faults.new ≡ spec.count_after_read outcome faults.old }
    ensures cause { HasCause faults.old faults.new (result ≡ ReadFile.Failed) }
{
    match outcome {
        Ok(Some(bytes)) => ReadFile::Whole(bytes),
        Ok(None) => ReadFile::Big,
        Err(e) if e.kind() == ErrorKind::OutOfMemory => ReadFile::NoMemory,
        Err(_) => {
            count(faults);
            ReadFile::Failed
        }
    }
}

/// What became of a connect, counted where it failed. To be turned away is no fault.
pub(crate) fn connected_of(outcome: io::Result<()>, faults: &mut u64) -> Connected
    ensures answer { result ≡ spec.connected_of outcome }
    ensures count { faults.new ≡ spec.count_after_connect outcome faults.old }
    ensures cause { HasCause faults.old faults.new (result ≡ Connected.Failed) }
{
    match outcome {
        Ok(()) => Connected::Begun,
        Err(e) => match trouble_of(e.kind()) {
            Trouble::TurnedAway => Connected::Refused,
            _ => {
                count(faults);
                Connected::Failed
            }
        },
    }
}

/// What a read of a connection got, by whether a byte had passed on it before.
pub(crate) fn got_of(outcome: io::Result<usize>, used: bool) -> Got
    ensures { result ≡ spec.got_of used outcome }
{
    match outcome {
        Ok(0) => Got::Ended,
        Ok(n) => Got::Piece(n),
        Err(e) => match trouble_of(e.kind()) {
            Trouble::Later => Got::Dry,
            Trouble::TurnedAway if !used => Got::Refused,
            Trouble::Broken => Got::Ended,
            _ => Got::Failed,
        },
    }
}

/// What a write to a connection put there, by whether a byte had passed on it before.
pub(crate) fn put_of(outcome: io::Result<usize>, used: bool) -> Put
    ensures { result ≡ spec.put_of used outcome }
{
    match outcome {
        Ok(0) => Put::Failed,
        Ok(n) => Put::Took(n),
        Err(e) => match trouble_of(e.kind()) {
            Trouble::Later => Put::Stuck,
            Trouble::TurnedAway if !used => Put::Refused,
            Trouble::Broken => Put::Ended,
            _ => Put::Failed,
        },
    }
}
