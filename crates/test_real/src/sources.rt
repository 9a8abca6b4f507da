//! The clock, random words and the standard output.
use crate::worlds::real_world;
use std::test::Fail;
use world::{Clock, Rand, Say, Wrote};

/// 2020-01-01 UTC.
const BEFORE: u64 = 1_577_836_800_000;

#[test]
fn the_clock_goes_on_and_tells_its_last_moment(rt: HostRuntime) -> Result<(), Fail> {
    let mut w = real_world(&rt)?;
    assert_eq!(rt; w.last(), 0);
    let first = w.now();
    assert!(rt; BEFORE < first, "the clock stands at {first}");
    let second = w.now();
    assert!(rt; first <= second && w.last() == second);
    Ok(())
}

#[test]
fn random_words_differ(rt: HostRuntime) -> Result<(), Fail> {
    let mut w = real_world(&rt)?;
    let first = w.word().ok_or("no word")?;
    let second = w.word().ok_or("no word")?;
    assert!(rt; first != second);
    assert_eq!(rt; w.rand_faults(), 0);
    Ok(())
}

#[test]
fn what_is_said_is_taken(rt: HostRuntime) -> Result<(), Fail> {
    let mut w = real_world(&rt)?;
    assert_eq!(rt; Say::write(&mut w, b"\n"), Wrote::Took(1));
    assert_eq!(rt; w.say_faults(), 0);
    Ok(())
}
