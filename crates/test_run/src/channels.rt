//! Kernels that send what belongs on one channel on another one too.
use crate::notebooks::ONE;
use crate::plays::play;
use crate::rule::Trick;
use std::process::Abort;
use std::test::Fail;

#[test]
fn an_idle_that_came_on_shell_before_is_taken_on_iopub(rt: HostRuntime) -> Result<(), Fail> {
    let played = play(rt.alloc(), Trick::IdleOnShellFirst)?;
    assert!(rt; played.has_status(0, 0));
    assert!(rt; played.is_done(rt.alloc(), ONE)?);
    assert_eq!(rt; played.gets("\"idle\""), 5);
    Ok(())
}

#[test]
fn an_idle_that_comes_on_shell_after_changes_nothing(rt: HostRuntime) -> Result<(), Fail> {
    let played = play(rt.alloc(), Trick::IdleOnShellLast)?;
    assert!(rt; played.has_status(0, 0));
    assert!(rt; played.is_done(rt.alloc(), ONE)?);
    assert_eq!(rt; played.gets("\"idle\""), 4);
    Ok(())
}
