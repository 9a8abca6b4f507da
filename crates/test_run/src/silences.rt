//! Kernels that fall silent, or never do.
use crate::notebooks::notebook;
use crate::plays::{play, play_within};
use crate::rule::Trick;
use samples::notebooks::TWO;
use std::process::Abort;
use std::test::Fail;

#[test]
fn an_idle_that_never_comes_is_waited_for_so_long(rt: HostRuntime) -> Result<(), Fail> {
    let played = play(rt.alloc(), Trick::NoIdle)?;
    assert!(rt; played.has_status(0, 13));
    assert!(rt;
        played.has_said("saved 0/2 out.ipynb\nsaved 1/2 out.ipynb\nout.ipynb: cell 0: no idle\n")
    );
    assert!(rt; 4_000 <= played.last);
    assert_eq!(rt; played.has("\n      \"1\\n\"\n"), 1);
    assert_eq!(rt; played.has("\"status\": \"failed\""), 1);
    Ok(())
}

#[test]
fn a_connection_that_ends_in_a_message_loses_the_kernel(rt: HostRuntime) -> Result<(), Fail> {
    let played = play(rt.alloc(), Trick::CutOff)?;
    assert!(rt; played.has_status(0, 8));
    assert!(rt;
        played.has_said("saved 0/2 out.ipynb\nsaved 1/2 out.ipynb\nout.ipynb: kernel lost\n")
    );
    assert_eq!(rt; played.has("\"status\": \"failed\""), 1);
    assert_eq!(rt; played.has("\"status\": \"pending\""), 1);
    Ok(())
}

#[test]
fn streams_without_end_are_read_for_so_many_turns(rt: HostRuntime) -> Result<(), Fail> {
    let alloc = rt.alloc();
    let words = "in.ipynb out.ipynb";
    let played = play_within(alloc, Trick::Endless, TWO, words, &[100], 50)?;
    assert!(rt; played.has_status(0, 16));
    let played = play_within(alloc, Trick::Nothing, TWO, words, &[100], 50)?;
    assert!(rt; played.has_status(0, 0));
    Ok(())
}

#[test]
fn an_interrupt_without_an_answer_is_waited_for_so_long(rt: HostRuntime) -> Result<(), Fail> {
    let alloc = rt.alloc();
    let input = notebook(alloc, &["sleep 60000"])?;
    let words = "in.ipynb out.ipynb --execution-timeout 1 --interrupt";
    let played = play_within(alloc, Trick::Deaf, input.as_str(), words, &[], 100_000)?;
    assert!(rt; played.has_status(0, 9));
    assert!(rt; played.has_line(0, "out.ipynb: cell 0: timed out\n"));
    assert!(rt; 11_000 <= played.last);
    Ok(())
}

#[test]
fn a_heartbeat_that_stops_loses_the_kernel(rt: HostRuntime) -> Result<(), Fail> {
    let alloc = rt.alloc();
    let input = notebook(alloc, &["sleep 60000"])?;
    let words = "in.ipynb out.ipynb";
    let played = play_within(alloc, Trick::NoEcho, input.as_str(), words, &[], 100_000)?;
    assert!(rt; played.has_status(0, 8));
    assert!(rt; played.last < 60_000);
    let words = "in.ipynb out.ipynb --no-heartbeat";
    let played = play_within(alloc, Trick::NoEcho, input.as_str(), words, &[], 100_000)?;
    assert!(rt; played.has_status(0, 0));
    Ok(())
}
