//! Kernels that send messages in another order, twice, changed or for another request.
use crate::notebooks::ONE;
use crate::plays::{play, play_within};
use crate::rule::Trick;
use std::process::Abort;
use std::test::Fail;

#[test]
fn a_reply_may_come_after_the_idle(rt: HostRuntime) -> Result<(), Fail> {
    let played = play(rt.alloc(), Trick::LateReply)?;
    assert!(rt; played.is_done(rt.alloc(), ONE)?);
    assert_eq!(rt; played.gets_early("\"idle\""), 2);
    Ok(())
}

#[test]
fn a_reply_may_come_before_the_idle(rt: HostRuntime) -> Result<(), Fail> {
    let played = play(rt.alloc(), Trick::LateIdle)?;
    assert!(rt; played.is_done(rt.alloc(), ONE)?);
    assert_eq!(rt; played.gets_early("\"idle\""), 1);
    Ok(())
}

#[test]
fn a_stream_after_the_idle_is_not_taken(rt: HostRuntime) -> Result<(), Fail> {
    let played = play(rt.alloc(), Trick::LateStream)?;
    assert!(rt; played.is_done(rt.alloc(), "[]")?);
    assert_eq!(rt; played.gets_early("\"stream\""), 1);
    Ok(())
}

#[test]
fn a_message_with_a_wrong_signature_is_not_taken(rt: HostRuntime) -> Result<(), Fail> {
    let played = play(rt.alloc(), Trick::BadSignature)?;
    assert!(rt; played.is_done(rt.alloc(), "[]")?);
    assert_eq!(rt; played.gets("\"stream\""), 1);
    Ok(())
}

#[test]
fn a_message_that_comes_twice_is_taken_once(rt: HostRuntime) -> Result<(), Fail> {
    let played = play(rt.alloc(), Trick::TwoStreams)?;
    assert!(rt; played.is_done(rt.alloc(), ONE)?);
    assert_eq!(rt; played.gets("\"stream\""), 2);
    Ok(())
}

#[test]
fn messages_of_another_request_are_not_taken(rt: HostRuntime) -> Result<(), Fail> {
    let played = play(rt.alloc(), Trick::OtherRequest)?;
    assert!(rt; played.has_status(0, 13));
    assert_eq!(rt; played.has("\"outputs\": []"), 2);
    Ok(())
}

#[test]
fn a_stream_of_the_next_request_is_not_taken_before_it(rt: HostRuntime) -> Result<(), Fail> {
    let played = play(rt.alloc(), Trick::NextRequest)?;
    assert!(rt; played.is_done(rt.alloc(), ONE)?);
    assert_eq!(rt; played.gets("\"stream\""), 2);
    Ok(())
}

#[test]
fn a_message_that_came_as_its_request_was_sent_is_not_taken(rt: HostRuntime) -> Result<(), Fail> {
    let played = play(rt.alloc(), Trick::EarlyStream)?;
    assert!(rt; played.is_done(rt.alloc(), ONE)?);
    assert_eq!(rt; played.gets("\"stream\""), 2);
    Ok(())
}

/// A cell that may fail, and one that may not.
const FAILING: &str =
    r#"{"cells":[{"cell_type":"code","execution_count":null,"id":"a","metadata":{"tags":["raises-exception"]},"outputs":[],"source":["raise E \"no\""]},{"cell_type":"code","execution_count":null,"id":"b","metadata":{},"outputs":[],"source":["result 2"]}],"metadata":{"kernelspec":{"display_name":"Toy","name":"toy"}},"nbformat":4,"nbformat_minor":5}"#;

#[test]
fn a_reply_that_came_before_its_request_is_not_taken_when_it_comes_again(
    rt: HostRuntime,
) -> Result<(), Fail> {
    let words = "in.ipynb out.ipynb";
    let alloc = rt.alloc();
    let played = play_within(alloc, Trick::ReplayedReply, FAILING, words, &[], 100_000)?;
    assert_eq!(rt; played.gets("execute_reply"), 4);
    assert!(rt; played.has_status(0, 0));
    assert_eq!(rt; played.has("\"execute_result\""), 1);
    Ok(())
}
