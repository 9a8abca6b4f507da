//! When a kernel is asked and pinged, and when it is lost.
use jtext::Text;
use kernel_talk::{Asking, Pings};
use std::alloc::Global;
use std::process::Abort;
use std::test::Fail;

fn expect_requests(rt: &impl Abort, alloc: Global, asking: &mut Asking) -> Result<(), Fail> {
    assert!(rt; !asking.is_due(false, 1000), "it can't be asked yet");
    assert_eq!(rt; asking.next(false, 1000), None);
    assert!(rt; asking.is_due(true, 1000));
    assert_eq!(rt; asking.next(true, 1000), Some(1000));
    asking.on_request(Text::of(alloc, "s_1")?, 1000)?;
    assert!(rt; !asking.is_due(true, 1499));
    assert_eq!(rt; asking.next(true, 1100), Some(1500));
    assert!(rt; asking.is_due(true, 1500));
    Ok(())
}

fn expect_end(rt: &impl Abort, alloc: Global, asking: &mut Asking) -> Result<(), Fail> {
    asking.on_reply(&Text::of(alloc, "s_2")?);
    asking.on_iopub();
    assert!(rt; !asking.is_ready(), "a reply to another request");
    asking.on_reply(&Text::of(alloc, "s_1")?);
    assert!(rt; asking.is_ready());
    assert!(rt; !asking.is_due(true, 9000));
    assert_eq!(rt; asking.next(true, 9000), None);
    Ok(())
}

fn expect_course(rt: &impl Abort, alloc: Global, asking: &mut Asking) -> Result<(), Fail> {
    expect_requests(rt, alloc, asking)?;
    expect_end(rt, alloc, asking)
}

#[test]
fn a_kernel_is_asked_every_500_ms_until_it_is_ready(rt: HostRuntime) -> Result<(), Fail> {
    let mut asking = Asking::new(rt.alloc());
    let end = expect_course(&rt, rt.alloc(), &mut asking);
    drop(asking);
    end
}

#[test]
fn ten_pings_without_an_echo_lose_the_kernel(rt: HostRuntime) -> Result<(), Fail> {
    let mut pings = Pings::new();
    for number in 0..12u64 {
        let at = 3000 * number;
        if number == 2 {
            pings.on_echo();
        }
        assert!(rt; pings.is_due(true, at), "ping {number}");
        pings.on_ping(at, 6 * (number + 1));
        assert!(rt; !pings.is_due(true, at + 2999));
        assert!(rt; !pings.is_lost(at + 2999, 1000), "ping {number}");
    }
    let at = 36_000;
    assert_eq!(rt; pings.next(true, at), Some(at));
    assert!(rt; !pings.is_lost(at, 71), "the tenth was not taken whole");
    assert!(rt; pings.is_lost(at, 72));
    pings.on_echo();
    assert!(rt; !pings.is_lost(at, 72));
    Ok(())
}
