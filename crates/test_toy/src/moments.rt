//! When the toy kernel says what it says.
use crate::script::played;
use std::test::Fail;

/// A sleep puts off what follows it, and a request waits for the cell before it. The second line of
/// the last cell was due 5 milliseconds before the subscription.
const SLEEPS: &str = r#"connect
wait 10
ask shell r execute_request {"code":"print 1\nsleep 100\nprint 2\nsleep 50\nprint 3"}
kinds iopub
 status r
 execute_input r
 stream r
wait 109
get iopub
 nothing
wait 110
kinds iopub
 stream r
wait 159
get iopub
 nothing
ready shell
 false
wait 160
kinds iopub
 stream r
 status r
kinds shell
 execute_reply r
new
connect
ask shell q execute_request {"code":"a = 1\nsleep 100"}
wait 50
ask shell r execute_request {"code":"print a\nsleep 10"}
ask shell s kernel_info_request {}
wait 99
kinds iopub
 status q
 execute_input q
wait 100
kinds iopub
 status q
 status r
 execute_input r
 stream r
wait 110
kinds iopub
 status r
 status s
 status s
kinds shell
 execute_reply q
 execute_reply r
 kernel_info_reply s
new
accept shell
 true
put shell start
hear shell
accept iopub
 true
put iopub start
hear iopub
ask shell q execute_request {"code":"print 1\nsleep 10\nprint 2\nsleep 10\nprint 3"}
wait 15
put iopub subscription
wait 20
kinds iopub
 stream q
 status q
"#;

#[test]
fn each_effect_comes_at_its_moment(rt: HostRuntime) -> Result<(), Fail> {
    let found = played(rt.alloc(), SLEEPS)?;
    assert!(rt; found.as_str() == SLEEPS, "{found}");
    Ok(())
}

/// An interrupted cell leaves the variables that its whole text leaves. A kernel that dies or is
/// shut down gives what was due. What was due on the connection before counts no more on the next,
/// and its start is due again.
const ENDS: &str = r#"connect
ask shell q execute_request {"code":"print 1\nsleep 1000\na = 2\ndie"}
ask shell r execute_request {"code":"print a\nclear"}
wait 300
ask control i interrupt_request {}
hear control
 interrupt_reply i {"status":"ok"}
hear shell
 execute_reply q {"status":"error","execution_count":1,"ename":"KeyboardInterrupt","evalue":"","traceback":["KeyboardInterrupt: "]}
 execute_reply r {"status":"ok","execution_count":2}
hear iopub
 status q {"execution_state":"busy"}
 execute_input q {"code":"print 1\nsleep 1000\na = 2\ndie","execution_count":1}
 stream q {"name":"stdout","text":"1\n"}
 error q {"ename":"KeyboardInterrupt","evalue":"","traceback":["KeyboardInterrupt: "]}
 status q {"execution_state":"idle"}
 status r {"execution_state":"busy"}
 execute_input r {"code":"print a\nclear","execution_count":2}
 stream r {"name":"stdout","text":"2\n"}
 clear_output r {"wait":false}
 status r {"execution_state":"idle"}
wait 5000
exited
 none
ask control j interrupt_request {}
hear control
 interrupt_reply j {"status":"ok"}
hear iopub
new
connect
ask shell q execute_request {"code":"print 1\nsleep 20\nprint 2\ndie"}
ask shell r execute_request {"code":"print 3"}
wait 19
exited
 none
wait 20
exited
 1
accept shell
 false
kinds iopub
 status q
 execute_input q
 stream q
 stream q
put heart 01 00 00 04 70 69 6e 67
get shell
 ended
get control
 ended
get iopub
 ended
get heart
 ended
ready heart
 true
new
connect
ask shell q execute_request {"code":"sleep 100"}
ask control s shutdown_request {"restart":true}
exited
 0
hear control
 shutdown_reply s {"status":"ok","restart":true}
wait 200
kinds iopub
 status q
 execute_input q
new
connect
ask control s shutdown_request {}
hear control
 shutdown_reply s {"status":"ok","restart":false}
get shell
 ended
new
connect
ask shell q execute_request {"code":"a = 1"}
accept shell
 true
get shell
 ff 00 00 00 00 00 00 00 00 7f 03 01 4e 55 4c 4c 00 00 00 00 00 00 00 00 00 00 00 00 00 00 00 00 00 00 00 00 00 00 00 00 00 00 00 00 00 00 00 00 00 00 00 00 00 00 00 00 00 00 00 00 00 00 00 00 04 1c 05 52 45 41 44 59 0b 53 6f 63 6b 65 74 2d 54 79 70 65 00 00 00 06 52 4f 55 54 45 52 nothing
"#;

#[test]
fn an_end_comes_at_its_moment_and_gives_what_was_due(rt: HostRuntime) -> Result<(), Fail> {
    let found = played(rt.alloc(), ENDS)?;
    assert!(rt; found.as_str() == ENDS, "{found}");
    Ok(())
}
