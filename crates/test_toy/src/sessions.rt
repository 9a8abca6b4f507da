//! What the toy kernel says to its requests (Jupyter messaging 5.3).
use crate::script::played;
use std::test::Fail;

/// Sixty-four octets of the greeting, then READY with the type of the socket.
const STARTS: &str = "ready shell
 false
get shell
 nothing
accept shell
 true
ready shell
 true
get shell
 ff 00 00 00 00 00 00 00 00 7f 03 01 4e 55 4c 4c 00 00 00 00 00 00 00 00 00 00 00 00 00 00 00 00 \
00 00 00 00 00 00 00 00 00 00 00 00 00 00 00 00 00 00 00 00 00 00 00 00 00 00 00 00 00 00 00 00 \
04 1c 05 52 45 41 44 59 0b 53 6f 63 6b 65 74 2d 54 79 70 65 00 00 00 06 52 4f 55 54 45 52 nothing
accept control
 true
get control
 ff 00 00 00 00 00 00 00 00 7f 03 01 4e 55 4c 4c 00 00 00 00 00 00 00 00 00 00 00 00 00 00 00 00 \
00 00 00 00 00 00 00 00 00 00 00 00 00 00 00 00 00 00 00 00 00 00 00 00 00 00 00 00 00 00 00 00 \
04 1c 05 52 45 41 44 59 0b 53 6f 63 6b 65 74 2d 54 79 70 65 00 00 00 06 52 4f 55 54 45 52 nothing
accept iopub
 true
get iopub
 ff 00 00 00 00 00 00 00 00 7f 03 01 4e 55 4c 4c 00 00 00 00 00 00 00 00 00 00 00 00 00 00 00 00 \
00 00 00 00 00 00 00 00 00 00 00 00 00 00 00 00 00 00 00 00 00 00 00 00 00 00 00 00 00 00 00 00 \
04 19 05 52 45 41 44 59 0b 53 6f 63 6b 65 74 2d 54 79 70 65 00 00 00 03 50 55 42 nothing
accept heart
 true
get heart
 ff 00 00 00 00 00 00 00 00 7f 03 01 4e 55 4c 4c 00 00 00 00 00 00 00 00 00 00 00 00 00 00 00 00 \
00 00 00 00 00 00 00 00 00 00 00 00 00 00 00 00 00 00 00 00 00 00 00 00 00 00 00 00 00 00 00 00 \
04 19 05 52 45 41 44 59 0b 53 6f 63 6b 65 74 2d 54 79 70 65 00 00 00 03 52 45 50 nothing
";

#[test]
fn greeting_and_ready_are_due_at_the_accept(rt: HostRuntime) -> Result<(), Fail> {
    let found = played(rt.alloc(), STARTS)?;
    assert!(rt; found.as_str() == STARTS, "{found}");
    Ok(())
}

/// What a kernel is, a cell with each kind of output, and cells that keep variables and counts.
const CELLS: &str = r#"connect
ask shell r kernel_info_request {}
hear shell
 kernel_info_reply r {"status":"ok","protocol_version":"5.3","implementation":"toy","implementation_version":"1","language_info":{"name":"toy","version":"1","mimetype":"text/plain","file_extension":".toy"},"banner":"toy"}
hear iopub
 status r {"execution_state":"busy"}
 status r {"execution_state":"idle"}
new
connect
ask shell r execute_request {"code":"a = 1\nprint a\nerr 2\nshow d a\nupdate d 3\nclear\nclearwait\nresult a"}
hear iopub
 status r {"execution_state":"busy"}
 execute_input r {"code":"a = 1\nprint a\nerr 2\nshow d a\nupdate d 3\nclear\nclearwait\nresult a","execution_count":1}
 stream r {"name":"stdout","text":"1\n"}
 stream r {"name":"stderr","text":"2\n"}
 display_data r {"data":{"text/plain":"1"},"metadata":{},"transient":{"display_id":"d"}}
 update_display_data r {"data":{"text/plain":"3"},"metadata":{},"transient":{"display_id":"d"}}
 clear_output r {"wait":false}
 clear_output r {"wait":true}
 execute_result r {"execution_count":1,"data":{"text/plain":"1"},"metadata":{}}
 status r {"execution_state":"idle"}
hear shell
 execute_reply r {"status":"ok","execution_count":1}
new
connect
ask shell q execute_request {"code":"a = 1"}
ask shell r execute_request {"code":"print a"}
hear iopub
 status q {"execution_state":"busy"}
 execute_input q {"code":"a = 1","execution_count":1}
 status q {"execution_state":"idle"}
 status r {"execution_state":"busy"}
 execute_input r {"code":"print a","execution_count":2}
 stream r {"name":"stdout","text":"1\n"}
 status r {"execution_state":"idle"}
ask shell s execute_request {"code":"raise E \"no\"\nprint 2"}
hear iopub
 status s {"execution_state":"busy"}
 execute_input s {"code":"raise E \"no\"\nprint 2","execution_count":3}
 error s {"ename":"E","evalue":"no","traceback":["E: no"]}
 status s {"execution_state":"idle"}
ask shell t execute_request {"code":"print b"}
hear iopub
 status t {"execution_state":"busy"}
 execute_input t {"code":"print b","execution_count":4}
 error t {"ename":"NameError","evalue":"b","traceback":["NameError: b"]}
 status t {"execution_state":"idle"}
hear shell
 execute_reply q {"status":"ok","execution_count":1}
 execute_reply r {"status":"ok","execution_count":2}
 execute_reply s {"status":"error","execution_count":3,"ename":"E","evalue":"no","traceback":["E: no"]}
 execute_reply t {"status":"error","execution_count":4,"ename":"NameError","evalue":"b","traceback":["NameError: b"]}
exited
 none
"#;

#[test]
fn requests_are_answered_and_cells_published(rt: HostRuntime) -> Result<(), Fail> {
    let found = played(rt.alloc(), CELLS)?;
    assert!(rt; found.as_str() == CELLS, "{found}");
    Ok(())
}

/// A client that subscribes late, takes it back, and asks for other topics; echoes while a cell
/// sleeps, where the empty frame alone has no body behind it and without it there is no envelope;
/// and what is no request.
const PASSED_OVER: &str = r#"accept shell
 true
put shell start
hear shell
accept iopub
 true
put iopub start
hear iopub
ask shell q execute_request {"code":"print 1"}
hear iopub
put iopub subscription
ask shell r execute_request {"code":"print 2"}
hear iopub
 status r {"execution_state":"busy"}
 execute_input r {"code":"print 2","execution_count":2}
 stream r {"name":"stdout","text":"2\n"}
 status r {"execution_state":"idle"}
put iopub 00 01 00 00 04 01 74 6f 78
ask shell s execute_request {"code":"print 3"}
hear iopub
put iopub 00 03 01 74 6f
ask shell t execute_request {"code":"print 4"}
kinds iopub
 status t
 execute_input t
 stream t
 status t
new
connect
ask shell r execute_request {"code":"sleep 1000"}
put heart 01 00 00 04 70 69 6e 67
get heart
 01 00 00 04 70 69 6e 67 nothing
put heart 00 00 00 04 70 69 6e 67
get heart
 nothing
put heart 01 00 01 01 61 00 01 62
get heart
 01 00 01 01 61 00 01 62 nothing
new
connect
put shell 00 01 78
put shell 01 09 3c 49 44 53 7c 4d 53 47 3e 00 01 78
ask shell r execute_request {"code":1}
ask shell r execute_request {}
ask shell r history_request {}
ask shell r shutdown_request {}
ask control r execute_request {"code":"print 1"}
forge shell r kernel_info_request {}
hear shell
hear control
hear iopub
slowly shell s execute_request {"code":"print 1"}
hear shell
 execute_reply s {"status":"ok","execution_count":1}
"#;

#[test]
fn what_is_no_request_or_not_subscribed_to_is_passed_over(rt: HostRuntime) -> Result<(), Fail> {
    let found = played(rt.alloc(), PASSED_OVER)?;
    assert!(rt; found.as_str() == PASSED_OVER, "{found}");
    Ok(())
}
