//! Octets that break the grammar of ZMTP (RFC 23) on a channel of the toy kernel.
use crate::pair::CHANNELS;
use crate::script::played;
use jtext::NoMemory;
use std::alloc::Global;
use std::test::Fail;

/// A rule a row, with octets that break it: in place of the greeting, behind it, and after READY.
const BREAKS: &str = "\
signature: fe
end of the signature: ff 00 00 00 00 00 00 00 00 7e
version: ff 00 00 00 00 00 00 00 00 7f 02
mechanism: ff 00 00 00 00 00 00 00 00 7f 03 01 43
frame: greeting 00
no READY: greeting 04 05 04 50 49 4e 47
form of READY: greeting 04 07 05 52 45 41 44 59 01
no Socket-Type: greeting 04 06 05 52 45 41 44 59
wrong peer: greeting 04 1b 05 52 45 41 44 59 0b 53 6f 63 6b 65 74 2d 54 79 70 65 00 00 00 05 58 44 45 41 4c
ERROR: greeting 04 08 05 45 52 52 4f 52 01 78
reserved flag: start 08
command with more: start 05
size: start 02 00 00 00 00 04 00 00 01
sum of the sizes: start 01 01 78 02 00 00 00 00 04 00 00 00
later ERROR: start 04 06 05 45 52 52 4f 52
frames: start 01 00 01 00 01 00 01 00 01 00 01 00 01 00 01 00 01 00 01 00 01 00 01 00 01 00 01 00 01 00 01 00 01 00 01 00 01 00 01 00 01 00 01 00 01 00 01 00 01 00 01 00 01 00 01 00 01 00 01 00 01 00 01 00 01 00 01 00 01 00 01 00 01 00 01 00 01 00 01 00 01 00 01 00 01 00 01 00 01 00 01 00 01 00 01 00 01 00 01 00 01 00 01 00 01 00 01 00 01 00 01 00 01 00 01 00 01 00 01 00 01 00 01 00 01 00 01";

/// A breach of a rule by the octets `#` on the channel `@`: it stands with the last of them.
const BREACH: &str = "\
accept @
 true
break @ #
 nothing
 ended
 ended
ready @
 true
exited
 none
beside @
 nothing
 nothing
 nothing
";

/// The rules whose breach on this channel goes otherwise, with how it goes.
fn odd_breaches(alloc: Global, name: &str) -> Result<String, NoMemory> {
    let mut out = String::new(alloc);
    let breach = BREACH.replace(alloc, "@", name)?;
    for row in BREAKS.split('\n') {
        let (rule, words) = row.split_once(": ").unwrap_or((row, ""));
        let script = breach.as_str().replace(alloc, "#", words)?;
        let found = played(alloc, script.as_str())?;
        if found.as_str() != script.as_str() {
            out.push_str(rule)?;
            out.push_str("\n")?;
            out.push_str(found.as_str())?;
        }
    }
    Ok(out)
}

#[test]
fn octets_that_break_a_rule_end_their_channel(rt: HostRuntime) -> Result<(), Fail> {
    for (name, _) in CHANNELS {
        let odd = odd_breaches(rt.alloc(), name)?;
        assert!(rt; odd.as_str() == "", "{odd}");
    }
    Ok(())
}

/// A cell goes on where its shell broke, without a reply.
const BROKEN_SHELL: &str = r#"connect
ask shell q execute_request {"code":"print 1\nsleep 10\nprint 2"}
put shell 08
wait 10
get shell
 ended
hear iopub
 status q {"execution_state":"busy"}
 execute_input q {"code":"print 1\nsleep 10\nprint 2","execution_count":1}
 stream q {"name":"stdout","text":"1\n"}
 stream q {"name":"stdout","text":"2\n"}
 status q {"execution_state":"idle"}
"#;

#[test]
fn a_broken_shell_has_no_reply_and_its_cell_goes_on(rt: HostRuntime) -> Result<(), Fail> {
    let found = played(rt.alloc(), BROKEN_SHELL)?;
    assert!(rt; found.as_str() == BROKEN_SHELL, "{found}");
    Ok(())
}
