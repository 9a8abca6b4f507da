//! Identifiers and requests.
ghost use Rattle.std.specs.Prelude.{◌<◌, ◌^◌};

use jmsg::{Decoded, decode};
use jtext::{Fields, Json};
use kernel_talk::{Session, identifier};
use std::alloc::Global;
use std::process::Abort;
use std::test::Fail;

#[test]
fn identifiers_are_version_4_uuids(rt: HostRuntime) -> Result<(), Fail> {
    let rows = [
        (0u64, 0u64, "00000000-0000-4000-8000-000000000000"),
        (
            0xffff_ffff_ffff_ffff,
            0xffff_ffff_ffff_ffff,
            "ffffffff-ffff-4fff-bfff-ffffffffffff",
        ),
        (
            0x919108f7_52d1_1320,
            0x5bac_f847_db41_48a8,
            "919108f7-52d1-4320-9bac-f847db4148a8",
        ),
    ];
    for (high, low, text) in rows {
        assert_eq!(rt; identifier(rt.alloc(), high, low)?.as_str(), text);
    }
    Ok(())
}

/// Where the header of a request stands among its parts.
const HEADER: usize = 2;

/// Whether the next request, of this moment and kind, has this header and is signed under the key.
fn has_header(
    alloc: Global,
    session: &mut Session,
    ms: u64,
    kind: &str,
    header: &str,
) -> Result<bool, Fail>
    requires { ms < 2 ^ 47 }
{
    let content = Json::Obj(Fields::new(alloc));
    let parts = session.request(ms, kind, content)?;
    let is_signed = matches!(
        &decode(alloc, session.key().bytes(), &parts)?,
        Decoded::Good(_)
    );
    match parts.get(HEADER) {
        Some(text) => Ok(is_signed && text.bytes() == header.as_bytes()),
        None => Ok(false),
    }
}

/// The first two requests of a session.
fn expect_two(rt: &impl Abort, alloc: Global, session: &mut Session) -> Result<(), Fail> {
    let first =
        r#"{"msg_id":"00000000-0000-4000-8000-000000000000_1","session":"00000000-0000-4000-8000-000000000000","username":"nbrun","date":"1970-01-01T00:00:00.000Z","msg_type":"kernel_info_request","version":"5.3"}"#;
    assert!(rt; has_header(alloc, session, 0, "kernel_info_request", first)?);
    let second =
        r#"{"msg_id":"00000000-0000-4000-8000-000000000000_2","session":"00000000-0000-4000-8000-000000000000","username":"nbrun","date":"2000-02-29T00:00:00.000Z","msg_type":"interrupt_request","version":"5.3"}"#;
    assert!(rt; has_header(alloc, session, 951_782_400_000, "interrupt_request", second)?);
    assert_eq!(rt; session.made(), 2);
    let id = session.id(2)?;
    assert_eq!(rt; id.as_str(), "00000000-0000-4000-8000-000000000000_2");
    Ok(())
}

#[test]
fn requests_are_numbered_signed_and_dated(rt: HostRuntime) -> Result<(), Fail> {
    let mut session = Session::new(rt.alloc(), (0, 0), (0, 1))?;
    let end = expect_two(&rt, rt.alloc(), &mut session);
    drop(session);
    end
}
