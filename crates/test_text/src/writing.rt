use jtext::{Bytes, Json, NoMemory, copy, field, read, write_compact, write_indented};
use std::alloc::Global;
use std::process::Abort;
use std::test::Fail;

/// The text of a copy, which is dropped by a call.
fn copied_text(alloc: Global, tree: &Json) -> Result<Bytes, NoMemory> {
    let copied = copy(alloc, tree)?;
    let out = write_compact(alloc, &copied);
    drop(copied);
    out
}

fn compact_again(rt: &HostRuntime, text: &str) -> Result<bool, Fail> {
    let tree = read(rt.alloc(), text.as_bytes(), 128)?;
    let out = copied_text(rt.alloc(), &tree);
    drop(tree);
    Ok(out?.bytes() == text.as_bytes())
}

#[test]
fn compact_text_is_read_copied_and_written_as_it_was(rt: HostRuntime) -> Result<(), Fail> {
    for text in [
        "null",
        "[null,[true,-1.50e+3],[],false]",
        "{\"a\":\"x\\n\\\"\",\"b\":{},\"c\":[{\"d\":0}]}",
        "{\"b\":1,\"a\":2}",
        "\"\\\\ \\b\\t\\n\\f\\r \\u0000\\u001f / \u{7f}\u{e9}\u{2028}\u{1f600}\"",
        "[1e2,1E2,100,0.10,-0]",
    ] {
        assert!(rt; compact_again(&rt, text)?, "{text}");
    }
    Ok(())
}

fn compact_is(rt: &HostRuntime, text: &str, want: &str) -> Result<bool, Fail> {
    let tree = read(rt.alloc(), text.as_bytes(), 128)?;
    let out = write_compact(rt.alloc(), &tree);
    drop(tree);
    Ok(out?.bytes() == want.as_bytes())
}

#[test]
fn white_space_and_escapes_leave_no_trace(rt: HostRuntime) -> Result<(), Fail> {
    for (text, want) in [
        (" [ 1 , { \"a\" : \"\" } ]\r\n\t", "[1,{\"a\":\"\"}]"),
        ("\"\\u0061\\/\\u00E9\"", "\"a/\u{e9}\""),
        ("\"\\ud83d\\uDE00\"", "\"\u{1f600}\""),
        ("\"\\u1F2e\"", "\"\u{1f2e}\""),
    ] {
        assert!(rt; compact_is(&rt, text, want)?, "{text}");
    }
    Ok(())
}

/// Whether the text is this one once it is read and written with indents.
pub(crate) fn indented_is(rt: &HostRuntime, text: &str, want: &str) -> Result<bool, Fail> {
    let tree = read(rt.alloc(), text.as_bytes(), 128)?;
    let out = write_indented(rt.alloc(), &tree);
    drop(tree);
    Ok(out?.bytes() == want.as_bytes())
}

/// What `json.dumps(.., sort_keys=True, indent=1, ensure_ascii=False)` of Python writes, and a line end.
#[test]
fn indented_text_is_what_python_writes(rt: HostRuntime) -> Result<(), Fail> {
    for (text, want) in [
        ("[]", "[]\n"),
        (" {} ", "{}\n"),
        ("1e2", "1e2\n"),
        ("[[],{}]", "[\n [],\n {}\n]\n"),
        (
            "{\"b\":1,\"a\":[2,\"x\"]}",
            "{\n \"a\": [\n  2,\n  \"x\"\n ],\n \"b\": 1\n}\n",
        ),
        (
            "{\"cells\":[],\"metadata\":{},\"nbformat\":4,\"nbformat_minor\":5}",
            "{\n \"cells\": [],\n \"metadata\": {},\n \"nbformat\": 4,\n \"nbformat_minor\": 5\n}\n",
        ),
        (
            "{\"\u{e000}\":1,\"\u{10000}\":2,\"b\":3,\"a\":4,\"\":5,\"ab\":6}",
            "{\n \"\": 5,\n \"a\": 4,\n \"ab\": 6,\n \"b\": 3,\n \"\u{e000}\": 1,\n \"\u{10000}\": 2\n}\n",
        ),
    ] {
        assert!(rt; indented_is(&rt, text, want)?, "{text}");
    }
    Ok(())
}

/// The tree has a list under `b`, nothing under `c`, and the list nothing under `a`.
fn expect_fields(rt: &impl Abort, alloc: Global, tree: &Json) -> Result<(), Fail> {
    let found = field(tree, "b").ok_or("no b")?;
    assert!(rt; field(tree, "c").is_none());
    assert!(rt; field(found, "a").is_none());
    let list = write_compact(alloc, found)?;
    assert_eq!(rt; list.bytes(), b"[2]".as_slice());
    Ok(())
}

#[test]
fn a_field_is_found_by_its_key(rt: HostRuntime) -> Result<(), Fail> {
    let tree = read(rt.alloc(), b"{\"a\":1,\"\\u0062\":[2]}", 4)?;
    let end = expect_fields(&rt, rt.alloc(), &tree);
    drop(tree);
    end
}
