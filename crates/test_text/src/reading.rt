use jtext::{Json, JsonFault, read};
use std::alloc::Global;
use std::test::Fail;

/// A line a text: what is answered, at which place, and the text, read with three levels. Worked
/// out by hand from RFC 8259.
const TEXTS: &str = "\
ok 0 null\n\
ok 0 true\n\
ok 0  false \n\
ok 0 -0\n\
ok 0 1.5e+10\n\
ok 0 1E5\n\
ok 0 \"\"\n\
ok 0 [[[]]]\n\
ok 0 {\"a\":{\"b\":{}}}\n\
ok 0 {\"a\":1,\"A\":2}\n\
ok 0 {\"a\":{\"a\":1}}\n\
ok 0 [{\"a\":1},{\"a\":2}]\n\
ok 0 \"\\ud83d\\ude00\"\n\
ok 0 \"\\uDBFF\\uDFFF\\ud7ff\\ue000\"\n\
ok 0 [\"[[[[\"]\n\
bad 0 \n\
bad 2   \n\
bad 3 nulx\n\
bad 3 nul\n\
bad 3 truE\n\
bad 4 fals\n\
bad 4 nulll\n\
bad 0 NaN\n\
bad 1 nan\n\
bad 0 Infinity\n\
bad 1 -Infinity\n\
bad 1 -\n\
bad 1 --1\n\
bad 1 01\n\
bad 2 -01\n\
bad 1 00\n\
bad 2 1.\n\
bad 2 1.e3\n\
bad 3 1.5.\n\
bad 2 1e\n\
bad 3 1e+\n\
bad 3 1e-x\n\
bad 2 1ex\n\
bad 0 .5\n\
bad 0 +1\n\
bad 2 1 2\n\
bad 1 1,\n\
bad 1 0x10\n\
bad 1 \"\n\
bad 4 \"abc\n\
bad 3 \"a\\\n\
bad 2 \"\\x\"\n\
bad 5 \"\\u12\"\n\
bad 5 \"\\u12G4\"\n\
bad 3 \"\\u\"\n\
bad 3 \"a\"b\n\
bad 0 'a'\n\
bad 7 \"\\ud800\n\
bad 8 \"\\ud800\\\n\
bad 9 \"\\ud800\\u\n\
bad 12 \"\\ud800\\udc0\n\
bad 13 \"\\ud800\\udc00\n\
bad 1 [\n\
bad 2 [ \n\
bad 2 [1\n\
bad 3 [1,\n\
bad 3 [1,]\n\
bad 1 [,1]\n\
bad 3 [1 2]\n\
bad 2 [1}\n\
bad 0 ]\n\
bad 3 [1]]\n\
bad 4 [nul]\n\
bad 2 [01]\n\
bad 3 [1,,2]\n\
bad 1 {\n\
bad 1 {a:1}\n\
bad 1 {1:2}\n\
bad 1 {,}\n\
bad 3 {\"a\n\
bad 4 {\"a\"\n\
bad 4 {\"a\"}\n\
bad 5 {\"a\" 1}\n\
bad 5 {\"a\":\n\
bad 5 {\"a\":}\n\
bad 5 {\"a\"::1}\n\
bad 6 {\"a\":1\n\
bad 6 {\"a\":1]\n\
bad 7 {\"a\":1,\n\
bad 7 {\"a\":1,}\n\
bad 7 {\"a\":1 \"b\":2}\n\
bad 8 {\"a\":tru}\n\
bad 9 {\"a\":1,\"a\n\
bad 1 [x[[[[\n\
bad 0 }\n\
deep 3 [[[[\n\
deep 3 [[[[]]]]\n\
deep 3 [[[{}]]]\n\
deep 3 [[[[x\n\
deep 4 [[[ [\n\
deep 7 {\"a\":[[[1]]]}\n\
deep 9 [1,[2,[3,[4]]]]\n\
deep 11 {\"a\":[{\"b\":[1]}]}\n\
repeated 7 {\"a\":1,\"a\":2}\n\
repeated 7 {\"a\":1,\"a\"\n\
repeated 7 {\"a\":1,\"a\"x\n\
repeated 7 {\"a\":1,\"\\u0061\":2}\n\
repeated 12 {\"\\u0061\":1,\"a\":2}\n\
repeated 7 {\"/\":1,\"\\/\":2}\n\
repeated 6 {\"\":1,\"\":2}\n\
repeated 13 {\"a\":1,\"b\":2,\"a\":3}\n\
repeated 12 { \"a\" : 1 , \"a\" : 2 }\n\
repeated 13 {\"a\":[{\"b\":1,\"b\":2}]}\n\
repeated 18 {\"\\ud83d\\ude00\":1,\"😀\":2}\n\
ok 0 {\"a\":0,\"b\":0,\"c\":0,\"d\":0,\"e\":0,\"f\":0,\"g\":0,\"h\":0,\"i\":0,\"j\":0,\"k\":0,\"l\":0,\"m\":0,\"n\":0,\"o\":0,\"p\":0,\"q\":0,\"r\":0,\"s\":0,\"t\":0}\n\
repeated 91 {\"a\":0,\"b\":0,\"c\":0,\"d\":0,\"e\":0,\"f\":0,\"g\":0,\"h\":0,\"i\":0,\"j\":0,\"k\":0,\"l\":0,\"m\":0,\"n\":0,\"o\":0,\"o\":0}\n\
repeated 97 {\"a\":0,\"b\":0,\"c\":0,\"d\":0,\"e\":0,\"f\":0,\"g\":0,\"h\":0,\"i\":0,\"j\":0,\"k\":0,\"l\":0,\"m\":0,\"n\":0,\"o\":0,\"p\":0,\"a\":0}\n\
repeated 103 {\"a\":0,\"b\":0,\"c\":0,\"d\":0,\"e\":0,\"f\":0,\"g\":0,\"h\":0,\"i\":0,\"j\":0,\"k\":0,\"l\":0,\"m\":0,\"n\":0,\"o\":0,\"p\":0,\"q\":0,\"a\":0}\n\
repeated 103 {\"a\":0,\"b\":0,\"c\":0,\"d\":0,\"e\":0,\"f\":0,\"g\":0,\"h\":0,\"i\":0,\"j\":0,\"k\":0,\"l\":0,\"m\":0,\"n\":0,\"o\":0,\"p\":0,\"q\":0,\"q\":0}\n\
lone 1 \"\\ud800\"\n\
lone 1 \"\\ud800x\"\n\
lone 1 \"\\ud800\\n\"\n\
lone 1 \"\\ud800\\u0061\"\n\
lone 1 \"\\ud800\\ud800\"\n\
lone 1 \"\\ud800\\udbff\n\
lone 1 \"\\ud800\\uZ\n\
lone 1 \"\\ud800\\ux\n\
lone 1 \"\\udc00\"\n\
lone 1 \"\\udc00\\ud800\n\
lone 3 \"ab\\udfff\"\n\
lone 13 \"\\ud83d\\ude00\\ude00\"\n\
lone 2 [\"\\uD800\"]\n\
lone 2 {\"\\ud800\":1}\n\
lone 9 {\"a\":1,\"a\\udc00\":2}\n";

fn answer(read: &Result<Json, JsonFault>) -> (&'static str, u64) {
    match read {
        Ok(_) => ("ok", 0),
        Err(JsonFault::NotUtf8 { at }) => ("utf8", *at),
        Err(JsonFault::Bad { at }) => ("bad", *at),
        Err(JsonFault::Deep { at }) => ("deep", *at),
        Err(JsonFault::Repeated { at }) => ("repeated", *at),
        Err(JsonFault::Lone { at }) => ("lone", *at),
        Err(JsonFault::NoMemory) => ("memory", 0),
    }
}

/// What is answered to these bytes, read with that many levels.
fn answer_to(alloc: Global, bytes: &[u8], levels: u32) -> (&'static str, u64) {
    let tree = read(alloc, bytes, levels);
    let found = answer(&tree);
    drop(tree);
    found
}

#[test]
fn each_fault_is_answered_at_its_place(rt: HostRuntime) -> Result<(), Fail> {
    for line in TEXTS.lines() {
        let (kind, rest) = line.split_once(' ').ok_or("a kind is missing")?;
        let (place, text) = rest.split_once(' ').ok_or("a place is missing")?;
        let at = place.parse::<u64>()?;
        let (found, n) = answer_to(rt.alloc(), text.as_bytes(), 3);
        assert!(rt; found == kind && n == at, "{line}");
    }
    Ok(())
}

#[test]
fn bytes_that_no_text_has_are_refused(rt: HostRuntime) -> Result<(), Fail> {
    let rows: [(&str, u64, &[u8]); 9] = [
        ("utf8", 1, b"\"\xff\""),
        ("utf8", 3, b"[1,\xc3"),
        ("utf8", 1, b"x\x80"),
        ("utf8", 1, b"\"\xed\xa0\x80\""),
        ("bad", 0, b"\xef\xbb\xbf1"),
        ("bad", 0, b"\xc2\xa01"),
        ("bad", 1, b"\"\n\""),
        ("bad", 1, b"\"\x1f\""),
        ("bad", 0, b"\x0c1"),
    ];
    for (kind, at, bytes) in rows {
        let (found, n) = answer_to(rt.alloc(), bytes, 3);
        assert!(rt; found == kind && n == at, "{kind} {at}");
    }
    Ok(())
}

#[test]
fn a_level_too_many_is_refused_at_its_bracket(rt: HostRuntime) -> Result<(), Fail> {
    let rows: [(&[u8], u32, &str, u64); 5] = [
        (b"[[1]]", 1, "deep", 1),
        (b"[[1]]", 2, "ok", 0),
        (b"{\"a\":{}}", 1, "deep", 5),
        (b"[]", 0, "deep", 0),
        (b"1", 0, "ok", 0),
    ];
    for (bytes, levels, kind, at) in rows {
        let (found, n) = answer_to(rt.alloc(), bytes, levels);
        assert!(rt; found == kind && n == at, "{kind} {at}");
    }
    Ok(())
}

#[test]
fn brackets_without_end_are_too_deep(rt: HostRuntime) -> Result<(), Fail> {
    let brackets = vec![in rt.alloc(); b'['; 33_554_432]?;
    let (found, n) = answer_to(rt.alloc(), &brackets, 128);
    assert!(rt; found == "deep" && n == 128);
    Ok(())
}
