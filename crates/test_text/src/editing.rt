//! Trees that are made, changed, copied and taken apart.
use jtext::{
    Bytes, Json, JsonFault, NoMemory, NumFault, NumText, Text, copy_fields, copy_items, copy_texts,
    object, pair, put_compact, put_indented, put_string, read, set_field, set_within, text_pair,
    write_compact,
};
use std::alloc::Global;
use std::test::Fail;

/// A tree, and the tree with 7 under `b` of the object under `a`.
const EDITS: [(&str, &str); 7] = [
    ("{}", "{\"a\":{\"b\":7}}"),
    ("null", "{\"a\":{\"b\":7}}"),
    ("[1]", "{\"a\":{\"b\":7}}"),
    ("{\"a\":3}", "{\"a\":{\"b\":7}}"),
    ("{\"x\":1}", "{\"x\":1,\"a\":{\"b\":7}}"),
    (
        "{\"a\":{\"c\":2},\"x\":1}",
        "{\"a\":{\"c\":2,\"b\":7},\"x\":1}",
    ),
    (
        "{\"x\":1,\"a\":{\"b\":[1],\"c\":2}}",
        "{\"x\":1,\"a\":{\"b\":7,\"c\":2}}",
    ),
];

/// Whether the tree, which is dropped by a call, has this text.
fn has_text(alloc: Global, tree: Json, text: &str) -> Result<bool, NoMemory> {
    let written = write_compact(alloc, &tree);
    drop(tree);
    Ok(written?.bytes() == text.as_bytes())
}

/// The tree with 7 under `b` of the object under `a`.
fn tree_with_seven(alloc: Global, text: &str) -> Result<Json, Fail> {
    let seven = NumText::of(alloc, "7")?;
    let tree = read(alloc, text.as_bytes(), 8)?;
    Ok(set_within(alloc, "a", "b", Json::Num(seven), tree)?)
}

/// An object whose one value was set.
fn tree_with_null(alloc: Global) -> Result<Json, Fail> {
    let tree = read(alloc, b"{\"a\":1}", 8)?;
    Ok(set_field(alloc, "a", Json::Null, tree)?)
}

#[test]
fn a_value_is_set_in_its_place_or_last(rt: HostRuntime) -> Result<(), Fail> {
    let alloc = rt.alloc();
    for (text, want) in EDITS {
        let is_edited = has_text(alloc, tree_with_seven(alloc, text)?, want)?;
        assert!(rt; is_edited, "{text}");
    }
    let is_null = has_text(alloc, tree_with_null(alloc)?, "{\"a\":null}")?;
    assert!(rt; is_null);
    Ok(())
}

/// An object of a text and a choice.
fn object_of_two(alloc: Global) -> Result<Json, NoMemory> {
    let name = text_pair(alloc, "name", "x\n")?;
    object(alloc, [name, pair(alloc, "on", Json::Bool(true))?])
}

/// Whether the tree is that object as text.
fn has_text_of_two(alloc: Global, tree: &Json) -> Result<bool, NoMemory> {
    let text = b"{\"name\":\"x\\n\",\"on\":true}".as_slice();
    Ok(write_compact(alloc, tree)?.bytes() == text)
}

fn is_copied(alloc: Global, tree: &Json) -> Result<bool, NoMemory> {
    let copied = Json::Obj(copy_fields(alloc, tree.pairs())?);
    has_text_of_two(alloc, &copied)
}

/// Whether that object and its copy have that text, and the object is taken apart into its pairs.
fn is_made_and_parted(alloc: Global) -> Result<bool, NoMemory> {
    let made = object_of_two(alloc)?;
    let written = has_text_of_two(alloc, &made);
    let copied = is_copied(alloc, &made);
    let parts = made.into_pairs(alloc).len();
    Ok(written? && copied? && parts == 2)
}

fn copied_length(alloc: Global, list: &Json) -> Result<usize, NoMemory> {
    Ok(copy_items(alloc, list.items())?.len())
}

/// Whether a list of two items is copied and taken apart as such.
fn is_list_parted(alloc: Global) -> Result<bool, Fail> {
    let list = read(alloc, b"[1,[2]]", 8)?;
    let copied = copied_length(alloc, &list);
    let parts = list.into_items(alloc).len();
    Ok(copied? == 2 && parts == 2)
}

fn is_null_empty(alloc: Global) -> bool {
    Json::Null.into_pairs(alloc).is_empty()
}

fn is_text(alloc: Global, bytes: &[u8], text: &str) -> Result<bool, JsonFault> {
    let inside = read(alloc, bytes, 8)?.into_text();
    Ok(inside.is_some_and(|s| s.as_str() == text))
}

fn is_number(alloc: Global, bytes: &[u8], text: &str) -> Result<bool, JsonFault> {
    let inside = read(alloc, bytes, 8)?.into_number();
    Ok(inside.is_some_and(|n| n.as_str() == text))
}

#[test]
fn an_object_is_made_copied_and_taken_apart(rt: HostRuntime) -> Result<(), Fail> {
    let alloc = rt.alloc();
    assert!(rt; is_made_and_parted(alloc)?);
    assert!(rt; is_list_parted(alloc)?);
    assert!(rt; is_null_empty(alloc));
    assert!(rt; is_text(alloc, b"\"s\"", "s")?);
    assert!(rt; is_number(alloc, b"1e2", "1e2")?);
    Ok(())
}

#[test]
fn texts_are_equal_wherever_they_lie(rt: HostRuntime) -> Result<(), Fail> {
    let alloc = rt.alloc();
    let owned = Text::of_string(String::from_str(alloc, "few")?);
    let inline = owned.copy(alloc)?;
    assert!(rt; owned == inline && owned != Text::of(alloc, "fed")?);
    let mut texts = jtext::Texts::new(alloc);
    texts.push(owned)?;
    texts.push(inline)?;
    let copied = copy_texts(alloc, texts.as_slice())?;
    assert!(rt; copied.len() == 2 && copied.iter().all(|text| text.as_str() == "few"));
    Ok(())
}

fn put_all(alloc: Global, out: &mut Bytes, tree: &Json) -> Result<(), NoMemory> {
    put_string(out, "a\"\u{e9}\u{1}")?;
    put_compact(out, tree)?;
    put_indented(alloc, out, 2, tree)
}

#[test]
fn writers_append_to_what_they_are_lent(rt: HostRuntime) -> Result<(), Fail> {
    let alloc = rt.alloc();
    let mut out = Bytes::of(alloc, b">")?;
    let tree = read(alloc, b"{\"b\":[1],\"a\":{}}", 8)?;
    let end = put_all(alloc, &mut out, &tree);
    drop(tree);
    end?;
    let want =
        ">\"a\\\"\u{e9}\\u0001\"{\"b\":[1],\"a\":{}}{\n   \"a\": {},\n   \"b\": [\n    1\n   ]\n  }";
    assert_eq!(rt; out.bytes(), want.as_bytes());
    Ok(())
}

#[test]
fn a_fault_says_what_is_wrong_and_where(rt: HostRuntime) -> Result<(), Fail> {
    let alloc = rt.alloc();
    for (fault, want) in [
        (JsonFault::NotUtf8 { at: 0 }, "not JSON: utf8 at 0"),
        (JsonFault::Bad { at: 12 }, "not JSON: syntax at 12"),
        (JsonFault::Deep { at: 128 }, "not JSON: depth at 128"),
        (JsonFault::Repeated { at: 7 }, "not JSON: repeated key at 7"),
        (JsonFault::Lone { at: 1 }, "not JSON: lone surrogate at 1"),
        (JsonFault::NoMemory, "out of memory"),
    ] {
        assert_eq!(rt; format!(in alloc; "{fault}")?.as_str(), want);
    }
    let (number, memory) = (NumFault::NotNumber, NoMemory);
    assert_eq!(rt;
        format!(in alloc; "{number}, {memory}")?.as_str(),
        "not a number, out of memory"
    );
    Ok(())
}
