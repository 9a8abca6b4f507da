use jtext::{Json, field, is_bundle, is_whole_text, read, string_at};
use std::process::Abort;
use std::test::Fail;

const TREE: &[u8] =
    b"{\"name\":\"x\",\"count\":10,\"data\":{\"text/plain\":[\"a\",\"b\"],\"a/b+json\":1}}";

fn look_at_fields(rt: &impl Abort, tree: &Json) {
    assert!(rt; tree.is_object() && !tree.is_list() && !tree.is_string());
    assert_eq!(rt; tree.pairs().len(), 3);
    assert_eq!(rt; tree.items().len(), 0);
    assert!(rt; string_at(tree, "name").is_some_and(|name| name.as_str() == "x"));
    assert!(rt; string_at(tree, "count").is_none());
    let count = field(tree, "count").and_then(|v| v.as_number());
    assert!(rt; count.is_some_and(|n| is_whole_text(n.as_str().as_bytes())));
}

fn look_at_data(rt: &impl Abort, tree: &Json) {
    let data = field(tree, "data");
    assert!(rt; data.is_some_and(|v| is_bundle(v)) && !is_bundle(tree));
    let lines = data.and_then(|v| field(v, "text/plain"));
    assert!(rt; lines.is_some_and(|v| v.is_strings() && v.items().len() == 2));
}

#[test]
fn a_tree_is_looked_into(rt: HostRuntime) -> Result<(), Fail> {
    let tree = read(rt.alloc(), TREE, 8)?;
    look_at_fields(&rt, &tree);
    look_at_data(&rt, &tree);
    drop(tree);
    Ok(())
}
