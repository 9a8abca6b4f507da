//! Contents as ipykernel, xeus and IRkernel send them, contents that lack what they need, and what
//! is sent.
use crate::trees::tree_text;
use jcontent::{
    Content, ReplyIs, Shown, State, empty_content, execute_content, read, shutdown_content,
};
use jtext::{Bytes, Json, NoMemory, NumText, Text, Texts, write_compact};
use std::alloc::Global;
use std::process::Abort;
use std::test::Fail;

/// What a message of that type with that content says, in short.
fn said(alloc: Global, kind: &str, content: &str) -> Result<Bytes, Fail> {
    match jtext::read(alloc, content.as_bytes(), 100) {
        Ok(tree) => {
            let said = summary_of_tree(alloc, kind, &tree);
            drop(tree);
            Ok(said?)
        }
        Err(_) => Err("no tree".into()),
    }
}

fn summary_of_tree(alloc: Global, kind: &str, tree: &Json) -> Result<Bytes, NoMemory> {
    let content = content_of(alloc, kind, tree)?;
    let said = summary(alloc, &content);
    drop(content);
    said
}

fn content_of(alloc: Global, kind: &str, tree: &Json) -> Result<Content, NoMemory> {
    let kind = Text::of(alloc, kind)?;
    read(alloc, &kind, tree)
}

fn summary(alloc: Global, content: &Content) -> Result<Bytes, NoMemory> {
    let mut out = Bytes::new(alloc);
    put_content(alloc, &mut out, content)?;
    Ok(out)
}

fn put_content(alloc: Global, out: &mut Bytes, content: &Content) -> Result<(), NoMemory> {
    match content {
        Content::Status(State::Busy) => out.add(b"busy"),
        Content::Status(State::Idle) => out.add(b"idle"),
        Content::Status(State::Else) => out.add(b"else"),
        Content::Input(count) => put_count(out, count),
        Content::Stream { name, text } => put_two(out, name, text),
        Content::Display(shown) => put_shown(alloc, out, b"display", shown),
        Content::Update(shown) => put_shown(alloc, out, b"update", shown),
        Content::Outcome { shown, count } => {
            put_count(out, count)?;
            put_shown(alloc, out, b" result", shown)
        }
        Content::Error {
            ename,
            evalue,
            traceback,
        } => {
            put_two(out, ename, evalue)?;
            put_lines(out, traceback)
        }
        Content::Clear { later } => out.add(if *later { b"later" } else { b"clear" }),
        Content::ExecReply(ReplyIs::Error { ename }) => put_word(out, b"failed", ename),
        Content::ExecReply(ReplyIs::Fine) => out.add(b"fine"),
        Content::InfoReply => out.add(b"info"),
        Content::Other => out.add(b"other"),
    }
}

fn put_word(out: &mut Bytes, word: &[u8], text: &Text) -> Result<(), NoMemory> {
    out.add(word)?;
    out.add(b" ")?;
    out.add(text.bytes())
}

fn put_two(out: &mut Bytes, first: &Text, second: &Text) -> Result<(), NoMemory> {
    put_word(out, first.bytes(), second)
}

fn put_count(out: &mut Bytes, count: &Option<NumText>) -> Result<(), NoMemory> {
    match count {
        Some(count) => out.add(count.as_str().as_bytes()),
        None => out.add(b"no count"),
    }
}

fn put_lines(out: &mut Bytes, lines: &Texts) -> Result<(), NoMemory> {
    for line in lines.as_slice() {
        out.add(b"/")?;
        out.add(line.bytes())?;
    }
    Ok(())
}

fn put_shown(alloc: Global, out: &mut Bytes, word: &[u8], shown: &Shown) -> Result<(), NoMemory> {
    match &shown.id {
        Some(id) => put_word(out, word, id)?,
        None => out.add(word)?,
    }
    for (key, value) in shown.bundle.as_slice() {
        put_word(out, b"", key)?;
        put_tree(alloc, out, value)?;
    }
    put_tree(alloc, out, &shown.metadata)
}

fn put_tree(alloc: Global, out: &mut Bytes, tree: &Json) -> Result<(), NoMemory> {
    let text = write_compact(alloc, tree)?;
    out.add(b" ")?;
    out.add(text.bytes())
}

/// Whether each row `TYPE CONTENT -> SHORT` holds; the first that doesn't is handed to the caller.
fn first_wrong<'a>(alloc: Global, rows: &'a str) -> Result<Option<&'a str>, Fail> {
    for row in rows.split('\n') {
        let (message, short) = row.split_once(" -> ").unwrap_or((row, ""));
        let (kind, content) = message.split_once(' ').unwrap_or((message, ""));
        let said = said(alloc, kind, content)?;
        if said.bytes() != short.as_bytes() {
            return Ok(Some(row));
        }
    }
    Ok(None)
}

/// Keys that the standard doesn't name, `transient` absent or empty, bundles of strings and of
/// lists of strings.
const SENT_BY_KERNELS: &str = r#"status {"execution_state":"busy"} -> busy
status {"execution_state":"idle","x":1} -> idle
status {"execution_state":"starting"} -> else
execute_input {"code":"1","execution_count":12} -> 12
stream {"name":"stdout","text":"a b"} -> stdout a b
stream {"text":"","name":"stderr"} -> stderr 
display_data {"data":{"text/plain":"1"},"metadata":{},"transient":{}} -> display text/plain "1" {}
display_data {"data":{"text/plain":["a","b"],"application/x+json":[1]},"metadata":{"isolated":true}} -> display text/plain ["a","b"] application/x+json [1] {"isolated":true}
display_data {"data":{"text/html":"<b>","text/markdown":"b","text/plain":"b"},"metadata":{"text/html":{"isolated":true}}} -> display text/html "<b>" text/markdown "b" text/plain "b" {"text/html":{"isolated":true}}
display_data {"data":{"application/vnd.jupyter.widget-view+json":{"version_major":2,"model_id":"m"},"text/plain":"W()"},"metadata":{},"transient":{"display_id":null}} -> display application/vnd.jupyter.widget-view+json {"version_major":2,"model_id":"m"} text/plain "W()" {}
display_data {"data":{"application/json":null},"metadata":{},"transient":{"display_id":"d"}} -> display d application/json null {}
update_display_data {"data":{},"metadata":{},"transient":{"display_id":"d"}} -> update d {}
update_display_data {"data":{"image/png":"aQ=="},"metadata":{"image/png":{"width":1}},"transient":{"display_id":""}} -> update  image/png "aQ==" {"image/png":{"width":1}}
execute_result {"data":{"text/html":"<b>"},"metadata":{},"execution_count":3,"transient":{"display_id":"d"}} -> 3 result d text/html "<b>" {}
execute_result {"execution_count":1,"data":{"text/plain":"2"},"metadata":{}} -> 1 result text/plain "2" {}
error {"ename":"KeyError","evalue":"'x'","traceback":["a","b"]} -> KeyError 'x'/a/b
error {"ename":"ERROR","evalue":"Error in eval(expr): x","traceback":[]} -> ERROR Error in eval(expr): x
clear_output {"wait":true} -> later
clear_output {"wait":false} -> clear
execute_reply {"status":"ok","execution_count":1,"user_expressions":{},"payload":[],"started":"2026-11-27T09:00:00.123456Z"} -> fine
execute_reply {"status":"aborted"} -> fine
execute_reply {"status":"abort","execution_count":0} -> fine
execute_reply {"status":"error","ename":"KeyError","evalue":"","traceback":[],"engine_info":{"engine_id":-1},"execution_count":2,"payload":[]} -> failed KeyError
kernel_info_reply {"status":"ok","protocol_version":"5.3","implementation":"xpython","language_info":{"name":"python"},"banner":""} -> info
comm_open {"comm_id":"c","target_name":"t","data":{}} -> other
shutdown_reply {"restart":false} -> other
 {} -> other"#;

/// Each key of each type missing, and of another kind.
const WITHOUT_THEIR_SHAPE: &str = r#"status {} -> other
status {"execution_state":1} -> other
status {"execution_state":null} -> other
status [] -> other
execute_input {} -> no count
execute_input {"execution_count":null} -> no count
execute_input {"execution_count":"1"} -> no count
execute_input {"execution_count":1e0} -> no count
execute_input {"execution_count":-1} -> no count
execute_input {"execution_count":-0} -> no count
execute_input {"execution_count":1.0} -> no count
execute_input {"execution_count":0} -> 0
execute_input {"execution_count":123456789012345678901234567890} -> 123456789012345678901234567890
execute_input "1" -> no count
stream {"text":"a"} -> other
stream {"name":"stdout"} -> other
stream {"name":null,"text":"a"} -> other
stream {"name":"stdout","text":["a"]} -> other
display_data {"metadata":{}} -> other
display_data {"data":null} -> other
display_data {"data":[]} -> other
display_data {"data":{"a":1}} -> other
display_data {"data":{"a":null}} -> other
display_data {"data":{"a":["b",1]}} -> other
display_data {"data":{"text/plain":{"a":"b"}}} -> other
display_data {"data":{},"metadata":null} -> other
display_data {"data":{},"metadata":[]} -> other
display_data {"data":{}} -> display {}
display_data {"data":{},"transient":{"display_id":1}} -> display {}
display_data {"data":{},"transient":"d"} -> display {}
display_data {"data":{},"display_id":"d"} -> display {}
update_display_data {"data":{}} -> other
update_display_data {"data":{},"transient":{}} -> other
update_display_data {"data":{},"transient":{"display_id":1}} -> other
update_display_data {"data":{},"transient":null} -> other
update_display_data {"transient":{"display_id":"d"}} -> other
update_display_data {"data":1,"transient":{"display_id":"d"}} -> other
update_display_data {"data":{},"metadata":1,"transient":{"display_id":"d"}} -> other
execute_result {} -> other
execute_result {"data":"1","execution_count":1} -> other
execute_result {"data":{},"metadata":"","execution_count":1} -> other
execute_result {"data":{}} -> no count result {}
execute_result {"data":{},"execution_count":null} -> no count result {}
execute_result {"data":{},"execution_count":1.5} -> no count result {}
execute_result {"data":{},"execution_count":1,"transient":{"display_id":[]}} -> 1 result {}
error {"evalue":"","traceback":[]} -> other
error {"ename":"","traceback":[]} -> other
error {"ename":"","evalue":""} -> other
error {"ename":1,"evalue":"","traceback":[]} -> other
error {"ename":"","evalue":null,"traceback":[]} -> other
error {"ename":"","evalue":"","traceback":"a"} -> other
error {"ename":"","evalue":"","traceback":[1]} -> other
clear_output {} -> clear
clear_output {"wait":null} -> clear
clear_output {"wait":1} -> clear
clear_output {"wait":"true"} -> clear
execute_reply {} -> other
execute_reply {"status":0} -> other
execute_reply {"status":"error"} -> failed 
execute_reply {"status":"error","ename":1} -> other
execute_reply {"status":"error","ename":null} -> other
execute_reply {"status":"ok","ename":1} -> fine
kernel_info_reply null -> info"#;

#[test]
fn reads_what_kernels_send(rt: HostRuntime) -> Result<(), Fail> {
    let wrong = first_wrong(rt.alloc(), SENT_BY_KERNELS)?;
    assert_eq!(rt; wrong, None);
    Ok(())
}

#[test]
fn a_content_without_its_shape_is_another(rt: HostRuntime) -> Result<(), Fail> {
    let wrong = first_wrong(rt.alloc(), WITHOUT_THEIR_SHAPE)?;
    assert_eq!(rt; wrong, None);
    Ok(())
}

/// A request to execute one line.
fn request_of_line(alloc: Global) -> Result<Json, NoMemory> {
    let code = Text::of(alloc, "print(\"a\")\n")?;
    execute_content(alloc, &code, true)
}

/// The tree is this text.
fn expect_text(rt: &impl Abort, alloc: Global, tree: Json, text: &[u8]) -> Result<(), Fail> {
    let found = tree_text(alloc, tree)?;
    assert_eq!(rt; found.bytes(), text);
    Ok(())
}

#[test]
fn sends_what_the_standard_names(rt: HostRuntime) -> Result<(), Fail> {
    let alloc = rt.alloc();
    let execute =
        br#"{"code":"print(\"a\")\n","silent":false,"store_history":true,"user_expressions":{},"allow_stdin":false,"stop_on_error":true}"#;
    expect_text(&rt, alloc, request_of_line(alloc)?, execute)?;
    expect_text(&rt, alloc, empty_content(alloc), b"{}")?;
    expect_text(&rt, alloc, shutdown_content(alloc)?, b"{\"restart\":false}")
}
