//! Scraps in rows that are printed.
use crate::found::{cell, found, printed};
use std::test::Fail;

/// A line a stream: its text, and the scraps in it.
const STREAMS: &str = r#""scrap a = b\n" => {"a":"b"}
"scrap a = 7" => {"a":7}
"scrap a = -1.5e3\nscrap b = True\nscrap c = None\n" => {"a":-1.5e3,"b":true,"c":null}
"scrap a =  two words \n" => {"a":" two words "}
"scrap a = b = c\n" => {"a":"b = c"}
"scrap a = 7\r\n" => {"a":"7\r"}
"scrap a = \n" => {"a":""}
"scrap a =\n" => {}
"scrap a =7\n" => {}
"scrap a= 7\n" => {}
"scrap  a = 7\n" => {}
"scrap = 7\n" => {}
" scrap a = 7\n" => {}
"scrap 1a = 7\n" => {}
"scrap a-b = 7\n" => {}
"scrap a b = 7\n" => {}
"Scrap a = 7\n" => {}
"x\n\nscrap a = 1\nscrap b = 2\ny" => {"a":1,"b":2}
"scrap a = 1\nscrap b = 2\nscrap a = 3\n" => {"a":3,"b":2}
"\n" => {}
"" => {}
["scrap a = 1\n","scrap b = 2\n"] => {"a":1,"b":2}
["scr","ap a",""," = 1","2\nx"] => {"a":12}
[] => {}"#;

#[test]
fn rows_give_their_names_and_values(rt: HostRuntime) -> Result<(), Fail> {
    for row in STREAMS.lines() {
        let (text, scraps) = row.split_once(" => ").ok_or("an arrow is missing")?;
        assert_eq!(rt; printed(&rt, "stdout", text)?.as_str(), scraps, "{row}");
    }
    Ok(())
}

#[test]
fn the_standard_error_stream_is_not_read(rt: HostRuntime) -> Result<(), Fail> {
    let text = r#""scrap a = 7\n""#;
    assert_eq!(rt; printed(&rt, "stderr", text)?.as_str(), "{}");
    assert_eq!(rt; printed(&rt, "stdout", text)?.as_str(), r#"{"a":7}"#);
    Ok(())
}

/// The text of a stream with one row.
fn stream(rt: &HostRuntime, row: &str) -> Result<String, Fail> {
    Ok(format!(in rt.alloc();
        "{{\"name\":\"stdout\",\"output_type\":\"stream\",\"text\":\"{row}\\n\"}}"
    )?)
}

#[test]
fn a_later_cell_gives_a_name_its_last_value(rt: HostRuntime) -> Result<(), Fail> {
    let first = cell(&rt, "a", stream(&rt, "scrap x = 1")?.as_str())?;
    let second = cell(&rt, "b", stream(&rt, "scrap y = 2")?.as_str())?;
    let third = cell(&rt, "c", stream(&rt, "scrap x = 3")?.as_str())?;
    let raw = r#"{"cell_type":"raw","id":"r","metadata":{},"source":"scrap z = 4\n"}"#;
    let cells = format!(in rt.alloc();
        "{},{raw},{},{}",
        first.as_str(),
        second.as_str(),
        third.as_str()
    )?;
    assert_eq!(rt; found(&rt, cells.as_str())?.as_str(), r#"{"x":3,"y":2}"#);
    assert_eq!(rt; found(&rt, "")?.as_str(), "{}", "no cells");
    Ok(())
}
