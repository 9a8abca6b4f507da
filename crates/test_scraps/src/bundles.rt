//! Scraps that the library scrapbook records.
use crate::found::found_in;
use std::test::Fail;

/// A line a scrap's data: what stands under its media type, and the scraps in it.
const RECORDS: &str =
    r#"{"name":"a","data":[1,{"b":null}],"encoder":"json","version":1} => {"a":[1,{"b":null}]}
{"data":"True","name":"no parameter name"} => {"no parameter name":"True"}
{"name":"","data":null} => {"":null}
{"name":"a"} => {}
{"data":1} => {}
{"name":1,"data":1} => {}
["name","data"] => {}
"a" => {}"#;

/// The text of an output of that type with this data.
fn output(rt: &HostRuntime, kind: &str, data: &str) -> Result<String, Fail> {
    let count = if kind == "execute_result" {
        "\"execution_count\":1,"
    } else {
        ""
    };
    Ok(format!(in rt.alloc();
        "{{\"output_type\":\"{kind}\",{count}\"metadata\":{{}},\"data\":{data}}}"
    )?)
}

#[test]
fn records_give_their_names_and_values(rt: HostRuntime) -> Result<(), Fail> {
    for row in RECORDS.lines() {
        let (record, scraps) = row.split_once(" => ").ok_or("an arrow is missing")?;
        let data = format!(in rt.alloc();
            "{{\"application/scrapbook.scrap.json+json\":{record}}}"
        )?;
        for kind in ["display_data", "execute_result"] {
            let shown = output(&rt, kind, data.as_str())?;
            assert_eq!(rt;
                found_in(&rt, shown.as_str())?.as_str(),
                scraps,
                "{kind} {row}"
            );
        }
    }
    Ok(())
}

/// Outputs, and no scraps in them.
const OTHERS: [&str; 4] = [
    r#"{"output_type":"display_data","metadata":{},"data":{"text/plain":"scrap a = 1\n"}}"#,
    r#"{"output_type":"display_data","metadata":{},"data":{"application/json":{"name":"a","data":1}}}"#,
    r#"{"output_type":"display_data","metadata":{},"data":{}}"#,
    r#"{"output_type":"error","ename":"scrap a = 1\n","evalue":"","traceback":["scrap a = 1\n"]}"#,
];

#[test]
fn other_outputs_give_none(rt: HostRuntime) -> Result<(), Fail> {
    for outputs in OTHERS {
        assert_eq!(rt; found_in(&rt, outputs)?.as_str(), "{}", "{outputs}");
    }
    Ok(())
}

#[test]
fn rows_and_records_share_their_names(rt: HostRuntime) -> Result<(), Fail> {
    let outputs =
        r#"{"name":"stdout","output_type":"stream","text":"scrap a = 1\nscrap b = 2\n"},{"output_type":"display_data","metadata":{},"data":{"application/scrapbook.scrap.json+json":{"name":"a","data":3}}}"#;
    assert_eq!(rt; found_in(&rt, outputs)?.as_str(), r#"{"a":3,"b":2}"#);
    Ok(())
}
