//! Jobs files and what is answered, worked out by hand from their form.
use crate::commands::command_of;
use std::test::Fail;
use words::{Asks, Command, Usage, jobs};

/// A jobs file a row: `ok`, `whole` for the empty pointer, or the pointer; and the file, whose path is `f`.
const FILES: &str = r#"ok {"jobs":[{"input":"a","output":"b"}]}
ok {"jobs":[{"output":"b","input":"a"}]}
ok { "jobs" : [ { "input" : "\u0061" , "output" : "b" } ] }
ok {"jobs":[{"input":"a","output":"b","kernel":"","cwd":"","parameters":{}}]}
ok {"jobs":[{"parameters":{"x":1,"_y9":[null,{"":0}]},"cwd":"d","kernel":"toy","input":"a","output":"b"}]}
ok {"jobs":[{"input":"a","output":"b"},{"input":"c","output":"d"}]}
ok {"jobs":[{"input":"b.nbrun","output":"b"}]}
ok {"jobs":[{"input":"b","output":"b.nbrun-tmp"}]}
ok {"jobs":[{"input":"a","output":"./a"}]}
ok {"jobs":[{"input":"./f","output":"b"}]}
whole nothing
whole []
whole {}
whole null
whole "jobs"
whole {"Jobs":[{"input":"a","output":"b"}]}
whole {"jobs":[{"input":"a","output":"b"}],"x":1}
whole {"x":1,"jobs":[]}
whole {"jobs":[{"input":"a","output":"b"}]}]
whole {"jobs":[{"input":"a","output":"b"}],}
whole {"jobs":[{"input":"a","output":"b","input":"a"}]}
whole {"jobs":[],"jobs":[]}
whole {"jobs":[{"input":"\ud800","output":"b"}]}
/jobs {"jobs":[]}
/jobs {"jobs":{}}
/jobs {"jobs":null}
/jobs {"jobs":"a"}
/jobs {"jobs":{"input":"a","output":"b"}}
/jobs/0 {"jobs":[1]}
/jobs/0 {"jobs":[null,2]}
/jobs/0 {"jobs":[[]]}
/jobs/0 {"jobs":["a"]}
/jobs/0 {"jobs":[{}]}
/jobs/0 {"jobs":[{"input":"a"}]}
/jobs/0 {"jobs":[{"output":"b"}]}
/jobs/0 {"jobs":[{"input":1}]}
/jobs/0 {"jobs":[{"input":"a","output":"b","x":1}]}
/jobs/0 {"jobs":[{"input":"","output":"b","Kernel":"toy"}]}
/jobs/0 {"jobs":[{"input":"a","output":"b","a/b~":1}]}
/jobs/1 {"jobs":[{"input":"a","output":"b"},{}]}
/jobs/1 {"jobs":[{"input":"a","output":"a"},3]}
/jobs/0/input {"jobs":[{"input":"","output":"b"}]}
/jobs/0/input {"jobs":[{"input":1,"output":""}]}
/jobs/0/output {"jobs":[{"output":"","input":""}]}
/jobs/0/output {"jobs":[{"input":"a","output":null}]}
/jobs/0/output {"jobs":[{"input":"a","output":["b"]}]}
/jobs/0/kernel {"jobs":[{"input":"a","output":"b","kernel":1}]}
/jobs/0/kernel {"jobs":[{"kernel":null,"input":"","output":""}]}
/jobs/0/cwd {"jobs":[{"input":"a","output":"b","cwd":{}}]}
/jobs/0/cwd {"jobs":[{"input":"a","output":"b","cwd":0},7]}
/jobs/0/parameters {"jobs":[{"input":"a","output":"b","parameters":[]}]}
/jobs/0/parameters {"jobs":[{"input":"a","output":"b","parameters":null}]}
/jobs/0/parameters {"jobs":[{"input":"a","output":"b","parameters":{"1a":1}}]}
/jobs/0/parameters {"jobs":[{"input":"a","output":"b","parameters":{"":1}}]}
/jobs/0/parameters {"jobs":[{"input":"a","output":"b","parameters":{"x":1,"a-b":2}}]}
/jobs/0/parameters {"jobs":[{"input":"a","output":"b","parameters":{"é":2}}]}
/jobs/1/input {"jobs":[{"input":"a","output":"b"},{"input":"","output":""}]}
/jobs/1/output {"jobs":[{"input":"a","output":"b"},{"input":"c","output":2}]}
/jobs/0/input {"jobs":[{"input":"f","output":"b"}]}
/jobs/0/output {"jobs":[{"input":"a","output":"f"}]}
/jobs/0/output {"jobs":[{"input":"a","output":"a"}]}
/jobs/0/output {"jobs":[{"input":"b.nbrun-tmp","output":"b"}]}
/jobs/0/output {"jobs":[{"input":"b.nbrun-kernel.json","output":"b"}]}
/jobs/1/input {"jobs":[{"input":"a","output":"b"},{"input":"a","output":"c"}]}
/jobs/1/input {"jobs":[{"input":"a","output":"b"},{"input":"b","output":"b"}]}
/jobs/1/input {"jobs":[{"input":"a","output":"b"},{"input":"b.nbrun-tmp","output":"c"}]}
/jobs/1/input {"jobs":[{"input":"a","output":"b"},{"input":"b.nbrun-kernel.json","output":"c"}]}
/jobs/1/output {"jobs":[{"input":"a","output":"b"},{"input":"c","output":"b"}]}
/jobs/1/output {"jobs":[{"input":"a","output":"b"},{"input":"c","output":"a"}]}
/jobs/1/output {"jobs":[{"input":"a","output":"b"},{"input":"c","output":"b.nbrun-tmp"}]}
/jobs/1/output {"jobs":[{"input":"a","output":"b.nbrun-tmp"},{"input":"c","output":"b"}]}
/jobs/2/input {"jobs":[{"input":"a","output":"b"},{"input":"c","output":"d"},{"input":"d","output":"a"}]}"#;

/// `ok`, `whole` or the pointer that is answered for the jobs file `f`.
fn answer(rt: &HostRuntime, text: &str) -> Result<String, Fail> {
    let command = command_of(rt, "--jobs f")?;
    let answer = answer_under(rt, &command, text);
    drop(command);
    answer
}

fn answer_under(rt: &HostRuntime, command: &Command, text: &str) -> Result<String, Fail> {
    let Command::Many { file, common } = command else {
        return Err("one job")?;
    };
    let asks = jobs(rt.alloc(), text.as_bytes(), file, common);
    let answer = String::from_str(rt.alloc(), shown(&asks));
    drop(asks);
    Ok(answer?)
}

fn shown(asks: &Result<Asks, Usage>) -> &str {
    match asks {
        Ok(_) => "ok",
        Err(Usage::BadJobs { pointer }) => {
            if pointer.bytes().is_empty() {
                "whole"
            } else {
                pointer.as_str()
            }
        }
        Err(_) => "other",
    }
}

#[test]
fn each_jobs_file_is_taken_or_refused_at_its_value(rt: HostRuntime) -> Result<(), Fail> {
    for line in FILES.lines() {
        let (expected, text) = line.split_once(' ').ok_or("a file is missing")?;
        let found = answer(&rt, text)?;
        assert!(rt; found.as_str() == expected, "{line}");
    }
    Ok(())
}

/// A jobs file with that many jobs, whose paths differ.
fn with_jobs(rt: &HostRuntime, count: u32) -> Result<String, Fail> {
    let mut text = String::from_str(rt.alloc(), "{\"jobs\":[")?;
    for i in 0..count {
        if 0 < i {
            text.push_str(",")?;
        }
        let job = format!(in rt.alloc(); "{{\"input\":\"a{i}\",\"output\":\"b{i}\"}}")?;
        text.push_str(job.as_str())?;
    }
    text.push_str("]}")?;
    Ok(text)
}

#[test]
fn one_to_sixteen_jobs_are_taken(rt: HostRuntime) -> Result<(), Fail> {
    for count in 0..19 {
        let text = with_jobs(&rt, count)?;
        let expected = if 1 <= count && count <= 16 {
            "ok"
        } else {
            "/jobs"
        };
        assert!(rt; answer(&rt, text.as_str())?.as_str() == expected, "{count}");
    }
    Ok(())
}

/// A jobs file with a parameter of that many nested lists.
fn with_lists(rt: &HostRuntime, levels: u32) -> Result<String, Fail> {
    let mut text = String::from_str(
        rt.alloc(),
        r#"{"jobs":[{"input":"a","output":"b","parameters":{"x":"#,
    )?;
    for _ in 0..levels {
        text.push_str("[")?;
    }
    for _ in 0..levels {
        text.push_str("]")?;
    }
    text.push_str("}}]}")?;
    Ok(text)
}

#[test]
fn a_hundred_levels_are_read(rt: HostRuntime) -> Result<(), Fail> {
    let text = with_lists(&rt, 96)?;
    assert!(rt; answer(&rt, text.as_str())?.as_str() == "ok");
    let text = with_lists(&rt, 97)?;
    assert!(rt; answer(&rt, text.as_str())?.as_str() == "whole");
    Ok(())
}

#[test]
fn a_file_has_at_most_a_mebibyte(rt: HostRuntime) -> Result<(), Fail> {
    let mut text = with_jobs(&rt, 1)?;
    let room = 1_048_576_usize.saturating_sub(text.len());
    for _ in 0..room {
        text.push_str(" ")?;
    }
    assert!(rt; answer(&rt, text.as_str())?.as_str() == "ok");
    text.push_str(" ")?;
    assert!(rt; answer(&rt, text.as_str())?.as_str() == "whole");
    Ok(())
}
