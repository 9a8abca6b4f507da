//! Command lines and what is answered, worked out by hand from the grammar of the options.
use crate::commands::words_of;
use jtext::{Json, NoMemory, Text};
use std::alloc::Global;
use std::process::Abort;
use std::test::Fail;
use words::{Command, Usage, read, value_of};

/// A command line a row: what is answered, the index of the word that is named, and the words.
const LINES: &str = "\
one 0 A B\n\
one 0 A B --prepare-only\n\
one 0 --prepare-only A B\n\
one 0 A --prepare-only B\n\
one 0 A B -p x 1\n\
one 0 -p x -p A B\n\
one 0 A B -p x --merge-streams\n\
one 0 A B -p _ 1\n\
one 0 A B -p _9a 1\n\
one 0 A B -p Zz_0 1\n\
one 0 A B -r x 1 -p x 2 --parameters x 3 --parameters_raw x 4\n\
one 0 A B -k -k\n\
one 0 A B --kernel --kernel\n\
one 0 A B --kernel-path -\n\
one 0 A B --cwd --cwd\n\
one 0 A B --start-timeout 1\n\
one 0 A B --start-timeout 000000001\n\
one 0 A B --start-timeout 999999999\n\
one 0 A B --execution-timeout 60\n\
one 0 A B --execution-timeout 007\n\
one 0 A B --report-mode --merge-streams --allow-errors --interrupt --no-heartbeat\n\
one 0 A B --allow-error-name E --allow-error-name E --allow-error-name F\n\
one 0 A B --\n\
one 0 -- A B\n\
one 0 A -- B\n\
one 0 -- -A --\n\
one 0 -- A --prepare-only\n\
one 0 -- --jobs --exercise\n\
one 0 A B -k --jobs\n\
one 0 A B -p x --exercise\n\
one 0 A A.nbrun-kernel.jso\n\
one 0 A A.nbrun-tmp\n\
one 0 A.nbrun-tmp.nbrun-tmp A\n\
one 0 A.nbrun A\n\
one 0 A ./A\n\
one 0 AA A\n\
many 0 --jobs f\n\
many 0 --jobs -\n\
many 0 --jobs --jobs\n\
many 0 --jobs f --\n\
many 0 --jobs f --kernel-path d --start-timeout 5 --execution-timeout 5\n\
many 0 --report-mode --jobs f --merge-streams --allow-errors --interrupt --no-heartbeat\n\
many 0 --allow-error-name E --jobs f --allow-error-name E\n\
exercise 0 --exercise 0\n\
exercise 0 --exercise 000\n\
exercise 0 --exercise 7\n\
exercise 0 --exercise 007\n\
exercise 0 --exercise 200\n\
missing 0\n\
missing 0 A\n\
missing 0 --\n\
missing 0 -- A\n\
missing 0 A --\n\
missing 0 A --prepare-only\n\
missing 0 --prepare-only\n\
missing 0 A -p x 1\n\
missing 0 -k A\n\
missing 0 -k A B\n\
missing 0 --allow-error-name A B\n\
unknown 0 -\n\
unknown 1 A -\n\
unknown 2 A B -\n\
unknown 0 -x\n\
unknown 0 -P x 1\n\
unknown 0 -px 1\n\
unknown 0 --help\n\
unknown 0 --version\n\
unknown 0 --Kernel x\n\
unknown 0 --kerne x\n\
unknown 0 --kernels x\n\
unknown 2 A B --kernel=toy\n\
unknown 2 A B --cwd=\n\
unknown 2 A B --start-timeout=5\n\
unknown 2 A B -k=toy\n\
unknown 2 A B --parameters-raw x 1\n\
unknown 2 A B ---\n\
unknown 4 A B -k toy --x --x\n\
unknown 3 A B C --x\n\
unknown 2 A A --x\n\
unknown 1 --prepare-only -x --prepare-only\n\
unknown 2 --exercise 5 -x\n\
novalue 2 A B -p\n\
novalue 2 A B -p x\n\
novalue 2 A B -p 1\n\
novalue 2 A B -r\n\
novalue 2 A B --parameters x\n\
novalue 2 A B -k\n\
novalue 2 A B --kernel\n\
novalue 2 A B --kernel-path\n\
novalue 2 A B --cwd\n\
novalue 2 A B --start-timeout\n\
novalue 2 A B --execution-timeout\n\
novalue 2 A B --allow-error-name\n\
novalue 0 --jobs\n\
novalue 0 --exercise\n\
novalue 5 A B -p x 1 -p\n\
novalue 3 A B C -k\n\
novalue 2 A A -k\n\
badnumber 3 A B --start-timeout 0\n\
badnumber 3 A B --start-timeout 000000000\n\
badnumber 3 A B --start-timeout 1000000000\n\
badnumber 3 A B --start-timeout 0000000001\n\
badnumber 3 A B --start-timeout -1\n\
badnumber 3 A B --start-timeout +1\n\
badnumber 3 A B --start-timeout 1.5\n\
badnumber 3 A B --start-timeout 1s\n\
badnumber 3 A B --start-timeout x\n\
badnumber 3 A B --start-timeout --\n\
badnumber 3 A B --execution-timeout 0\n\
badnumber 3 A B --execution-timeout none\n\
badnumber 1 --exercise 201\n\
badnumber 1 --exercise 999\n\
badnumber 1 --exercise 0200\n\
badnumber 1 --exercise -1\n\
badnumber 1 --exercise 1e1\n\
badnumber 1 --exercise --exercise\n\
badnumber 1 --start-timeout 0 --x\n\
badname 3 A B -p 1a 2\n\
badname 3 A B -p a-b 2\n\
badname 3 A B -p a.b 2\n\
badname 3 A B -p - 2\n\
badname 3 A B -p -- 2\n\
badname 3 A B -p é 2\n\
badname 3 A B -p aé 2\n\
badname 3 A B -r 1a 2\n\
badname 3 A B --parameters_raw 0 2\n\
badname 6 A B -p x 1 -p 9 1\n\
badname 3 A A -p 9 1\n\
twice 4 A B -k a -k b\n\
twice 4 A B -k a --kernel b\n\
twice 4 A B --kernel a -k b\n\
twice 4 A B -k a -k\n\
twice 4 A B --cwd a --cwd b\n\
twice 4 A B --kernel-path a --kernel-path b\n\
twice 4 A B --start-timeout 1 --start-timeout 2\n\
twice 4 A B --start-timeout 1 --start-timeout 0\n\
twice 4 A B --execution-timeout 1 --execution-timeout\n\
twice 3 A B --prepare-only --prepare-only\n\
twice 3 A B --report-mode --report-mode\n\
twice 3 A B --merge-streams --merge-streams\n\
twice 3 A B --allow-errors --allow-errors\n\
twice 3 A B --interrupt --interrupt\n\
twice 3 A B --no-heartbeat --no-heartbeat\n\
twice 2 --jobs f --jobs g\n\
twice 2 --jobs f --jobs\n\
twice 2 --exercise 1 --exercise 300\n\
extra 2 A B C\n\
extra 2 A B C D\n\
extra 3 A B -- C\n\
extra 3 A -- B C\n\
extra 5 A -k x B --prepare-only C\n\
extra 2 A A A\n\
extra 2 --jobs f A\n\
extra 0 A --jobs f\n\
extra 3 --jobs f -- A\n\
extra 2 --jobs f -p x 1\n\
extra 2 --jobs f -r x 1\n\
extra 2 --jobs f -k x\n\
extra 0 --kernel x --jobs f\n\
extra 2 --jobs f --cwd d\n\
extra 2 --jobs f --prepare-only\n\
extra 2 --exercise 5 --\n\
extra 2 --exercise 5 A\n\
extra 0 A --exercise 5\n\
extra 0 --report-mode --exercise 5\n\
extra 2 --exercise 5 --jobs f\n\
extra 0 --jobs f --exercise 5\n\
extra 0 -p x 1 --exercise 5\n\
same 1 A A\n\
same 1 A.nbrun-tmp A\n\
same 1 A.nbrun-kernel.json A\n\
same 2 A --prepare-only A\n\
same 2 -- A A\n\
same 3 -k toy A A\n\
same 1 A A -p x 1\n\
extra 3 -- --jobs f x\n\
same 2 -- --x --x\n\
one 0 A B -p x --\n";

fn answer(read: &Result<Command, Usage>) -> (&'static str, u32) {
    match read {
        Ok(Command::One(_)) => ("one", 0),
        Ok(Command::Many { .. }) => ("many", 0),
        Ok(Command::Exercise(_)) => ("exercise", 0),
        Err(Usage::Missing) => ("missing", 0),
        Err(Usage::Unknown { i }) => ("unknown", *i),
        Err(Usage::NoValue { i }) => ("novalue", *i),
        Err(Usage::BadNumber { i }) => ("badnumber", *i),
        Err(Usage::Twice { i }) => ("twice", *i),
        Err(Usage::Extra { i }) => ("extra", *i),
        Err(Usage::SamePath { i }) => ("same", *i),
        Err(Usage::BadName { i }) => ("badname", *i),
        Err(Usage::BadJobs { .. }) => ("badjobs", 0),
        Err(Usage::NoMemory) => ("memory", 0),
    }
}

fn answer_to(alloc: Global, words: &[String]) -> (&'static str, u32) {
    let command = read(alloc, words);
    let found = answer(&command);
    drop(command);
    found
}

/// Whether the words of a row are answered as it says.
fn is_answered(alloc: Global, row: &[String]) -> Result<bool, Fail> {
    let kind = row.first().ok_or("a kind is missing")?;
    let place = row.get(1).ok_or("a place is missing")?;
    let at = place.as_str().parse::<u32>()?;
    let words = row.get(2..).ok_or("the words are missing")?;
    let (found, n) = answer_to(alloc, words);
    Ok(found == kind.as_str() && n == at)
}

/// Whether the line is answered as it says.
fn is_line_answered(rt: &HostRuntime, line: &str) -> Result<bool, Fail> {
    let row = words_of(rt, line)?;
    let is_so = is_answered(rt.alloc(), row.as_slice());
    drop(row);
    is_so
}

#[test]
fn each_command_line_is_taken_or_refused_at_its_word(rt: HostRuntime) -> Result<(), Fail> {
    for line in LINES.lines() {
        assert!(rt; is_line_answered(&rt, line)?, "{line}");
    }
    Ok(())
}

fn shape(value: &Result<Json, NoMemory>) -> &'static str {
    match value {
        Ok(Json::Null) => "null",
        Ok(Json::Bool(true)) => "true",
        Ok(Json::Bool(false)) => "false",
        Ok(Json::Num(_)) => "number",
        Ok(Json::Str(_)) => "string",
        _ => "other",
    }
}

/// What the word stands for.
fn shape_of(alloc: Global, word: &str) -> &'static str {
    let value = value_of(alloc, word);
    let found = shape(&value);
    drop(value);
    found
}

/// A word a row, after what it stands for.
const VALUES: &str = "\
true|True
false|False
null|None
string|true
string|null
string|none
string|
number|0
number|-0
number|7
string|007
string|-
number|1e2
number|1.50
string|1.
string|.5
string|+1
string| 1
string|1 \n\
string|NaN
string|0x10
string|[1]";

#[test]
fn a_word_stands_for_a_number_where_json_has_it(rt: HostRuntime) -> Result<(), Fail> {
    for line in VALUES.lines() {
        let (kind, word) = line.split_once('|').ok_or("a word is missing")?;
        assert!(rt; shape_of(rt.alloc(), word) == kind, "{line}");
    }
    Ok(())
}

/// The refusal, which is dropped by a call, says this.
fn expect_said(rt: &impl Abort, alloc: Global, usage: Usage, want: &str) -> Result<(), Fail> {
    let said = format!(in alloc; "{usage}");
    drop(usage);
    assert_eq!(rt; said?.as_str(), want);
    Ok(())
}

#[test]
fn a_refusal_says_what_is_wrong_and_where(rt: HostRuntime) -> Result<(), Fail> {
    let alloc = rt.alloc();
    let most = 4_294_967_295;
    expect_said(&rt, alloc, Usage::Missing, "missing")?;
    expect_said(&rt, alloc, Usage::Unknown { i: 0 }, "unknown at 0")?;
    expect_said(&rt, alloc, Usage::NoValue { i: 1 }, "no value at 1")?;
    expect_said(&rt, alloc, Usage::BadNumber { i: 2 }, "bad number at 2")?;
    expect_said(&rt, alloc, Usage::Twice { i: 3 }, "twice at 3")?;
    expect_said(&rt, alloc, Usage::Extra { i: 10 }, "extra at 10")?;
    expect_said(
        &rt,
        alloc,
        Usage::SamePath { i: most },
        "same path at 4294967295",
    )?;
    expect_said(&rt, alloc, Usage::BadName { i: 4 }, "bad name at 4")?;
    expect_said(&rt, alloc, Usage::NoMemory, "out of memory")?;
    let pointer = Text::of(alloc, "/jobs/0")?;
    expect_said(
        &rt,
        alloc,
        Usage::BadJobs { pointer },
        "bad jobs at /jobs/0",
    )
}
