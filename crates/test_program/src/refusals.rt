//! Words and inputs that are refused, and what is said of them.
use crate::runs::{add, gives, world, world_of};
use samples::notebooks::TWO;
use std::test::Fail;
use world_mem::Files;

/// The status, the words, and the line.
const WORDS: &str = "\
2|A A|usage: same path at 1
2|--exercise 201|usage: bad number at 1
2|IN|usage: missing
2|IN OUT -p 1a 2|usage: bad name at 3
2|IN OUT -k|usage: no value at 2
2|IN OUT X|usage: extra at 2
2|in out -x|usage: unknown at 2
2|in out --prepare-only --prepare-only|usage: twice at 3
2|out.nbrun-tmp out --prepare-only|usage: same path at 1
2|out.nbrun-kernel.json out --prepare-only|usage: same path at 1
2|--help|usage: unknown at 0
2|--exercise 5 --|usage: extra at 2
2|report|usage: missing
2|report x|usage: unknown at 1
2|report script in|usage: missing
2|report script -a|usage: unknown at 2
2|report page in -- out|usage: unknown at 3
2|report script A B -C|usage: extra at 4
2|report notebook in in|usage: same path at 3
2|report page out.nbrun-tmp out|usage: same path at 3
2|graph|usage: no value at 0
2|graph f --jobs g|usage: twice at 2
2|graph f --exercise 1|usage: extra at 0
2|graph --report-mode f|usage: extra at 2
2|graph f -p a 1|usage: extra at 2
3|graph absent|nbrun: cannot read absent
3|report page absent out|out: cannot read absent
4|report page in out|out: not JSON: syntax at 0
4|report notebook in out|out: not a script at 0
4|in out|out: not JSON: syntax at 0
3|absent out|out: cannot read absent
3|absent out --prepare-only|out: cannot read absent
3|--jobs absent|nbrun: cannot read absent
2|--jobs in|usage: bad jobs at ";

/// The status, the input, and the line.
const INPUTS: &str = r#"4|{"a":1,"a":2}|out: not JSON: repeated key at 7
4|{"cells": [|out: not JSON: syntax at 11
4||out: not JSON: syntax at 0
4|"\ud800x"|out: not JSON: lone surrogate at 1
4|[]|out: not nbformat 4.5: shape at 
4|{"nbformat":4,"nbformat_minor":6}|out: not nbformat 4.5: version
4|{"cells":[],"metadata":{},"nbformat":3,"nbformat_minor":4}|out: not nbformat 4.5: version
4|{"cells":[{}],"metadata":{},"nbformat":4,"nbformat_minor":5}|out: not nbformat 4.5: shape at /cells/0
4|{"cells":[],"metadata":{"kernelspec":{"name":"a","display_name":1}},"nbformat":4,"nbformat_minor":5}|out: not nbformat 4.5: shape at /metadata/kernelspec/display_name
4|{"cells":[{"cell_type":"raw","id":"x","metadata":{},"source":""},{"cell_type":"raw","id":"x","metadata":{},"source":""}],"metadata":{},"nbformat":4,"nbformat_minor":5}|out: not nbformat 4.5: same id x
5|{"cells":[],"metadata":{"kernelspec":{"name":"ir","display_name":"R","language":"R"}},"nbformat":4,"nbformat_minor":5}|out: no translator for "R"
5|{"cells":[],"metadata":{"language_info":{"name":"q\"\n"}},"nbformat":4,"nbformat_minor":5}|out: no translator for "q\"\n""#;

/// Whether nothing is written, and just this line is said.
fn refuses(
    rt: &HostRuntime,
    words: &str,
    input: &[u8],
    code: &str,
    line: &str,
) -> Result<bool, Fail> {
    let mut w = world(rt, input, None)?;
    let mut said = String::from_str(rt.alloc(), line)?;
    said.push('\n')?;
    let code = code.parse::<u8>().map_err(|_| "no number")?;
    gives(rt, words, &mut w, code, said.as_str(), None)
}

#[test]
fn words_are_refused_with_the_index_of_the_word(rt: HostRuntime) -> Result<(), Fail> {
    for row in WORDS.lines() {
        let (code, row) = row.split_once('|').ok_or("no status")?;
        let (words, line) = row.split_once('|').ok_or("no line")?;
        assert!(rt; refuses(&rt, words, b"", code, line)?, "{words}");
    }
    Ok(())
}

#[test]
fn inputs_are_refused_with_the_place(rt: HostRuntime) -> Result<(), Fail> {
    for row in INPUTS.lines() {
        let (code, row) = row.split_once('|').ok_or("no status")?;
        let (input, line) = row.split_once('|').ok_or("no line")?;
        let words = "in out --prepare-only -p a 1";
        assert!(rt;
            refuses(&rt, words, input.as_bytes(), code, line)?,
            "{input}"
        );
    }
    Ok(())
}

#[test]
fn bytes_that_are_no_text_are_refused(rt: HostRuntime) -> Result<(), Fail> {
    let words = "in out --prepare-only";
    assert!(rt; refuses(&rt, words, b"{\"\xff\"", "4", "out: not JSON: utf8 at 2")?);
    Ok(())
}

#[test]
fn an_input_nested_129_deep_is_refused(rt: HostRuntime) -> Result<(), Fail> {
    let input = vec![in rt.alloc(); b'['; 129]?;
    let words = "in out --prepare-only";
    assert!(rt;
        refuses(
            &rt,
            words,
            input.as_slice(),
            "4",
            "out: not JSON: depth at 128"
        )?
    );
    Ok(())
}

#[test]
fn an_input_over_32_mib_is_refused(rt: HostRuntime) -> Result<(), Fail> {
    let input = vec![in rt.alloc(); b' '; 33_554_433]?;
    let words = "in out --prepare-only";
    assert!(rt; refuses(&rt, words, input.as_slice(), "4", "out: too large")?);
    Ok(())
}

/// Where the description of the kernel `toy` stands.
const SPEC_PATH: &str = "/usr/local/share/jupyter/kernels/toy/kernel.json";

/// A kernel's description, and what is said of it where an interrupt is asked for.
const SPECS: &str = r#"{"argv":["k"]|not JSON
[]|not JSON
{}|no argv
{"argv":[]}|no argv
{"argv":["k"],"env":{"A":1}}|bad env
{"argv":["k"]}|signal mode"#;

/// Whether nothing is written over this description, and just this is said of it.
fn refuses_spec(rt: &HostRuntime, spec: &str, kind: &str) -> Result<bool, Fail> {
    let mut files = Files::new(rt.alloc());
    add(rt, &mut files, "in", TWO.as_bytes())?;
    add(rt, &mut files, SPEC_PATH, spec.as_bytes())?;
    let mut w = world_of(rt, files, None)?;
    let said = format!(in rt.alloc(); "out: kernel spec: {kind}\n")?;
    let is_so = gives(rt, "in out --interrupt", &mut w, 5, said.as_str(), None);
    drop(w);
    is_so
}

#[test]
fn a_description_of_a_kernel_is_refused_by_its_fault(rt: HostRuntime) -> Result<(), Fail> {
    for row in SPECS.lines() {
        let (spec, kind) = row.split_once('|').ok_or("no kind")?;
        assert!(rt; refuses_spec(&rt, spec, kind)?, "{spec}");
    }
    Ok(())
}
