//! Kernel specs: names, what a `kernel.json` says, arguments and connection files.
use jtext::{Bytes, Fields, Json, NoMemory, Text, Texts, write_compact};
use kspec::{Spec, SpecFault, argv, connection_text, good_name, spec};
use std::alloc::Global;
use std::test::Fail;

/// A line a name, and whether a kernel may have it.
const NAMES: &str = "\
python3 true
ir true
xeus-python_3.11 true
.hidden true
a/b false
.. false
. false
naïve false
a:b false";

/// Whether a kernel may have the name.
fn is_good(alloc: Global, name: &str) -> Result<bool, NoMemory> {
    let name = Text::of(alloc, name)?;
    let is_so = good_name(&name);
    drop(name);
    Ok(is_so)
}

/// Whether a kernel may have a name of that length.
fn is_length_good(alloc: Global, length: usize) -> Result<bool, Fail> {
    let long = "k".repeat(alloc, length)?;
    let is_so = is_good(alloc, long.as_str());
    drop(long);
    Ok(is_so?)
}

fn is_empty_good(alloc: Global) -> bool {
    good_name(&Text::new(alloc))
}

#[test]
fn names_are_of_a_folder_below(rt: HostRuntime) -> Result<(), Fail> {
    for row in NAMES.lines() {
        let (name, wanted) = row.split_once(' ').ok_or("no answer")?;
        let found = is_good(rt.alloc(), name)?;
        assert_eq!(rt; found, wanted == "true", "{name}");
    }
    assert!(rt; !is_empty_good(rt.alloc()));
    for (length, wanted) in [(128, true), (129, false)] {
        let found = is_length_good(rt.alloc(), length)?;
        assert_eq!(rt; found, wanted, "{length}");
    }
    Ok(())
}

/// Each word with a blank behind it.
fn words_text(alloc: Global, words: &Texts) -> Result<String, Fail> {
    let mut text = String::new(alloc);
    for word in words.as_slice() {
        text.push_str(word.as_str())?;
        text.push(' ')?;
    }
    Ok(text)
}

/// The object of these pairs in one line. It is dropped by a call, for a short proof.
fn fields_text(alloc: Global, fields: Fields) -> Result<Bytes, NoMemory> {
    let object = Json::Obj(fields);
    let text = write_compact(alloc, &object);
    drop(object);
    text
}

/// The words, the environment and whether the kernel is interrupted by a message.
fn spec_text(alloc: Global, s: Spec) -> Result<String, Fail> {
    let Spec {
        argv,
        env,
        by_message,
    } = s;
    let words = words_text(alloc, &argv);
    drop(argv);
    let env = fields_text(alloc, env);
    let mut text = words?;
    let env = env?;
    text.push_str(std::str::from_utf8(env.bytes()).map_err(|_| "no text")?)?;
    text.push_str(if by_message { " message" } else { " signal" })?;
    Ok(text)
}

/// What the spec says, or why it is refused.
fn told(rt: &HostRuntime, bytes: &[u8], interrupt: bool) -> Result<String, Fail> {
    match spec(rt.alloc(), bytes, interrupt) {
        Ok(s) => spec_text(rt.alloc(), s),
        Err(fault) => Ok(format!(in rt.alloc(); "{fault}")?),
    }
}

/// A line a spec: whether an interrupt by message is asked for, the bytes, and what they say.
const SPECS: &str =
    r#"no {"argv":["k","-f","{connection_file}"]} => k -f {connection_file} {} signal
yes {"argv":["k","-f","{connection_file}"]} => signal mode
yes {"argv":["k"],"interrupt_mode":"message","display_name":"K","metadata":{"debugger":true}} => k {} message
no {"argv":["k"],"env":{"A":"1","B":""},"interrupt_mode":"signal"} => k {"A":"1","B":""} signal
no {"argv":["k"],"interrupt_mode":1} => k {} signal
no [] => not JSON
no {"argv":["k"] => not JSON
no {"argv":["k"],"argv":["l"]} => not JSON
no {"env":1} => no argv
no {"argv":[]} => no argv
no {"argv":"k"} => no argv
no {"argv":["k",1],"env":1} => no argv
no {"argv":["k"],"env":[]} => bad env
no {"argv":["k"],"env":{"A":1}} => bad env
yes {"argv":["k"],"env":{"A":null}} => bad env
yes {"argv":["k"],"interrupt_mode":"signal"} => signal mode"#;

#[test]
fn specs_are_read_or_refused_by_their_first_fault(rt: HostRuntime) -> Result<(), Fail> {
    for row in SPECS.lines() {
        let (asked, rest) = row.split_once(' ').ok_or("no question")?;
        let (bytes, wanted) = rest.split_once(" => ").ok_or("an arrow is missing")?;
        let found = told(&rt, bytes.as_bytes(), asked == "yes")?;
        assert_eq!(rt; found.as_str(), wanted, "{row}");
    }
    Ok(())
}

/// What a spec says with so many blanks behind it that it has that size.
fn told_of_size(rt: &HostRuntime, size: usize) -> Result<String, Fail> {
    let mut bytes = Vec::from_slice(rt.alloc(), br#"{"argv":["k"]}"#)?;
    bytes.resize(size, b' ')?;
    let found = told(rt, bytes.as_slice(), false);
    drop(bytes);
    found
}

/// A spec with a value nested so deep.
fn deep_spec(alloc: Global, deep: usize) -> Result<String, Fail> {
    let open = "[".repeat(alloc, deep)?;
    let close = "]".repeat(alloc, deep)?;
    let open = open.as_str();
    let close = close.as_str();
    Ok(format!(in alloc; "{{\"argv\":[\"k\"],\"x\":{open}{close}}}")?)
}

/// What that spec says.
fn told_of_depth(rt: &HostRuntime, deep: usize) -> Result<String, Fail> {
    let text = deep_spec(rt.alloc(), deep)?;
    let found = told(rt, text.as_str().as_bytes(), false);
    drop(text);
    found
}

#[test]
fn specs_have_a_size_and_a_depth(rt: HostRuntime) -> Result<(), Fail> {
    for (size, wanted) in [(1 << 20, "k {} signal"), ((1 << 20) + 1, "not JSON")] {
        let found = told_of_size(&rt, size)?;
        assert_eq!(rt; found.as_str(), wanted, "{size}");
    }
    for (deep, wanted) in [(99, "k {} signal"), (100, "not JSON")] {
        let found = told_of_depth(&rt, deep)?;
        assert_eq!(rt; found.as_str(), wanted, "{deep}");
    }
    Ok(())
}

/// A line a word of `argv`, and what it becomes.
const WORDS: &str = "\
k k
{connection_file} /t/{resource_dir}.json
{resource_dir}/run.sh /k/{connection_file}/run.sh
--f={connection_file}{connection_file} --f=/t/{resource_dir}.json/t/{resource_dir}.json
{{resource_dir}} {/k/{connection_file}}
{connection_file {connection_file
{prefix}é{ {prefix}é{";

/// The spec of a kernel whose `argv` is this one word.
fn spec_of(rt: &HostRuntime, word: &str) -> Result<Spec, Fail> {
    let text = format!(in rt.alloc(); "{{\"argv\":[\"{word}\"]}}")?;
    let read = spec(rt.alloc(), text.as_str().as_bytes(), false);
    drop(text);
    Ok(read.map_err(|_| "refused")?)
}

/// The arguments, for a connection file and a folder that have each the other's name within.
fn arguments(alloc: Global, s: &Spec) -> Result<Texts, NoMemory> {
    let file = Text::of(alloc, "/t/{resource_dir}.json")?;
    let folder = Text::of(alloc, "/k/{connection_file}")?;
    argv(alloc, s, &file, &folder)
}

fn first_argument(alloc: Global, s: &Spec) -> Result<Text, Fail> {
    let words = arguments(alloc, s)?;
    let first = words.get(0).ok_or("no word")?;
    Ok(first.copy(alloc)?)
}

/// What this word of `argv` becomes.
fn word_with_names(rt: &HostRuntime, word: &str) -> Result<Text, Fail> {
    let s = spec_of(rt, word)?;
    let first = first_argument(rt.alloc(), &s);
    drop(s);
    first
}

#[test]
fn names_in_arguments_are_replaced_once(rt: HostRuntime) -> Result<(), Fail> {
    for row in WORDS.lines() {
        let (word, wanted) = row.split_once(' ').ok_or("no answer")?;
        let found = word_with_names(&rt, word)?;
        assert_eq!(rt; found.as_str(), wanted, "{word}");
    }
    Ok(())
}

#[test]
fn a_kernel_is_started_by_the_words_of_its_spec(rt: HostRuntime) -> Result<(), Fail> {
    let text = br#"{"argv":["k","-f","{connection_file}"]}"#;
    let s = spec(rt.alloc(), text, false).map_err(|_| "refused")?;
    let said = words_of(rt.alloc(), &s);
    drop(s);
    assert_eq!(rt; said?.as_str(), "k -f /t/c.json ");
    Ok(())
}

/// The words by which the kernel is started, with this connection file.
fn words_of(alloc: Global, s: &Spec) -> Result<String, Fail> {
    let words = argv(
        alloc,
        s,
        &Text::of(alloc, "/t/c.json")?,
        &Text::of(alloc, "/k/toy")?,
    )?;
    let said = words_text(alloc, &words);
    drop(words);
    said
}

#[test]
fn a_connection_file_has_its_keys_in_order(rt: HostRuntime) -> Result<(), Fail> {
    let key = Text::of(rt.alloc(), "k")?;
    let text = connection_text(rt.alloc(), [1001, 1002, 1003, 1004, 1005], &key)?;
    let found = std::str::from_utf8(text.bytes()).map_err(|_| "no text")?;
    let wanted =
        r#"{"control_port":1004,"hb_port":1005,"iopub_port":1002,"ip":"127.0.0.1","key":"k","shell_port":1001,"signature_scheme":"hmac-sha256","stdin_port":1003,"transport":"tcp"}"#;
    assert_eq!(rt; found, wanted);
    Ok(())
}
