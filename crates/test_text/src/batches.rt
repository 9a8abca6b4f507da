//! What is asked of the jobs of a file.
use crate::commands::command_of;
use crate::shown::shown;
use std::test::Fail;
use words::{Asks, Command, jobs};

const WORDS: &str =
    "--jobs f --kernel-path d --merge-streams --allow-error-name E --start-timeout 5";

const FILE: &str = r#"{"jobs":[{"input":"c","output":"e"},
{"parameters":{"y":[true],"x":"1","z":1e2},"cwd":"w","kernel":"toy","output":"b","input":"a"}]}"#;

/// What the jobs file asks for under these words, which single spaces part.
fn asks_of(rt: &HostRuntime, line: &str, file: &str) -> Result<Asks, Fail> {
    let command = command_of(rt, line)?;
    let asks = asks_under(rt, &command, file);
    drop(command);
    asks
}

fn asks_under(rt: &HostRuntime, command: &Command, text: &str) -> Result<Asks, Fail> {
    let Command::Many { file, common } = command else {
        return Err("the words are of one job")?;
    };
    let asks = jobs(rt.alloc(), text.as_bytes(), file, common);
    Ok(asks.map_err(|_| "the file is refused")?)
}

/// Each of the jobs with a semicolon behind it.
fn asks_text(rt: &HostRuntime, asks: &Asks) -> Result<String, Fail> {
    let mut text = String::new(rt.alloc());
    for ask in asks.as_slice() {
        text.push_str(shown(rt, ask)?.as_str())?;
        text.push_str(";")?;
    }
    Ok(text)
}

#[test]
fn each_job_gives_its_own_and_keeps_the_rest(rt: HostRuntime) -> Result<(), Fail> {
    let asks = asks_of(&rt, WORDS, FILE)?;
    let found = asks_text(&rt, &asks);
    drop(asks);
    let found = found?;
    let expected = "c e - d . 001001 5000 0 E;a b toy d w 001001 5000 0 E y=[] x='1' z=1e2;";
    assert!(rt; found.as_str() == expected, "{found}");
    Ok(())
}
