//! Each option with the field that it sets, and what stands where it isn't given.
use crate::commands::command_of;
use crate::shown::shown;
use std::test::Fail;
use words::Command;

/// A command line a row, and what is asked of one job, or of all jobs of a batch.
const LINES: &str = "\
A B|A B - /usr/local/share/jupyter/kernels . 000001 60000 0
A B -k toy|A B toy /usr/local/share/jupyter/kernels . 000001 60000 0
--kernel toy A B|A B toy /usr/local/share/jupyter/kernels . 000001 60000 0
A --kernel-path d B|A B - d . 000001 60000 0
A B --cwd e|A B - /usr/local/share/jupyter/kernels e 000001 60000 0
A B --kernel-path d --start-timeout 5|A B - d . 000001 5000 0
A B --kernel-path d --execution-timeout 007|A B - d . 000001 60000 7000
A B --kernel-path d --prepare-only|A B - d . 100001 60000 0
A B --kernel-path d --report-mode|A B - d . 010001 60000 0
A B --kernel-path d --merge-streams|A B - d . 001001 60000 0
A B --kernel-path d --allow-errors|A B - d . 000101 60000 0
A B --kernel-path d --interrupt|A B - d . 000011 60000 0
A B --kernel-path d --no-heartbeat|A B - d . 000000 60000 0
A B --kernel-path d --allow-error-name E --allow-error-name F --allow-error-name E|A B - d . 000001 60000 0 E F E
A B --kernel-path d -p x 1 -r y 2 --parameters x 3|A B - d . 000001 60000 0 x=3 y='2'
A B --kernel-path d --parameters_raw x 1 -p x None|A B - d . 000001 60000 0 x=null
A B --kernel-path d -p x True -p y -p -p z 007|A B - d . 000001 60000 0 x=true y='-p' z='007'
--kernel-path d -- -A --|-A -- - d . 000001 60000 0
--jobs f --kernel-path d --merge-streams|  - d . 001001 60000 0";

/// What the words, which single spaces part, ask for.
fn ask_text(rt: &HostRuntime, line: &str) -> Result<String, Fail> {
    let command = command_of(rt, line)?;
    let text = command_text(rt, &command);
    drop(command);
    text
}

fn command_text(rt: &HostRuntime, command: &Command) -> Result<String, Fail> {
    match command {
        Command::One(ask) => shown(rt, ask),
        Command::Many { file: _, common } => shown(rt, common),
        Command::Exercise(_) => Err("an exercise")?,
    }
}

#[test]
fn each_option_sets_its_field(rt: HostRuntime) -> Result<(), Fail> {
    for line in LINES.lines() {
        let (words, expected) = line.split_once('|').ok_or("what is asked is missing")?;
        let found = ask_text(&rt, words)?;
        assert!(rt; found.as_str() == expected, "{line}");
    }
    Ok(())
}
