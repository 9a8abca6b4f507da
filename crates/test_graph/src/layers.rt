//! The waves of jobs that need each other.
use crate::files::put_numbers;
use job_graph::{Needs, WaveFault, Waves, waves};
use jtext::{List, NoMemory};
use std::alloc::Global;
use std::process::Abort;
use std::test::Fail;

/// A line the needs of each job, parted by `/`, and the waves.
const WAVES: &str = " => 0 | 
/0 => 0 | 1 | 
/0/1 => 0 | 1 | 2 | 
/0/0/1 2 => 0 | 1 2 | 3 | 
3/0//2 => 2 | 3 | 0 | 1 | 
//0 1/2/ => 0 1 4 | 2 | 3 | 
1/0 => cycle 0
/2/1 => cycle 1
0 => cycle 0
/1/0 => cycle 1";

/// The needs of each job, as such a line gives them.
fn needs_of(alloc: Global, line: &str) -> Result<Needs, NoMemory> {
    let mut needs = Needs::new(alloc);
    for job in line.split('/') {
        needs.push(numbers_of(alloc, job)?)?;
    }
    Ok(needs)
}

fn numbers_of(alloc: Global, text: &str) -> Result<List<u32>, NoMemory> {
    let mut numbers = List::new(alloc);
    for word in text.split(' ') {
        if let Ok(number) = word.parse::<u32>() {
            numbers.push(number)?;
        }
    }
    Ok(numbers)
}

/// The waves, each with a bar behind it, or the job that has none.
fn told(alloc: Global, line: &str) -> Result<String, Fail> {
    let needs = needs_of(alloc, line)?;
    if 100 < needs.len() {
        return Err("too many jobs".into());
    }
    match waves(alloc, &needs) {
        Ok(found) => Ok(waves_text(alloc, &found)?),
        Err(WaveFault::Cycle { job }) => Ok(format!(in alloc; "cycle {job}")?),
        Err(WaveFault::NoMemory) => Err("no memory".into()),
    }
}

fn waves_text(alloc: Global, waves: &Waves) -> Result<String, NoMemory> {
    let mut said = String::new(alloc);
    for wave in waves.as_slice() {
        put_numbers(&mut said, wave)?;
        said.push_str("| ")?;
    }
    Ok(said)
}

#[test]
fn each_job_comes_as_early_as_its_needs_let_it(rt: HostRuntime) -> Result<(), Fail> {
    for row in WAVES.lines() {
        let (needs, wanted) = row.split_once(" => ").ok_or("no answer")?;
        let found = told(rt.alloc(), needs)?;
        assert_eq!(rt; found.as_str(), wanted, "{needs}");
    }
    Ok(())
}
