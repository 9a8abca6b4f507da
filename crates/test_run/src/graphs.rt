//! Graphs with the toy kernel: jobs that need each other, and parameters that are taken from outputs.
ghost use Rattle.std.specs.Prelude.{◌≤◌, ◌<◌, All, IfOk};
ghost use Rattle.toy_core.specs.Toy.{latest_of};

use crate::checks::{has, has_said, starts};
use crate::jobs::{add, program, spec_file};
use crate::notebooks::notebook;
use crate::toys::toy;
use jtext::{NoMemory, Text};
use std::alloc::Global;
use std::process::Abort;
use std::test::Fail;
use toy_core::Toy;
use world_mem::{Files, Kernels, MemWorld, Script, Sizes};

/// Two jobs, of which the second takes `x` from the first.
const TAKES: &str =
    r#"{"jobs":[{"name":"a","input":"a","output":"x"},{"name":"b","input":"b","output":"y","needs":["a"],"take":{"x":{"job":"a","scrap":"v"}}}]}"#;

/// The same, where `x` is a parameter of the file too, behind another one.
const REPLACES: &str =
    r#"{"jobs":[{"name":"a","input":"a","output":"x"},{"name":"b","input":"b","output":"y","parameters":{"x":1,"z":2},"needs":["a"],"take":{"x":{"job":"a","scrap":"v"}}}]}"#;

/// Two jobs that need each other.
const CYCLE: &str =
    r#"{"jobs":[{"name":"a","input":"a","output":"x","needs":["b"]},{"name":"b","input":"b","output":"y","needs":["a"]}]}"#;

/// Four jobs: the third needs the second, the fourth the first.
const FORK: &str =
    r#"{"jobs":[{"name":"a","input":"a","output":"x"},{"name":"b","input":"b","output":"y"},{"name":"c","input":"c","output":"z","needs":["b"]},{"name":"d","input":"d","output":"u","needs":["a"]}]}"#;

/// The rows of the first cell: what the kernel is asked to print.
const PRINTS: &str = r#"print \"scrap v = 7\""#;

// Kernels of the numbers from 0 on, one for each key's first word.
fn kernels(alloc: Global, keys: &[u64]) -> Result<Kernels<Toy>, NoMemory>
    ensures { IfOk result (All (λ toy. latest_of toy ≤ 0)) }
{
    let mut kernels = Kernels::new(alloc);
    for key in keys {
        let toy = toy(alloc, *key, key.saturating_add(1))?;
        kernels.push(toy)?;
    }
    Ok(kernels)
}

// The files of a graph: itself, and a notebook of one cell for each name.
fn files(alloc: Global, graph: &str, notebooks: &[(&str, &str)]) -> Result<Files, NoMemory> {
    let mut files = Files::new(alloc);
    add(alloc, &mut files, "graph.json", graph)?;
    spec_file(alloc, &mut files)?;
    for (path, source) in notebooks {
        let text = notebook(alloc, &[*source])?;
        add(alloc, &mut files, path, text.as_str())?;
    }
    Ok(files)
}

// A world with these files, and kernels under these keys.
fn world(alloc: Global, files: Files, keys: &[u64]) -> Result<MemWorld<Toy>, NoMemory> {
    let script = Script {
        start_ms: 0,
        pieces: Sizes::new(alloc),
        fails: Sizes::new(alloc),
        refusals: 0,
    };
    MemWorld::new(alloc, files, kernels(alloc, keys)?, script)
}

// A world of two notebooks, and of two kernels.
fn pair(alloc: Global, graph: &str, a: &str, b: &str) -> Result<MemWorld<Toy>, NoMemory> {
    world(alloc, files(alloc, graph, &[("a", a), ("b", b)])?, &[2, 6])
}

// Whether the second job gets the value that the first one printed, and uses it.
fn takes(alloc: Global, graph: &str) -> Result<bool, NoMemory> {
    let mut w = pair(alloc, graph, PRINTS, "print x")?;
    let is_so = is_taken(alloc, &mut w);
    drop(w);
    is_so
}

fn is_taken(alloc: Global, w: &mut MemWorld<Toy>) -> Result<bool, NoMemory> {
    Ok(
        program(alloc, w, "graph graph.json")? == 0
            && has(alloc, w, "y", "x = 7", 1)?
            && has(alloc, w, "y", "\"7\\n\"", 1)?
            && has(alloc, w, "y", "x = 1", 0)?,
    )
}

#[test]
fn a_value_is_taken_from_what_ran_before(rt: HostRuntime) -> Result<(), Fail> {
    let is_so = takes(rt.alloc(), TAKES)?;
    assert!(rt; is_so);
    Ok(())
}

#[test]
fn a_taken_value_replaces_that_of_the_file(rt: HostRuntime) -> Result<(), Fail> {
    let is_so = takes(rt.alloc(), REPLACES)?;
    assert!(rt; is_so);
    Ok(())
}

// Whether a graph of these two cells ends with this status, starts one kernel, and says this at last.
fn ends(
    alloc: Global,
    graph: &str,
    first: &str,
    status: u8,
    often: usize,
    said: &str,
) -> Result<bool, NoMemory> {
    let mut w = pair(alloc, graph, first, "print x")?;
    let is_so = has_ended(alloc, &mut w, status, often, said);
    drop(w);
    is_so
}

fn has_ended(
    alloc: Global,
    w: &mut MemWorld<Toy>,
    status: u8,
    often: usize,
    said: &str,
) -> Result<bool, NoMemory> {
    let given = program(alloc, w, "graph graph.json")?;
    let has_output = w.file(&Text::of(alloc, "y")?).is_some();
    Ok(given == status && has_said(w, said) && starts(w) == often && !has_output)
}

#[test]
fn a_job_is_skipped_where_what_it_needs_failed(rt: HostRuntime) -> Result<(), Fail> {
    let said = "saved 0/1 x\nsaved 1/1 x\nx: cell 0: error \"E\"\ny: skipped\n";
    let is_so = ends(rt.alloc(), TAKES, r#"raise E \"no\""#, 1, 1, said)?;
    assert!(rt; is_so);
    Ok(())
}

#[test]
fn a_scrap_that_is_missing_is_named(rt: HostRuntime) -> Result<(), Fail> {
    let said = "saved 0/1 x\nsaved 1/1 x\nx: done\ny: no scrap \"v\" in \"a\"\n";
    let is_so = ends(rt.alloc(), TAKES, "print 1", 18, 1, said)?;
    assert!(rt; is_so);
    Ok(())
}

#[test]
fn jobs_that_need_each_other_are_refused(rt: HostRuntime) -> Result<(), Fail> {
    let said = "usage: bad jobs at /jobs/0/needs\n";
    let is_so = ends(rt.alloc(), CYCLE, "print 1", 2, 0, said)?;
    assert!(rt; is_so);
    Ok(())
}

// Whether a kernel that signs under another key ends its own job, and those that need it, alone.
fn is_forked(alloc: Global, w: &mut MemWorld<Toy>) -> Result<bool, NoMemory> {
    let given = program(alloc, w, "graph graph.json --start-timeout 1")?;
    Ok(
        given == 7
            && starts(w) == 3
            && says(w, "x: done\n")
            && says(w, "y: kernel not ready\n")
            && says(w, "z: skipped\n")
            && says(w, "u: done\n"),
    )
}

// Whether this was said among else.
fn says(w: &MemWorld<Toy>, text: &str) -> bool {
    match std::str::from_utf8(w.said().bytes()) {
        Ok(said) => said.contains(text),
        Err(_) => false,
    }
}

#[test]
fn a_broken_kernel_stops_only_what_needs_its_job(rt: HostRuntime) -> Result<(), Fail> {
    let alloc = rt.alloc();
    let one = "print 1";
    let all = files(
        alloc,
        FORK,
        &[("a", one), ("b", one), ("c", one), ("d", one)],
    )?;
    let mut w = world(alloc, all, &[2, 90, 10])?;
    let is_so = is_forked(alloc, &mut w);
    drop(w);
    assert!(rt; is_so?);
    Ok(())
}

/// The keys of 16 kernels, in the order in which jobs draw their words.
const KEYS: [u64; 16] = [2, 6, 10, 14, 18, 22, 26, 30, 34, 38, 42, 46, 50, 54, 58, 62];

// A graph of 16 jobs in five waves: each but the first needs the one a fourth of the way before it.
fn sixteen(alloc: Global) -> Result<String, NoMemory> {
    let mut text = String::from_str(alloc, "{\"jobs\":[")?;
    for job in 0..16u32 {
        let comma = if job == 0 { "" } else { "," };
        let needs = if job == 0 {
            String::new(alloc)
        } else {
            let before = job.saturating_sub(1) / 4;
            let low = if job <= 4 {
                0
            } else {
                before.saturating_mul(4).saturating_sub(3)
            };
            format!(in alloc; ",\"needs\":[\"j{low}\"]")?
        };
        let needs = needs.as_str();
        let one = format!(in alloc;
            "{comma}{{\"name\":\"j{job}\",\"input\":\"i{job}\",\"output\":\"o{job}\"{needs}}}"
        )?;
        text.push_str(one.as_str())?;
    }
    text.push_str("]}")?;
    Ok(text)
}

// The notebooks of 16 jobs, with the graph.
fn sixteen_files(alloc: Global) -> Result<Files, NoMemory> {
    let graph = sixteen(alloc)?;
    let mut files = files(alloc, graph.as_str(), &[])?;
    let text = notebook(alloc, &["print 1"])?;
    for job in 0..16u32 {
        let path = format!(in alloc; "i{job}")?;
        add(alloc, &mut files, path.as_str(), text.as_str())?;
    }
    Ok(files)
}

// Whether each job of the last wave began behind the last line of the wave before.
fn is_in_waves(alloc: Global, w: &mut MemWorld<Toy>) -> Result<bool, NoMemory> {
    let given = program(alloc, w, "graph graph.json")?;
    Ok(given == 0 && starts(w) == 16 && in_order(alloc, w)?)
}

// Whether the jobs of each wave are done before one of the next is saved first.
fn in_order(alloc: Global, w: &MemWorld<Toy>) -> Result<bool, NoMemory> {
    let Ok(said) = std::str::from_utf8(w.said().bytes()) else {
        return Ok(false);
    };
    for job in 1..16u32 {
        let wave = job.saturating_add(3) / 4;
        let first = format!(in alloc; "saved 0/1 o{job}\n")?;
        let Some((before, _)) = said.split_once(first.as_str()) else {
            return Ok(false);
        };
        let low = if wave <= 1 {
            0
        } else {
            wave.saturating_mul(4).saturating_sub(7)
        };
        let line = format!(in alloc; "o{low}: done\n")?;
        if !before.contains(line.as_str()) {
            return Ok(false);
        }
    }
    Ok(true)
}

#[test]
fn sixteen_jobs_run_in_five_waves(rt: HostRuntime) -> Result<(), Fail> {
    let alloc = rt.alloc();
    let mut w = world(alloc, sixteen_files(alloc)?, &KEYS)?;
    let is_so = is_in_waves(alloc, &mut w);
    drop(w);
    assert!(rt; is_so?);
    Ok(())
}
