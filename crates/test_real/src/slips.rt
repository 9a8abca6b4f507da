//! Words that would write over a file that the run uses otherwise, by another of its paths.
use crate::programs::run;
use crate::worlds::remove;
use jtext::Fields;
use samples::notebooks::EMPTY;
use std::os::unix::fs::symlink;
use std::process::Abort;
use std::test::Fail;
use std::{env, fs};

/// A folder with an input, links to it and to its folder.
fn make_folder(rt: &HostRuntime, folder: &str) -> Result<(), Fail> {
    fs::create_dir(rt, folder)?;
    let input = format!(in rt.alloc(); "{folder}/in")?;
    let link = format!(in rt.alloc(); "{folder}/link")?;
    let hard = format!(in rt.alloc(); "{folder}/hard")?;
    let linked = format!(in rt.alloc(); "{folder}/linked")?;
    fs::write(rt, input.as_str(), EMPTY)?;
    symlink(rt, "in", link.as_str())?;
    fs::hard_link(rt, input.as_str(), hard.as_str())?;
    symlink(rt, ".", linked.as_str())?;
    Ok(())
}

fn remove_folder(rt: &HostRuntime, folder: &str) -> Result<(), Fail> {
    for name in ["in", "link", "hard", "linked"] {
        let path = format!(in rt.alloc(); "{folder}/{name}")?;
        fs::remove_file(rt, path.as_str())?;
    }
    fs::remove_dir(rt, folder)?;
    Ok(())
}

#[test]
fn an_output_that_is_the_input_by_another_path_is_refused(rt: HostRuntime) -> Result<(), Fail> {
    make_folder(&rt, "same")?;
    let here = env::current_dir(&rt)?;
    let here = here.as_path().as_os_str();
    let absolute = format!(in rt.alloc(); "same/in {here}/same/in --prepare-only")?;
    let rows = [
        ("same/in ./same/in --prepare-only", 1),
        ("same/in same//in --prepare-only", 1),
        ("same/in same/../same/in --prepare-only", 1),
        ("same/in same/linked/in --prepare-only", 1),
        ("same/in same/link --prepare-only", 1),
        ("same/link same/in --prepare-only", 1),
        ("same/in same/hard --prepare-only", 1),
        ("--prepare-only same/in -p a same/hard same/hard", 5),
        ("same/in ./same/in", 1),
        ("report script same/in ./same/in", 3),
        ("report page same/in same/hard", 3),
        (absolute.as_str(), 1),
    ];
    for (words, at) in rows {
        let ran = run(&rt, "same-input", "", words, &Fields::new(rt.alloc()))?;
        assert_eq!(rt; ran.status, 2, "{words}");
        let line = format!(in rt.alloc(); "usage: same path at {at}\n")?;
        assert!(rt;
            ran.said.as_str().contains(line.as_str()),
            "{words}: {}",
            ran.said
        );
        assert!(rt;
            fs::read_to_string(&rt, "same/in")?.as_str() == EMPTY,
            "{words}"
        );
    }
    let ran = run(
        &rt,
        "same-input",
        "",
        "same/in same/linked/out --prepare-only",
        &Fields::new(rt.alloc()),
    )?;
    assert_eq!(rt; ran.status, 0);
    remove(&rt, &["same/out"])?;
    remove_folder(&rt, "same")
}

/// The jobs file of these jobs, of an input and an output each.
fn write_jobs(rt: &HostRuntime, path: &str, jobs: &[(&str, &str)]) -> Result<(), Fail> {
    let mut text = String::from_str(rt.alloc(), "{\"jobs\": [")?;
    for (i, (input, output)) in jobs.iter().enumerate() {
        if i > 0 {
            text.push_str(", ")?;
        }
        let job = format!(in rt.alloc(); "{{\"input\": \"{input}\", \"output\": \"{output}\"}}")?;
        text.push_str(job.as_str())?;
    }
    text.push_str("]}")?;
    fs::write(rt, path, text.as_bytes())?;
    Ok(())
}

#[test]
fn a_jobs_file_with_one_file_by_two_paths_is_refused(rt: HostRuntime) -> Result<(), Fail> {
    make_folder(&rt, "batch")?;
    let rows = [
        (
            [("batch/in", "./batch/in"), ("batch/x", "batch/y")],
            "/jobs/0/output",
        ),
        (
            [("batch/in", "batch/o"), ("batch/x", "batch/linked/o")],
            "/jobs/1/output",
        ),
        (
            [("batch/x", "batch/link"), ("batch/in", "batch/y")],
            "/jobs/1/input",
        ),
        (
            [("batch/in", "./batch-jobs"), ("batch/x", "batch/y")],
            "/jobs/0/output",
        ),
        (
            [
                ("batch/o.nbrun-tmp", "batch/y"),
                ("batch/in", "batch/linked/o"),
            ],
            "/jobs/1/output",
        ),
    ];
    for (jobs, pointer) in rows {
        write_jobs(&rt, "batch-jobs", jobs.as_slice())?;
        let none = Fields::new(rt.alloc());
        let ran = run(&rt, "same-jobs", "", "--jobs batch-jobs", &none)?;
        assert_eq!(rt; ran.status, 2, "{pointer}");
        let line = format!(in rt.alloc(); "usage: bad jobs at {pointer}\n")?;
        assert!(rt;
            ran.said.as_str().contains(line.as_str()),
            "{pointer}: {}",
            ran.said
        );
    }
    assert!(rt; fs::read_to_string(&rt, "batch/in")?.as_str() == EMPTY);
    write_jobs(
        &rt,
        "batch-jobs",
        &[("batch/in", "batch/o"), ("batch/link", "batch/y")],
    )?;
    let ran = run(
        &rt,
        "same-jobs",
        "",
        "--jobs batch-jobs",
        &Fields::new(rt.alloc()),
    )?;
    assert_ne!(rt; ran.status, 2, "one input may have two paths");
    for path in ["batch/o", "batch/y"] {
        let _ = fs::remove_file(&rt, path);
    }
    remove(&rt, &["batch-jobs"])?;
    remove_folder(&rt, "batch")
}

#[test]
fn a_graph_with_one_file_by_two_paths_is_refused(rt: HostRuntime) -> Result<(), Fail> {
    make_folder(&rt, "waves")?;
    let graph =
        r#"{"jobs":[{"name":"a","input":"waves/in","output":"waves/o"},{"name":"b","input":"waves/x","output":"waves/linked/o","needs":["a"]}]}"#;
    fs::write(&rt, "waves-graph", graph.as_bytes())?;
    let none = Fields::new(rt.alloc());
    let ran = run(&rt, "same-graph", "", "graph waves-graph", &none)?;
    assert_eq!(rt; ran.status, 2);
    assert!(rt;
        ran.said
            .as_str()
            .contains("usage: bad jobs at /jobs/1/output\n"),
        "{}",
        ran.said
    );
    remove(&rt, &["waves-graph"])?;
    remove_folder(&rt, "waves")
}
