//! Files of graphs, a line each.
use job_graph::{Graph, GraphFault, Needs, Take, Takes, graph};
use jtext::{List, NoMemory, Texts, write_compact};
use std::alloc::Global;
use std::process::Abort;
use std::test::Fail;

/// What a file gives: the names, what each job needs, what it takes, and the jobs file that stays; or why it is refused.
fn told(alloc: Global, file: &str) -> Result<String, Fail> {
    match graph(alloc, file.as_bytes()) {
        Ok(g) => {
            let said = graph_text(alloc, &g);
            drop(g);
            said
        }
        Err(fault) => {
            let said = fault_text(alloc, &fault);
            drop(fault);
            Ok(said?)
        }
    }
}

fn fault_text(alloc: Global, fault: &GraphFault) -> Result<String, NoMemory> {
    match fault {
        GraphFault::Bad { pointer } => {
            let at = pointer.as_str();
            Ok(format!(in alloc; "bad {at}")?)
        }
        GraphFault::Cycle { job } => Ok(format!(in alloc; "cycle {job}")?),
        GraphFault::NoMemory => Err(NoMemory),
    }
}

fn graph_text(alloc: Global, g: &Graph) -> Result<String, Fail> {
    let mut said = String::new(alloc);
    put_names(&mut said, &g.names)?;
    put_needs(&mut said, &g.needs)?;
    put_takes(&mut said, &g.takes)?;
    let rest = write_compact(alloc, &g.rest)?;
    said.push_str("rest ")?;
    said.push_str(std::str::from_utf8(rest.bytes()).map_err(|_| "no text")?)?;
    Ok(said)
}

fn put_names(said: &mut String, names: &Texts) -> Result<(), NoMemory> {
    for name in names.as_slice() {
        said.push_str(name.as_str())?;
        said.push_str(" ")?;
    }
    Ok(())
}

fn put_needs(said: &mut String, needs: &Needs) -> Result<(), NoMemory> {
    for list in needs.as_slice() {
        said.push_str("needs ")?;
        put_numbers(said, list)?;
    }
    Ok(())
}

/// Each number with a space behind it.
pub(crate) fn put_numbers(said: &mut String, numbers: &List<u32>) -> Result<(), NoMemory> {
    for number in numbers.as_slice() {
        let digit = match *number {
            0 => "0 ",
            1 => "1 ",
            2 => "2 ",
            3 => "3 ",
            4 => "4 ",
            _ => "more ",
        };
        said.push_str(digit)?;
    }
    Ok(())
}

fn put_takes(said: &mut String, takes: &Takes) -> Result<(), NoMemory> {
    for list in takes.as_slice() {
        for take in list.as_slice() {
            put_take(said, take)?;
        }
    }
    Ok(())
}

fn put_take(said: &mut String, take: &Take) -> Result<(), NoMemory> {
    said.push_str("take ")?;
    said.push_str(take.param.as_str())?;
    said.push_str(if take.job == 0 {
        " of 0 as "
    } else {
        " of another as "
    })?;
    said.push_str(take.scrap.as_str())?;
    said.push_str(" ")?;
    Ok(())
}

/// A line a file, and what it gives.
const FILES: &str = r#"{"jobs":[{"name":"a"}]} => a needs rest {"jobs":[{}]}
{"jobs":[{"name":"a","input":"x"},{"needs":["a"],"name":"b","take":{"p":{"job":"a","scrap":"v"}},"output":"y"}],"z":1} => a b needs needs 0 take p of 0 as v rest {"jobs":[{"input":"x"},{"output":"y"}],"z":1}
{"jobs":[{"name":"a","needs":["b"]},{"name":"b"}]} => a b needs 1 needs rest {"jobs":[{},{}]}
x => bad 
[] => bad 
{} => bad 
{"jobs":{}} => bad /jobs
{"jobs":[]} => bad /jobs
{"jobs":[{"name":""},1]} => bad /jobs
{"jobs":[{}]} => bad /jobs/0
{"jobs":[{"needs":1}]} => bad /jobs/0
{"jobs":[{"name":""}]} => bad /jobs/0/name
{"jobs":[{"name":1}]} => bad /jobs/0/name
{"jobs":[{"name":"a"},{"name":"a"}]} => bad /jobs/1/name
{"jobs":[{"name":"a","needs":"b"}]} => bad /jobs/0/needs
{"jobs":[{"name":"a","needs":["b"]}]} => bad /jobs/0/needs/0
{"jobs":[{"name":"a","needs":["a"]}]} => bad /jobs/0/needs/0
{"jobs":[{"name":"a","needs":["b","b"]},{"name":"b"}]} => bad /jobs/0/needs/1
{"jobs":[{"name":"a","needs":[1]}]} => bad /jobs/0/needs/0
{"jobs":[{"name":"a","take":[]}]} => bad /jobs/0/take
{"jobs":[{"name":"a","take":{"1p":{}}}]} => bad /jobs/0/take
{"jobs":[{"name":"a","take":{"p":1}}]} => bad /jobs/0/take/p
{"jobs":[{"name":"a","take":{"p":{"job":"b"}}}]} => bad /jobs/0/take/p
{"jobs":[{"name":"a","take":{"p":{"job":"b","scrap":"v","x":1}}}]} => bad /jobs/0/take/p
{"jobs":[{"name":"b"},{"name":"a","take":{"p":{"scrap":1,"job":"b"}}}]} => bad /jobs/1/take/p/scrap
{"jobs":[{"name":"b"},{"name":"a","take":{"p":{"job":"b","scrap":1}}}]} => bad /jobs/1/take/p/job
{"jobs":[{"name":"b","needs":["c"]},{"name":"a","needs":["x"]},{"name":"c"}]} => bad /jobs/1/needs/0
{"jobs":[{"name":"a","needs":["b"]},{"name":"b","needs":["a"]}]} => cycle 0
{"jobs":[{"name":"c"},{"name":"a","needs":["b","c"]},{"name":"b","needs":["a"]}]} => cycle 1"#;

#[test]
fn a_file_gives_its_graph_or_its_first_fault(rt: HostRuntime) -> Result<(), Fail> {
    for row in FILES.lines() {
        let (file, wanted) = row.split_once(" => ").ok_or("no answer")?;
        let found = told(rt.alloc(), file)?;
        assert_eq!(rt; found.as_str(), wanted, "{file}");
    }
    Ok(())
}

#[test]
fn a_graph_has_at_most_sixteen_jobs(rt: HostRuntime) -> Result<(), Fail> {
    assert_eq!(rt; of_jobs(rt.alloc(), 17)?.as_str(), "bad /jobs");
    assert!(rt; of_jobs(rt.alloc(), 16)?.as_str().starts_with("j0 j1 j2"));
    Ok(())
}

/// What a graph of so many jobs gives.
fn of_jobs(alloc: Global, count: u32) -> Result<String, Fail> {
    let mut file = String::from_str(alloc, "{\"jobs\":[{\"name\":\"j0\"}")?;
    for i in 1..count {
        let job = format!(in alloc; ",{{\"name\":\"j{i}\"}}")?;
        file.push_str(job.as_str())?;
    }
    file.push_str("]}")?;
    told(alloc, file.as_str())
}
