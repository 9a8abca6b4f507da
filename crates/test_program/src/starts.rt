//! Runs whose kernel takes up no connection: each call of the start fails in turn, and the waits are spent.
ghost use Rattle.std.specs.Prelude.{◌≤◌, All, IfOk};
ghost use Rattle.world_mem.specs.declared.null_kernel.NullKernel.{NullKernel};

use crate::runs::{Quiet, add, status_and_text};
use jtext::NoMemory;
use samples::notebooks::TWO;
use std::alloc::Global;
use std::test::Fail;
use world_mem::{Files, Kernels, MemWorld, NullKernel, Script, Sizes};

/// Where the description of the kernel `toy` stands.
const SPEC_PATH: &str = "/usr/local/share/jupyter/kernels/toy/kernel.json";

/// One kernel that takes up no connection.
fn silent(alloc: Global) -> Result<Kernels<NullKernel>, NoMemory>
    ensures { IfOk result (All (λ k. NullKernel.latest k ≤ 0)) }
{
    let mut kernels = Kernels::new(alloc);
    kernels.push(NullKernel::new())?;
    Ok(kernels)
}

/// A world with a notebook, its kernel's description and that kernel, in which the call with this number fails.
fn world(rt: &HostRuntime, fail: Option<u64>) -> Result<Quiet, Fail> {
    let alloc = rt.alloc();
    let mut files = Files::new(alloc);
    add(rt, &mut files, "in", TWO.as_bytes())?;
    add(rt, &mut files, SPEC_PATH, br#"{"argv":["k"]}"#)?;
    let mut fails = Sizes::new(alloc);
    if let Some(number) = fail {
        fails.push(number)?;
    }
    let script = Script {
        start_ms: 0,
        pieces: Sizes::new(alloc),
        fails,
        refusals: 0,
    };
    Ok(MemWorld::new(alloc, files, silent(alloc)?, script)?)
}

/// Whether a run with at most that many waits, in which the call with this number fails, ends with this status
/// and this line.
fn ends(
    rt: &HostRuntime,
    turns: u64,
    fail: Option<u64>,
    code: u8,
    line: &str,
) -> Result<bool, Fail> {
    let mut w = world(rt, fail)?;
    let ran = status_and_text(rt, "in out --start-timeout 1", turns, &mut w);
    drop(w);
    let (answered, said) = ran?;
    let last = said.as_str().lines().last().unwrap_or("");
    Ok(answered == code && last == line)
}

/// The number of the call that fails, the status, and the last line. The calls are the reads of the notebook and
/// of the description, four random words, the five of a save, its line, the clock, the ports, the create, the
/// write and the sync of the connection file, the child's start, and the first connect.
const FAILING: &str = "\
0 3 out: cannot read in
1 3 out: cannot read /usr/local/share/jupyter/kernels/toy/kernel.json
2 6 out: cannot start the kernel
5 6 out: cannot start the kernel
6 10 out: cannot save: write
7 10 out: cannot save: write
8 10 out: cannot save: sync
9 10 out: cannot save: rename
10 10 out: cannot save: directory sync
13 14 out: network fault
14 10 out: cannot save: connection file
15 10 out: cannot save: connection file
16 10 out: cannot save: connection file
17 6 out: cannot start the kernel
18 14 out: network fault
9999 7 out: kernel not ready";

#[test]
fn each_failed_call_of_a_start_has_its_status_and_its_line(rt: HostRuntime) -> Result<(), Fail> {
    for row in FAILING.lines() {
        let (number, row) = row.split_once(' ').ok_or("no number")?;
        let (code, line) = row.split_once(' ').ok_or("no status")?;
        let number = number.parse::<u64>().map_err(|_| "no number")?;
        let code = code.parse::<u8>().map_err(|_| "no status")?;
        assert!(rt;
            ends(&rt, 1 << 40, Some(number), code, line)?,
            "call {number}"
        );
    }
    Ok(())
}

#[test]
fn a_run_whose_waits_are_spent_says_so(rt: HostRuntime) -> Result<(), Fail> {
    assert!(rt; ends(&rt, 3, None, 16, "out: turn budget spent")?);
    Ok(())
}
