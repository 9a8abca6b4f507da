//! A kernel that answers no ping any more.
use crate::kernels::write_kernel;
use crate::programs::{Wanted, leaves};
use std::fs;
use std::process::Abort;
use std::test::Fail;

/// Stops the toy kernel after some seconds, and kills it once nbrun has ended.
const STOPPED: &str =
    "$0 sockets::serves_as_a_kernel $1 & k=$!; (i=0; while kill -0 $JPY_PARENT_PID && [ $i -lt 50 ]; do sleep 1; i=$((i + 1)); done; kill -KILL $k) & sleep 4; kill -STOP $k; wait $k";

#[test]
fn ten_unanswered_pings_are_told(rt: HostRuntime) -> Result<(), Fail> {
    write_kernel(&rt, "pinged", "pinged-kernels", STOPPED)?;
    let wanted = Wanted {
        status: 8,
        hint: "nbrun: ten pings had no answer; some kernels give none while a cell runs: --no-heartbeat\n",
    };
    let words = "pinged pinged-out --kernel-path pinged-kernels";
    let is_told = leaves(&rt, "pinged", "", words, &wanted)?;
    fs::remove_dir_all(&rt, "pinged-kernels")?;
    fs::remove_file(&rt, "pinged")?;
    fs::remove_file(&rt, "pinged-out")?;
    assert!(rt; is_told);
    Ok(())
}
