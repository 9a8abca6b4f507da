//! Runs that may have too few files open.
use crate::kernels::write_kernel;
use crate::programs::{Wanted, leaves};
use std::fs;
use std::process::Abort;
use std::test::Fail;

/// The toy kernel, which may have more files open than nbrun.
const KERNEL: &str = "ulimit -S -n 64; exec $0 sockets::serves_as_a_kernel $1";

// Whether a run that may have so many files open ends with this status and tells of them.
fn is_told(rt: &HostRuntime, count: u32, status: u8) -> Result<bool, Fail> {
    let limit = format!(in rt.alloc(); "ulimit -S -n {count};")?;
    let wanted = Wanted {
        status,
        hint: "nbrun: too few file descriptors (Too many open files (os error 24)); ulimit -n raises",
    };
    let words = "few few-out --kernel-path few-kernels --execution-timeout 1";
    leaves(rt, "few", limit.as_str(), words, &wanted)
}

// Whether a run that may have some few files open ends with this status and tells of them. How many
// are few depends on what was open before.
fn is_told_of_few(rt: &HostRuntime, status: u8) -> Result<bool, Fail> {
    for count in 5..17 {
        if is_told(rt, count, status)? {
            return Ok(true);
        }
    }
    Ok(false)
}

#[test]
fn too_few_descriptors_are_told(rt: HostRuntime) -> Result<(), Fail> {
    write_kernel(&rt, "few", "few-kernels", KERNEL)?;
    // There may be too few to start the kernel, and too few to connect to it.
    for status in [6, 14] {
        assert!(rt; is_told_of_few(&rt, status)?, "{status}");
    }
    fs::remove_dir_all(&rt, "few-kernels")?;
    fs::remove_file(&rt, "few")?;
    fs::remove_file(&rt, "few-out")?;
    Ok(())
}
