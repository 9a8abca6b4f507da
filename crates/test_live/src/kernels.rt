//! Kernels that a script of the shell starts.
use std::test::Fail;
use std::{env, fs};

/// A notebook whose one cell takes a minute.
const MINUTE: &str =
    r#"{"cells":[{"cell_type":"code","execution_count":null,"id":"a","metadata":{},"outputs":[],"source":["sleep 60000"]}],"metadata":{"kernelspec":{"display_name":"Toy","name":"toy"}},"nbformat":4,"nbformat_minor":5}"#;

/// Writes a notebook of one long cell, and the folder of kernels whose kernel is this script. `$0` is
/// this program there and `$1` the connection file.
pub(crate) fn write_kernel(
    rt: &HostRuntime,
    notebook: &str,
    folder: &str,
    script: &str,
) -> Result<(), Fail> {
    let program = env::args(rt)?.next().ok_or("no name")?;
    let program = program.as_str();
    let kernel = format!(in rt.alloc(); "{folder}/toy")?;
    let path = format!(in rt.alloc(); "{folder}/toy/kernel.json")?;
    let spec = format!(in rt.alloc();
        "{{\"argv\":[\"/bin/sh\",\"-c\",\"{script}\",\"{program}\",\"{{connection_file}}\"],\"display_name\":\"Toy\",\"interrupt_mode\":\"message\",\"language\":\"toy\"}}"
    )?;
    fs::create_dir_all(rt, kernel.as_str())?;
    fs::write(rt, path.as_str(), spec.as_bytes())?;
    fs::write(rt, notebook, MINUTE)?;
    Ok(())
}
