//! The toy kernel as a program: `toy_kernel FILE` serves it on the ports of a connection file until it
//! is shut down, and `toy_kernel --about` prints `toy`.
#![tactic(auto)]

mod program;
mod status;

use program::run;
use std::process::ExitCode;

fn main(rt: HostRuntime) -> ExitCode {
    ExitCode::from(run(&rt))
}
