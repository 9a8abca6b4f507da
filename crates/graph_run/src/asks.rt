//! What is asked of a job that runs: what the file asks, with the parameters that it took.
ghost use Rattle.std.specs.Prelude.{◌≡◌, IfOk};
ghost use Rattle.graph_run.specs.Tests as spec;

use jtext::{Fields, NoMemory, Text, copy_texts};
use std::alloc::Global;
use words::Ask;

/// What is asked of a job, with these parameters.
pub(crate) fn with_params(alloc: Global, ask: &Ask, params: Fields) -> Result<Ask, NoMemory>
    ensures { IfOk result (λ r. r ≡ spec.with_params ask.now params) }
{
    Ok(Ask {
        input: ask.input.copy(alloc)?,
        output: ask.output.copy(alloc)?,
        kernel: kernel(alloc, ask)?,
        kernel_path: ask.kernel_path.copy(alloc)?,
        cwd: ask.cwd.copy(alloc)?,
        params,
        prepare: ask.prepare,
        report: ask.report,
        merge: ask.merge,
        all_errors: ask.all_errors,
        interrupt: ask.interrupt,
        heartbeat: ask.heartbeat,
        names: copy_texts(alloc, ask.names.as_slice())?,
        start_ms: ask.start_ms,
        limit_ms: ask.limit_ms,
    })
}

fn kernel(alloc: Global, ask: &Ask) -> Result<Option<Text>, NoMemory>
    ensures { IfOk result (λ r. r ≡ ask.now.kernel) }
{
    match ask.kernel.as_ref() {
        Some(name) => Ok(Some(name.copy(alloc)?)),
        None => Ok(None),
    }
}
