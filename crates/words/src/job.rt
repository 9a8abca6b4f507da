//! What is asked of one job of a jobs file.
ghost use Rattle.std.specs.Prelude.{◌≡◌, IfOk};
ghost use Rattle.words.specs.JobsAsked as spec;

use crate::Ask;
use crate::used_path::path_at;
use jtext::{Fields, Json, NoMemory, Text, copy_fields, copy_texts, field, string_at};
use std::alloc::Global;

/// What is asked of the job: what all jobs have in common, but for what this one gives.
pub(crate) fn ask_of_job(alloc: Global, common: &Ask, job: &Json) -> Result<Ask, NoMemory>
    ensures { IfOk result (λ r. r ≡ spec.ask_of_job common.now job.now) }
{
    Ok(Ask {
        input: Text::of(alloc, path_at(job, "input"))?,
        output: Text::of(alloc, path_at(job, "output"))?,
        kernel: kernel(alloc, common, job)?,
        kernel_path: common.kernel_path.copy(alloc)?,
        cwd: cwd(alloc, common, job)?,
        params: params(alloc, common, job)?,
        prepare: common.prepare,
        report: common.report,
        merge: common.merge,
        all_errors: common.all_errors,
        interrupt: common.interrupt,
        heartbeat: common.heartbeat,
        names: copy_texts(alloc, common.names.as_slice())?,
        start_ms: common.start_ms,
        limit_ms: common.limit_ms,
    })
}

fn kernel(alloc: Global, common: &Ask, job: &Json) -> Result<Option<Text>, NoMemory>
    ensures { IfOk result (λ r. r ≡ spec.kernel_of common.now job.now) }
{
    match string_at(job, "kernel") {
        Some(name) => Ok(Some(name.copy(alloc)?)),
        None => match common.kernel.as_ref() {
            Some(name) => Ok(Some(name.copy(alloc)?)),
            None => Ok(None),
        },
    }
}

fn cwd(alloc: Global, common: &Ask, job: &Json) -> Result<Text, NoMemory>
    ensures { IfOk result (λ r. r ≡ spec.cwd_of common.now job.now) }
{
    string_at(job, "cwd").unwrap_or(&common.cwd).copy(alloc)
}

fn params(alloc: Global, common: &Ask, job: &Json) -> Result<Fields, NoMemory>
    ensures { IfOk result (λ r. r ≡ spec.params_of common.now job.now) }
{
    match field(job, "parameters") {
        Some(parameters) => copy_fields(alloc, parameters.pairs()),
        None => copy_fields(alloc, common.params.as_slice()),
    }
}
