//! What the one job of an exercise is to do.
ghost use Rattle.std.specs.Prelude.{◌≡◌, IfOk};
ghost use Rattle.words.specs.Runnable.{IsRunnable};
ghost use Rattle.nbrun_top.specs.Exercise.{ask};

use jtext::{Fields, NoMemory, Text, Texts};
use std::alloc::Global;
use words::Ask;

/// The notebook that is read.
pub(crate) const INPUT: &str = "in.ipynb";

/// The notebook that is written.
pub(crate) const OUTPUT: &str = "out.ipynb";

/// The folder of the kernels' specs, where no other is named.
const KERNELS: &str = "/usr/local/share/jupyter/kernels";

/// What is asked by the words `in.ipynb out.ipynb` alone.
pub(crate) fn usual_ask(alloc: Global) -> Result<Ask, NoMemory>
    ensures is { IfOk result (λ a. a ≡ ask) }
    ensures runnable { IfOk result IsRunnable }
{
    Ok(Ask {
        input: Text::of(alloc, INPUT)?,
        output: Text::of(alloc, OUTPUT)?,
        kernel: None,
        kernel_path: Text::of(alloc, KERNELS)?,
        cwd: Text::of(alloc, ".")?,
        params: Fields::new(alloc),
        prepare: false,
        report: false,
        merge: false,
        all_errors: false,
        interrupt: false,
        heartbeat: true,
        names: Texts::new(alloc),
        start_ms: 60_000,
        limit_ms: None,
    })
}
