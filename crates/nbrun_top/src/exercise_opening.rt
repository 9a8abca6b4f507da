//! The world of an exercise.
ghost use Rattle.std.specs.Prelude.{◌≡◌, ◌≤◌, ◌∷◌, [], IfOk};
ghost use Rattle.toy_core.specs.Toy as toy;
ghost use Rattle.nbrun_top.specs.Exercise as spec;

use crate::exercise_ask::INPUT;
use jtext::{Bytes, NoMemory, Text};
use kernel_talk::identifier;
use nb_text::{generate, text};
use std::alloc::Global;
use toy_core::Toy;
use world_mem::{Files, Kernels, MemWorld, Script, Sizes};

/// Where the kernel is described.
const SPEC_PATH: &str = "/usr/local/share/jupyter/kernels/toy/kernel.json";

/// How it is described.
const SPEC: &str =
    "{\"argv\":[\"toy_kernel\",\"{connection_file}\"],\"display_name\":\"Toy\",\"interrupt_mode\":\"message\",\"language\":\"toy\"}";

/// A world in memory with a generated notebook of `n` cells as `in.ipynb` and one kernel that runs
/// them. Its clock stands at 0, and no call fails.
pub fn exercise_world(alloc: Global, n: u32) -> Result<MemWorld<Toy>, NoMemory>
    requires few { n ≤ 200 }
    ensures near { IfOk result (λ w. spec.IsOpened n w.near) }
    ensures kernel { IfOk result (λ w. spec.IsFresh w.far.kernels.items) }
    ensures clock { IfOk result (λ w. w.far.clock ≡ 0) }
{
    let files = files(alloc, n)?;
    let kernels = kernels(alloc)?;
    let script = script(alloc);
    MemWorld::new(alloc, files, kernels, script)
}

// The notebook and the kernel's spec.
fn files(alloc: Global, n: u32) -> Result<Files, NoMemory>
    requires few { n ≤ 200 }
    ensures { IfOk result (λ files. files ≡ spec.files n) }
{
    let notebook = generate(alloc, n)?;
    let input = text(alloc, &notebook)?;
    let described = Bytes::of(alloc, SPEC.as_bytes())?;
    let mut files = Files::new(alloc);
    files.push((Text::of(alloc, INPUT)?, input))?;
    files.push((Text::of(alloc, SPEC_PATH)?, described))?;
    Ok(files)
}

// The one kernel. It signs under the key that the first job draws.
fn kernels(alloc: Global) -> Result<Kernels<Toy>, NoMemory>
    ensures fresh { IfOk result spec.IsFresh }
    ensures early { IfOk result spec.IsEarly }
{
    let key = identifier(alloc, 2, 3)?;
    let kernel = Toy::new(alloc, &key)?;
    let mut kernels = Kernels::new(alloc);
    kernels.push(kernel)?;
    Ok(kernels)
}

fn script(alloc: Global) -> Script
    ensures { result ≡ spec.script }
{
    Script {
        start_ms: 0,
        pieces: Sizes::new(alloc),
        fails: Sizes::new(alloc),
        refusals: 0,
    }
}
