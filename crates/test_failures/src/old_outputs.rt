//! A run over an output that stands there before: a crash leaves it until the first save stands.
use jtext::NoMemory;
use sample_runs::{Reference, Row, each_image_is_safe, status, world};
use std::alloc::Global;
use std::test::Fail;
use toy_core::Toy;
use world_mem::MemWorld;

// Whether the run there is done, and each image of each moment has the output as it was or a save that
// may stand there.
fn is_safe(alloc: Global, w: &mut MemWorld<Toy>, reference: &Reference) -> Result<bool, Fail> {
    let Some(texts) = reference.texts.first() else {
        return Ok(false);
    };
    let code = status(alloc, Row::Over, w)?;
    Ok(code == 0 && texts.len() == 3 && each_image_is_safe(w, Row::Over, "out.ipynb", texts)?)
}

fn run_is_safe(alloc: Global, reference: &Reference) -> Result<bool, Fail> {
    let mut w = world(alloc, Row::Over, None)?;
    let is_so = is_safe(alloc, &mut w, reference);
    drop(w);
    is_so
}

fn reference(alloc: Global) -> Result<Reference, NoMemory> {
    Reference::of(alloc, Row::Over)
}

#[test]
fn an_old_output_stands_until_the_first_save(rt: HostRuntime) -> Result<(), Fail> {
    let alloc = rt.alloc();
    let reference = reference(alloc)?;
    let is_so = run_is_safe(alloc, &reference);
    drop(reference);
    assert!(rt; is_so?);
    Ok(())
}
