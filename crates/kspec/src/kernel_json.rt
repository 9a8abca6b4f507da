//! Kernel specs: the file `kernel.json`.
ghost use Rattle.std.specs.Prelude.{◌≡◌, ◌⊎◌, IfOk, IfErr};
ghost use Rattle.std.specs.List.{list_all};
ghost use Rattle.jtext.specs.Find as find;
ghost use Rattle.jtext.specs.Look.{is_string, items_of};
ghost use Rattle.kspec.specs.KernelJson as kernel_json;
ghost use Rattle.kspec.specs.declared.spec_fault.SpecFault.TheVariants as fault;

use crate::{Spec, SpecFault};
use jtext::{Json, NoMemory, Text, copy_fields, field, read_within, string_at, texts_of};
use std::alloc::Global;

/// The size of the largest kernel spec, in bytes.
const LARGEST: usize = 1 << 20;

/// How deep a kernel spec may nest.
const DEEP: u32 = 100;

/// Reads a `kernel.json` (jupyter_client, "Kernel specs") from its bytes. `interrupt` says whether
/// the kernel will have to be interrupted by a message. Keys that nbrun doesn't use are free.
#[tactic(auto, using(crate::proofs::Faultless::can_start))]
pub fn spec(alloc: Global, bytes: &[u8], interrupt: bool) -> Result<Spec, SpecFault>
    ensures says { IfOk result (λ s. kernel_json.Says interrupt bytes.now s) }
    ensures starts { IfOk result kernel_json.CanStart }
    ensures refused { IfErr result (λ f.
        (f ≡ fault.NoMemory) ⊎ kernel_json.Refuses interrupt bytes.now f) }
{
    let Some(tree) = read_within(alloc, bytes, LARGEST, DEEP)? else {
        return Err(SpecFault::NotJson);
    };
    match fault_of(&tree, interrupt) {
        Some(fault) => Err(fault),
        None => Ok(spec_of(alloc, &tree)?),
    }
}

/// The first fault of the tree.
fn fault_of(t: &Json, interrupt: bool) -> Option<SpecFault>
    ensures { result ≡ kernel_json.fault_of interrupt t.now }
{
    if !t.is_object() {
        Some(SpecFault::NotJson)
    } else if !field(t, "argv").is_some_and(|v| is_argv(v)) {
        Some(SpecFault::NoArgv)
    } else if field(t, "env").is_some_and(|v| !is_env(v)) {
        Some(SpecFault::BadEnv)
    } else if interrupt && !is_by_message(t) {
        Some(SpecFault::SignalMode)
    } else {
        None
    }
}

fn is_argv(v: &Json) -> bool
    ensures { result ≡ kernel_json.is_argv v.now }
{
    v.is_strings() && 1 <= v.items().len()
}

fn is_env(v: &Json) -> bool
    ensures { result ≡ kernel_json.is_env v.now }
{
    v.is_object() && all_strings(v.pairs())
}

fn all_strings(pairs: &[(Text, Json)]) -> bool
    ensures { result ≡ list_all (λ p. is_string p.1) pairs.now }
{
    pairs.iter().all(|pair| pair.1.is_string())
}

fn is_by_message(t: &Json) -> bool
    ensures { result ≡ kernel_json.is_by_message t.now }
{
    string_at(t, "interrupt_mode").is_some_and(|mode| is_message(mode))
}

fn is_message(mode: &Text) -> bool
    ensures { result ≡ kernel_json.is_message mode.now }
{
    mode.as_str() == "message"
}

/// What the tree says.
fn spec_of(alloc: Global, t: &Json) -> Result<Spec, NoMemory>
    ensures { IfOk result (λ s. s ≡ kernel_json.spec_of t.now) }
{
    Ok(Spec {
        argv: texts_of(alloc, items_at(t, "argv"))?,
        env: copy_fields(alloc, pairs_at(t, "env"))?,
        by_message: is_by_message(t),
    })
}

fn items_at<'a>(t: &'a Json, key: &str) -> &'a [Json]
    ensures { result.now ≡ items_of (find.field t.now key.now) }
{
    match field(t, key) {
        Some(v) => v.items(),
        None => &[],
    }
}

fn pairs_at<'a>(t: &'a Json, key: &str) -> &'a [(Text, Json)]
    ensures { result.now ≡ kernel_json.pairs_of (find.field t.now key.now) }
{
    match field(t, key) {
        Some(v) => v.pairs(),
        None => &[],
    }
}
