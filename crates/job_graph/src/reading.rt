//! A graph, read from its file.
ghost use Rattle.std.specs.Prelude.{◌≡◌, ◌⊎◌, ◌≤◌, ◌<◌, ◌^◌, ℕ, None, IfSome, IfOk, IfErr, length};
ghost use Rattle.job_graph.specs.Faults as faults;
ghost use Rattle.job_graph.specs.Given.{graph_of};
ghost use Rattle.job_graph.specs.Refused.{HasWaves, IsGraphOf, Refuses};
ghost use Rattle.job_graph.specs.Shape as shape;
ghost use Rattle.job_graph.specs.Waves.{IsFirstInCycle};
ghost use Rattle.job_graph.specs.declared.graph_fault.GraphFault.TheVariants as fault;

use crate::given::{names_of, needs_of_graph, takes_of_graph};
use crate::plain::rest_of;
use crate::shape::fault;
use crate::{Graph, GraphFault, Needs, WaveFault, waves};
use jtext::{Json, NoMemory, Text, read_within};
use std::alloc::Global;

/// The size of the largest file, in bytes.
const LARGEST: usize = 1 << 20;

/// How deep a file may nest.
const DEEP: u32 = 100;

/// Reads a graph (RFC 8259) from the bytes of its file: an object whose `jobs` are one to sixteen
/// objects, each with a `name` of its own. `needs` lists names of others. `take` gives parameters, each
/// with the `job` that is needed and the `scrap` in its output. Other members are a jobs file's.
pub fn graph(alloc: Global, bytes: &[u8]) -> Result<Graph, GraphFault>
    ensures given { IfOk result (IsGraphOf bytes.now) }
    ensures few { IfOk result (λ g. length g.needs ≤ 16) }
    ensures refused { IfErr result (Refuses bytes.now) }
{
    let Some(tree) = read_within(alloc, bytes, LARGEST, DEEP)? else {
        return Err(GraphFault::Bad {
            pointer: Text::new(alloc),
        });
    };
    match fault(&tree) {
        Some(place) => Err(GraphFault::Bad {
            pointer: place.pointer(alloc, &tree)?,
        }),
        None => sound_graph(alloc, tree),
    }
}

// What the tree gives, where each job has a wave.
fn sound_graph(alloc: Global, tree: Json) -> Result<Graph, GraphFault>
    requires { faults.fault tree ≡ None }
    ensures given { IfOk result (λ g. (g ≡ graph_of tree) × HasWaves g.needs) }
    ensures few { IfOk result (λ g. length g.needs ≤ 16) }
    ensures refused { IfErr result (λ f. (f ≡ fault.NoMemory)
        ⊎ ((job : ℕ) × (f ≡ fault.Cycle job) × IsFirstInCycle (graph_of tree).needs job)) }
{
    let graph = graph_of(alloc, tree)?;
    match cycle_in(alloc, &graph.needs) {
        None => Ok(graph),
        Some(refused) => Err(refused),
    }
}

// What the tree gives.
fn graph_of(alloc: Global, tree: Json) -> Result<Graph, NoMemory>
    requires { faults.fault tree ≡ None }
    ensures given { IfOk result (λ g. g ≡ graph_of tree) }
    ensures few { IfOk result (λ g. length g.needs ≤ 16) }
{
    Ok(Graph {
        names: names_of(alloc, &tree)?,
        needs: needs_of_graph(alloc, &tree)?,
        takes: takes_of_graph(alloc, &tree)?,
        rest: rest_of(alloc, tree)?,
    })
}

// Why not each of these jobs has a wave.
fn cycle_in(alloc: Global, needs: &Needs) -> Option<GraphFault>
    requires few { length needs.now < 2 ^ 32 }
    ensures waves { result ≡ None → HasWaves needs.now }
    ensures cycle { IfSome result (λ f. (f ≡ fault.NoMemory)
        ⊎ ((job : ℕ) × (f ≡ fault.Cycle job) × IsFirstInCycle needs.now job)) }
{
    match waves(alloc, needs) {
        Ok(_) => None,
        Err(WaveFault::Cycle { job }) => Some(GraphFault::Cycle { job }),
        Err(WaveFault::NoMemory) => Some(GraphFault::NoMemory),
    }
}
