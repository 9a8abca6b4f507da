//! `SavePath`, where a save goes.
ghost use Rattle.std.specs.Prelude.{◌≡◌, ◌++◌, IfOk, codes};
ghost use Rattle.world.specs.Disk.{folder_of};
ghost use Rattle.world.specs.Save.{temporary_of};

use jtext::{NoMemory, Text};
use std::alloc::Global;
use std::marker::Model;
use world::folder;

/// Where a save goes: the output, the temporary file beside it, and the folder of both. A contract
/// sees the path of the output.
#[derive(Drop)]
pub struct SavePath {
    pub(crate) output: Text,
    pub(crate) temporary: Text,
    pub(crate) folder: Text,
}

impl Model for SavePath {
    ghost use Rattle.std.specs.Prelude.{◌≡◌, List, ℕ};
    ghost use Rattle.world.specs.Disk.{folder_of};
    ghost use Rattle.world.specs.Save.{temporary_of};

    ghost Value = { List ℕ };

    ghost view = { λ p. p.output };

    ghost invariant = { λ p.
        (p.temporary ≡ temporary_of p.output) × (p.folder ≡ folder_of p.output) };
}

impl SavePath {
    /// The paths of a save of this output. The temporary file has the output's path with
    /// `.nbrun-tmp` behind it.
    pub fn of(alloc: Global, output: &Text) -> Result<SavePath, NoMemory>
        ensures { IfOk result (λ path. path ≡ output.now) }
    {
        Ok(SavePath {
            temporary: temporary_of(alloc, output)?,
            folder: Text::of(alloc, folder(output.as_str()))?,
            output: output.copy(alloc)?,
        })
    }
}

fn temporary_of(alloc: Global, output: &Text) -> Result<Text, NoMemory>
    ensures { IfOk result (λ path. path ≡ temporary_of output.now) }
{
    let output = output.as_str();
    Ok(Text::of_string(format!(in alloc; "{output}.nbrun-tmp")?))
}
