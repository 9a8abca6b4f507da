//! The path of a connection file, as a kernel's program is given it.
ghost use Rattle.std.specs.Prelude.{◌≡◌, IfOk};
ghost use Rattle.kernel_start.specs.Launch.{is_absolute, from_root};

use jtext::{NoMemory, Text};
use std::alloc::Global;

/// The path from the root, where `here` is the working folder.
pub(crate) fn path_from_root(alloc: Global, here: &Text, path: &Text) -> Result<Text, NoMemory>
    ensures { IfOk result (λ full. full ≡ from_root here.now path.now) }
{
    if is_absolute(path.bytes()) {
        return path.copy(alloc);
    }
    let (here, path) = (here.as_str(), path.as_str());
    Ok(Text::of_string(format!(in alloc; "{here}/{path}")?))
}

fn is_absolute(path: &[u8]) -> bool
    ensures { result ≡ is_absolute path.now }
{
    path.first() == Some(&b'/')
}
