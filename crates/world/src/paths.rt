//! The folder that a path lies in.
ghost use Rattle.std.specs.Prelude.{◌≡◌};
ghost use Rattle.world.specs.Disk.{folder_of};

/// The folder of a path: what stands before its last slash, `/` where that is nothing, and `.`
/// without a slash.
pub fn folder(path: &str) -> &str
    ensures { result.now ≡ folder_of path.now }
{
    match path.rfind('/') {
        None => ".",
        Some(0) => "/",
        Some(at) => &path[..at],
    }
}
