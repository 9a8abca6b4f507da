//! One list after another.
ghost use Rattle.std.specs.Prelude.{◌≡◌, ◌++◌, OnOk};

use jtext::{List, NoMemory};

/// Moves the items of a list to the end of another.
pub(crate) fn append<T: Drop>(list: &mut List<T>, more: List<T>) -> Result<(), NoMemory>
    ensures { OnOk result (list.new ≡ list.old ++ more) }
{
    for item in more.into_vec() {
        list.push(item)?;
    }
    Ok(())
}
