//! Counts that never fall.
ghost use Rattle.std.specs.Prelude.{◌≡◌, ◌≤◌};
ghost use Rattle.world.specs.Counts.{HasCause};
ghost use Rattle.world_mem.specs.Store.{faults_after};
ghost use Rattle.world.specs.Rises.{one_more};

use world::Did;

/// One more, up to the last value.
pub(crate) fn rise(count: &mut u64)
    ensures is { count.new ≡ one_more count.old }
    ensures later { count.old ≤ count.new }
{
    *count = count.saturating_add(1);
}

/// One more where the call failed, up to the last value.
pub(crate) fn rise_by(count: &mut u64, did: Did)
    ensures is { count.new ≡ faults_after did count.old }
    ensures cause { HasCause count.old count.new (did ≡ Did.Failed) }
{
    if did == Did::Failed {
        rise(count);
    }
}
