//! Which status a failed call makes.
use world::Entry;

/// The status of a run in which this call fails, before the last save is acknowledged.
pub(crate) fn kind_of_call(entry: &Entry) -> u8 {
    match entry {
        Entry::Read { .. } => 3,
        Entry::Word { .. } => 6,
        Entry::Started { .. } => 6,
        Entry::Created { .. } => 10,
        Entry::Wrote { .. } => 10,
        Entry::Synced { .. } => 10,
        Entry::Renamed { .. } => 10,
        Entry::DirSynced { .. } => 10,
        Entry::Said { .. } => 11,
        Entry::Ports { .. } => 14,
        Entry::Connected { .. } => 14,
        Entry::Got { .. } => 14,
        Entry::Dry { .. } => 14,
        Entry::Put { .. } => 14,
        Entry::Waited { .. } => 14,
        _ => 0,
    }
}

/// The status of a run in which this call fails once all saves are acknowledged: only a line that
/// isn't said counts.
pub(crate) fn kind_of_last_call(entry: &Entry) -> u8 {
    match entry {
        Entry::Said { .. } => 11,
        _ => 0,
    }
}

/// Whether the call is one of the disk.
pub fn is_of_disk(entry: &Entry) -> bool {
    match entry {
        Entry::Read { .. } => true,
        Entry::Created { .. } => true,
        Entry::Wrote { .. } => true,
        Entry::Synced { .. } => true,
        Entry::Renamed { .. } => true,
        Entry::DirSynced { .. } => true,
        Entry::Removed { .. } => true,
        _ => false,
    }
}
