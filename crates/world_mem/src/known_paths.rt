//! What is known of each path after some entries.
ghost use Rattle.std.specs.Prelude.{◌≡◌, ◌≤◌, [], length, map, reverse, IfOk, if◌then◌else◌};
ghost use Rattle.std.specs.List.{insert};
ghost use Rattle.world.specs.declared.entry.Entry.{Entry};
ghost use Rattle.std.specs.Cmp.Lexicographic.{slice_cmp};
ghost use Rattle.std.specs.Ordering.{nat_cmp};
ghost use Rattle.std.specs.Str.{bytes_eq};
ghost use Rattle.world.specs.Disk.{folder_of, place_in_synced_dir};
ghost use Rattle.world_mem.specs.Known.{place_in, put_in, settled_in, Learns, StandsFor};

use crate::folder::Folder;
use crate::path_state::PathState;
use jtext::{NoMemory, Text};
use std::alloc::Global;
use std::cmp::Ordering;
use world::{Did, Entry, folder};

/// Paths with what is known of each, in the order of their bytes. A path that isn't there is as
/// before the run.
#[derive(Drop)]
pub(crate) struct KnownPaths {
    items: Vec<(Text, PathState)>,
}

impl KnownPaths {
    /// The paths of these files, and those that the entries name, the oldest entry first, with what
    /// is known of each after them.
    pub(crate) fn after(
        alloc: Global,
        start: &Folder,
        entries: &[Entry],
    ) -> Result<KnownPaths, NoMemory>
        ensures { IfOk result (λ known.
            StandsFor start.now.files.items (reverse entries.now) known.items.items) }
    {
        let mut known = KnownPaths::of(alloc, start)?;
        for entry in entries {
            known = known.learn(alloc, entry)?;
        }
        Ok(known)
    }

    /// The paths and what is known of each, in their order.
    pub(crate) fn items(&self) -> &[(Text, PathState)]
        ensures { result.now ≡ self.now.items.items }
    {
        &self.items
    }

    // The paths of these files, before the run.
    fn of(alloc: Global, start: &Folder) -> Result<KnownPaths, NoMemory>
        ensures { IfOk result (λ known. StandsFor start.now.files.items [] known.items.items) }
    {
        let mut known = KnownPaths {
            items: Vec::new(alloc),
        };
        for (path, _) in start.files() {
            let state = PathState::before_run(alloc)?;
            known = known.put(alloc, path, state)?;
        }
        Ok(known)
    }

    // What is known after one more entry.
    fn learn(self, alloc: Global, entry: &Entry) -> Result<KnownPaths, NoMemory>
        ensures { IfOk result (λ known. Learns entry.now self.items.items known.items.items) }
    {
        match entry {
            Entry::Created { path, did } => {
                let state = PathState::of_create(alloc, *did)?;
                self.put(alloc, path, state)
            }
            Entry::Wrote { path, bytes, did } => {
                let state = self.state(alloc, path)?.write(alloc, bytes, *did)?;
                self.put(alloc, path, state)
            }
            Entry::Synced { path, did } => {
                let state = self.state(alloc, path)?.sync(alloc, *did)?;
                self.put(alloc, path, state)
            }
            Entry::Renamed { from, to, did } => self.rename(alloc, from, to, *did),
            Entry::DirSynced { dir, did } => self.settle(alloc, dir, *did),
            Entry::Removed { path, did } => {
                let state = self.state(alloc, path)?.remove(*did)?;
                self.put(alloc, path, state)
            }
            _ => Ok(self),
        }
    }

    // What is known after a rename.
    fn rename(self, alloc: Global, from: &Text, to: &Text, did: Did) -> Result<KnownPaths, NoMemory>
        ensures { IfOk result (λ known.
            Learns (Entry.Renamed from.now to.now did) self.items.items known.items.items) }
    {
        let target = self
            .state(alloc, to)?
            .target(self.state(alloc, from)?, did)?;
        let removed = self.state(alloc, from)?.remove(did)?;
        self.put(alloc, from, removed)?.put(alloc, to, target)
    }

    // What is known after a sync of a folder.
    fn settle(self, alloc: Global, dir: &Text, did: Did) -> Result<KnownPaths, NoMemory>
        ensures { IfOk result (λ known.
            known.items.items ≡ map (settled_in dir.now did) self.items.items) }
    {
        let mut items = Vec::new(alloc);
        for (path, state) in self.items {
            let state = settle(alloc, dir, did, &path, state)?;
            if items.push((path, state)).is_err() {
                return Err(NoMemory);
            }
        }
        Ok(KnownPaths { items })
    }

    // What is known of a path.
    fn state(&self, alloc: Global, path: &Text) -> Result<PathState, NoMemory>
        ensures { IfOk result (λ s. s ≡ place_in self.now.items.items path.now) }
    {
        for (name, state) in &self.items {
            if name.as_str() == path.as_str() {
                return state.copy(alloc);
            }
        }
        PathState::before_run(alloc)
    }

    // The same with another state of a path.
    fn put(mut self, alloc: Global, path: &Text, state: PathState) -> Result<KnownPaths, NoMemory>
        ensures { IfOk result (λ known.
            known.items.items ≡ put_in path.now state self.items.items) }
    {
        for i in 0..self.items.len() {
            match compare(path, &self.items[i].0) {
                Ordering::Less => return self.insert(alloc, i, path, state),
                Ordering::Equal => {
                    self.items[i].1 = state;
                    return Ok(self);
                }
                Ordering::Greater => {}
            }
        }
        let end = self.items.len();
        self.insert(alloc, end, path, state)
    }

    // The same with one path more before the item at `i`.
    fn insert(
        mut self,
        alloc: Global,
        i: usize,
        path: &Text,
        state: PathState,
    ) -> Result<KnownPaths, NoMemory>
        requires { i ≤ length self.items.items }
        ensures { IfOk result (λ known.
            known.items.items ≡ insert self.items.items i (path.now, state)) }
    {
        let path = path.copy(alloc)?;
        if self.items.insert(i, (path, state)).is_err() {
            return Err(NoMemory);
        }
        Ok(self)
    }
}

// How two paths compare, by their bytes.
fn compare(a: &Text, b: &Text) -> Ordering
    ensures { result ≡ slice_cmp nat_cmp a.now b.now }
{
    a.as_str().cmp(&b.as_str())
}

// What is known of a path after a sync of a folder.
fn settle(
    alloc: Global,
    dir: &Text,
    did: Did,
    path: &Text,
    state: PathState,
) -> Result<PathState, NoMemory>
    ensures { IfOk result (λ s. s ≡ (if bytes_eq dir.now (folder_of path.now)
        then place_in_synced_dir state did else state)) }
{
    if dir.as_str() == folder(path.as_str()) {
        state.settle(alloc, did)
    } else {
        Ok(state)
    }
}
