//! What is known of a path after some entries.
ghost use Rattle.std.specs.Prelude.{◌≡◌, ◌<◌, ◌∷◌, [], length, IfOk, Some};
ghost use Rattle.world.specs.Disk.{untouched_place, created_place, written_place, synced_place};
ghost use Rattle.world.specs.Disk.{target_place, removed_place, place_in_synced_dir};
ghost use Rattle.world.specs.Disk.{unsynced_place};

use jtext::{Bytes, NoMemory};
use std::alloc::Global;
use std::marker::Model;
use world::{Did, Left};

/// What is known of a path: what a crash may leave, what the path names now, where that is known,
/// and the bytes since a create.
#[derive(Drop)]
pub(crate) struct PathState {
    options: Vec<Left>,
    here: Option<Left>,
    fresh: Option<Bytes>,
}

impl Model for PathState {
    ghost use Rattle.std.specs.Prelude.{◌<◌, length};
    ghost use Rattle.world.specs.Disk.{Place};

    ghost Value = { Place };

    ghost view = { λ s. record { options = s.options.items; here = s.here; fresh = s.fresh } };

    ghost invariant = { λ s. 0 < length s.options.items };
}

impl PathState {
    /// A path before the run.
    pub(crate) fn before_run(alloc: Global) -> Result<PathState, NoMemory>
        ensures { IfOk result (λ s. s ≡ untouched_place) }
    {
        PathState::of(alloc, Left::Old, Left::Old, None)
    }

    /// A path at which a file was created.
    pub(crate) fn of_create(alloc: Global, did: Did) -> Result<PathState, NoMemory>
        ensures { IfOk result (λ s. s ≡ created_place did) }
    {
        let fresh = match did {
            Did::Done => Some(Bytes::new(alloc)),
            Did::Failed => None,
        };
        PathState::of(alloc, Left::Any, Left::Any, fresh)
    }

    /// The options, at least one.
    pub(crate) fn options(&self) -> &[Left]
        ensures is { result.now ≡ self.now.options }
        ensures some { 0 < length result.now }
    {
        &self.options
    }

    /// A state equal to this one.
    pub(crate) fn copy(&self, alloc: Global) -> Result<PathState, NoMemory>
        ensures { IfOk result (λ s. s ≡ self.now) }
    {
        let here = match &self.here {
            Some(here) => Some(copy_left(alloc, here)?),
            None => None,
        };
        let fresh = match &self.fresh {
            Some(bytes) => Some(Bytes::of(alloc, bytes.bytes())?),
            None => None,
        };
        Ok(PathState {
            options: copy_lefts(alloc, &self.options)?,
            here,
            fresh,
        })
    }

    /// It was written to.
    pub(crate) fn write(self, alloc: Global, piece: &Bytes, did: Did) -> Result<PathState, NoMemory>
        ensures { IfOk result (λ s. s ≡ written_place self piece.now did) }
    {
        let fresh = match (self.fresh, did) {
            (Some(mut bytes), Did::Done) => {
                bytes.add(piece.bytes())?;
                Some(bytes)
            }
            _ => None,
        };
        PathState::of(alloc, Left::Any, Left::Any, fresh)
    }

    /// It was synced.
    pub(crate) fn sync(self, alloc: Global, did: Did) -> Result<PathState, NoMemory>
        ensures { IfOk result (λ s. s ≡ synced_place self did) }
    {
        match (&self.fresh, did) {
            (Some(bytes), Did::Done) => PathState::of(
                alloc,
                Left::Whole(Bytes::of(alloc, bytes.bytes())?),
                Left::Whole(Bytes::of(alloc, bytes.bytes())?),
                Some(Bytes::of(alloc, bytes.bytes())?),
            ),
            _ => Ok(self),
        }
    }

    /// It is the new name of a rename of that other path.
    pub(crate) fn target(self, from: PathState, did: Did) -> Result<PathState, NoMemory>
        ensures { IfOk result (λ s. s ≡ target_place from self did) }
    {
        let PathState {
            options: mut more,
            here,
            fresh: _,
        } = from;
        let mut options = self.options;
        if options.append(&mut more).is_err() {
            return Err(NoMemory);
        }
        let here = match did {
            Did::Done => here,
            Did::Failed => None,
        };
        Ok(PathState {
            options,
            here,
            fresh: None,
        })
    }

    /// Its name was taken away, by a rename or a remove.
    pub(crate) fn remove(self, did: Did) -> Result<PathState, NoMemory>
        ensures { IfOk result (λ s. s ≡ removed_place self did) }
    {
        let mut options = self.options;
        if options.push(Left::Absent).is_err() {
            return Err(NoMemory);
        }
        let here = match did {
            Did::Done => Some(Left::Absent),
            Did::Failed => None,
        };
        Ok(PathState {
            options,
            here,
            fresh: None,
        })
    }

    /// Its folder was synced.
    pub(crate) fn settle(self, alloc: Global, did: Did) -> Result<PathState, NoMemory>
        ensures { IfOk result (λ s. s ≡ place_in_synced_dir self did) }
    {
        let option = match (&self.here, did) {
            (Some(Left::Old), Did::Done) => Left::Old,
            (Some(Left::Whole(bytes)), Did::Done) => Left::Whole(Bytes::of(alloc, bytes.bytes())?),
            _ => return Ok(self),
        };
        Ok(PathState {
            options: lone(alloc, option)?,
            here: self.here,
            fresh: self.fresh,
        })
    }

    fn of(
        alloc: Global,
        option: Left,
        here: Left,
        fresh: Option<Bytes>,
    ) -> Result<PathState, NoMemory>
        ensures { IfOk result (λ s. s ≡ record {
          options = option ∷ [];
          here = Some here;
          fresh = fresh;
        }) }
    {
        Ok(PathState {
            options: lone(alloc, option)?,
            here: Some(here),
            fresh,
        })
    }
}

// A list of one option.
fn lone(alloc: Global, option: Left) -> Result<Vec<Left>, NoMemory>
    ensures { IfOk result (λ v. v.items ≡ option ∷ []) }
{
    let mut options = Vec::new(alloc);
    if options.push(option).is_err() {
        return Err(NoMemory);
    }
    Ok(options)
}

fn copy_left(alloc: Global, left: &Left) -> Result<Left, NoMemory>
    ensures { IfOk result (λ l. l ≡ left.now) }
{
    match left {
        Left::Old => Ok(Left::Old),
        Left::Absent => Ok(Left::Absent),
        Left::Whole(bytes) => Ok(Left::Whole(Bytes::of(alloc, bytes.bytes())?)),
        Left::Any => Ok(Left::Any),
    }
}

fn copy_lefts(alloc: Global, lefts: &[Left]) -> Result<Vec<Left>, NoMemory>
    ensures { IfOk result (λ v. v.items ≡ lefts.now) }
{
    let mut copy = Vec::new(alloc);
    for left in lefts {
        if copy.push(copy_left(alloc, left)?).is_err() {
            return Err(NoMemory);
        }
    }
    Ok(copy)
}
