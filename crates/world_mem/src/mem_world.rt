//! A world in memory.
ghost use Rattle.std.specs.Prelude.{◌≡◌, ◌<◌, ◌≤◌, ◌^◌, ◌↔◌, All, Err, IfOk, None};
ghost use Rattle.std.specs.Prelude.{Some, false, option_map, replicate};
ghost use Rattle.world_mem.specs.Folder.{file_at};
ghost use Rattle.world_mem.specs.Journals.{AreCounted};
ghost use Rattle.world_mem.specs.Near.{journal_of, counts_of, IsImageAt, IsNew, IsPast};
ghost use Rattle.world_mem.specs.Near.{MayBeLeft};
ghost use Rattle.world_mem.specs.Store.{files_of};

use crate::far::Far;
use crate::near::Near;
use crate::{Files, ImageFault, Kernels, Script};
use jtext::{Bytes, NoMemory, Text};
use std::alloc::Global;
use world::{Entries, Journal, KernelSide};

/// A world in memory, with a kernel for each job. It tells its journal until memory for an entry
/// is refused. A call fails, and its count rises, exactly where its number is among those that are
/// to fail, it is one of the disk and the fuse is spent, the file that it reads, writes, syncs,
/// renames or removes is absent, the job that it starts has no kernel, or `starved` rises in it.
#[derive(Drop)]
pub struct MemWorld<K: KernelSide> {
    pub(crate) near: Near,
    pub(crate) far: Far<K>,
    ghost timely: { near.journal.timed.last ≤ far.clock },
    ghost counted: { AreCounted (journal_of near) (counts_of near) },
}

impl<K: KernelSide> MemWorld<K> {
    /// A world with these files, these kernels, the first for the first job, and this script. The
    /// files are durable, the journal is empty and every count is 0.
    pub fn new(
        alloc: Global,
        files: Files,
        kernels: Kernels<K>,
        script: Script,
    ) -> Result<MemWorld<K>, NoMemory>
        requires below { script.start_ms < 2 ^ 47 }
        requires behind { All (λ k. K.latest k ≤ script.start_ms) kernels }
        ensures near { IfOk result (λ w. IsNew w.near files script) }
        ensures kernels { IfOk result (λ w. w.far.kernels.items ≡ kernels) }
        ensures started { IfOk result (λ w. w.far.started ≡ replicate 16 false) }
        ensures clock { IfOk result (λ w. w.far.clock ≡ script.start_ms) }
    {
        let far = Far::new(kernels, script.start_ms);
        let near = Near::new(alloc, files, script)?;
        Ok(MemWorld { near, far })
    }

    /// The entries so far, the oldest first, and `None` where they are no longer told.
    pub fn journal(&self) -> Option<&Entries>
        ensures { option_map (λ entries. entries.now) result
            ≡ self.now.near.journal.timed.entries }
    {
        self.near.journal.entries()
    }

    /// The bytes of the file at a path, and `None` where there is none.
    pub fn file(&self, path: &Text) -> Option<&Bytes>
        ensures { option_map (λ bytes. bytes.now) result
            ≡ file_at path.now (files_of self.now.near.store) }
    {
        self.near.store.file(path)
    }

    /// All that was said.
    pub fn said(&self) -> &Bytes
        ensures { result.now ≡ self.now.near.store.said }
    {
        self.near.store.said()
    }

    /// How many calls failed because memory was refused for a file, for a kernel or for what was
    /// said, up to the last value of a `u64`.
    pub fn starved(&self) -> u64
        ensures { result ≡ self.now.near.store.starved }
    {
        self.near.store.starved()
    }

    /// The files that a crash after the first `t` entries may leave, picked by `choice`. The paths
    /// are taken in the order of their bytes; a path with m options takes the option `choice % m`,
    /// and `choice / m` goes to the next. What may be anything counts as three options: absent, no
    /// byte, and the one byte `X`.
    pub fn image(&self, t: u64, choice: u64) -> Result<Files, ImageFault>
        ensures not_told { result ≡ Err ImageFault.NotTold ↔ journal_of self.now.near ≡ None }
        ensures past { result ≡ Err ImageFault.Past ↔ IsPast t (journal_of self.now.near) }
        ensures image { IfOk result (λ files. IsImageAt t choice self.now.near files) }
        // Each path has what one of the options that a crash may leave allows.
        ensures leaves { IfOk result (λ files. MayBeLeft t self.now.near files) }
    {
        self.near.image(t, choice)
    }

    /// Lets `n` further calls of the disk through: every one after them fails.
    pub fn fuse(&mut self, n: u64)
        ensures near { self.new.near ≡ record self.old.near {
          store = record self.old.near.store { fuse = Some n };
        } }
        ensures far { self.new.far ≡ self.old.far }
    {
        self.near.store.set_fuse(n);
    }
}

impl<K: KernelSide> Journal for MemWorld<K> {
    ghost journal = { λ w. journal_of w.near };

    ghost counts = { λ w. counts_of w.near };
}
