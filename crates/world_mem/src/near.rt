//! The near end of a world in memory.
ghost use Rattle.std.specs.Prelude.{◌≡◌, ◌<◌, ◌≤◌, ◌-◌, ◌↔◌, true, Err, IfOk, None};
ghost use Rattle.world.specs.Counts.{HasCause};
ghost use Rattle.world_mem.specs.Near.{count_call, journal_of, word_unless, words_after};
ghost use Rattle.world_mem.specs.Near.{IsImageAt, IsNew, IsPast};
ghost use Rattle.world_mem.specs.Store.{did_unless, faults_after, is_to_fail};
ghost use Rattle.world.specs.Rises.{one_more};
ghost use Rattle.world_mem.specs.Wire.{is_refusing, room_of, turn_after};

use crate::copies::copy_files;
use crate::count::{rise, rise_by};
use crate::folder::Folder;
use crate::image::image;
use crate::linked_journal::LinkedJournal;
use crate::store::Store;
use crate::{Files, ImageFault, Script, Sizes};
use jtext::NoMemory;
use std::alloc::Global;
use world::Did;

/// What a world in memory keeps besides its kernels and its clock: the journal, the files, those
/// that were there at the start, and what is left of the script.
#[derive(Drop)]
pub(crate) struct Near {
    pub(crate) alloc: Global,
    pub(crate) journal: LinkedJournal,
    pub(crate) store: Store,
    pub(crate) start: Folder,
    pub(crate) pieces: Sizes,
    pub(crate) turn: usize,
    pub(crate) refusals: u32,
    pub(crate) net_faults: u64,
    pub(crate) waits: u64,
    pub(crate) child_faults: u64,
    pub(crate) rand_faults: u64,
    pub(crate) words: u64,
}

impl Near {
    /// The near end with these files and an empty journal, every count at 0.
    pub(crate) fn new(alloc: Global, files: Files, script: Script) -> Result<Near, NoMemory>
        ensures { IfOk result (λ near. IsNew near files script) }
    {
        let start = copy_files(alloc, &files)?;
        let Script {
            start_ms: _,
            pieces,
            fails,
            refusals,
        } = script;
        Ok(Near {
            alloc,
            journal: LinkedJournal::new(alloc),
            store: Store::new(alloc, files, fails),
            start: Folder::of(start),
            pieces,
            turn: 0,
            refusals,
            net_faults: 0,
            waits: 0,
            child_faults: 0,
            rand_faults: 0,
            words: 0,
        })
    }

    /// Counts a call on connections that goes by its number alone, and its fault where it is to
    /// fail.
    pub(crate) fn fails_net(&mut self) -> bool
        ensures is { result ≡ is_to_fail self.old.store }
        ensures cause { HasCause self.old.net_faults self.new.net_faults (result ≡ true) }
        ensures after { self.new ≡ record self.old {
          store = count_call self.old.store;
          net_faults = faults_after (did_unless (is_to_fail self.old.store)) self.old.net_faults;
        } }
    {
        let fails = self.store.fails_now();
        if fails {
            rise(&mut self.net_faults);
        }
        fails
    }

    /// Whether the script refuses this connect, which it counts.
    pub(crate) fn refuses(&mut self) -> bool
        ensures is { result ≡ is_refusing self.old.refusals }
        ensures after { self.new ≡ record self.old { refusals = self.old.refusals - 1 } }
    {
        let refuses = self.refusals != 0;
        self.refusals = self.refusals.saturating_sub(1);
        refuses
    }

    /// The room that this read leaves a kernel in a buffer of some length. The next read has the
    /// next cap.
    pub(crate) fn room(&mut self, room: usize) -> usize
        requires { 0 < room }
        ensures some { 0 < result }
        ensures within { result ≤ room }
        ensures is { result ≡ room_of self.old.pieces self.old.turn room }
        ensures after { self.new ≡ record self.old {
          turn = turn_after self.old.pieces self.old.turn;
        } }
    {
        let count = self.pieces.len();
        let Some(cap) = self.pieces.get(self.turn) else {
            self.turn = 0;
            return room;
        };
        let cap = *cap as usize;
        self.turn = if self.turn + 1 < count {
            self.turn + 1
        } else {
            0
        };
        room.min(cap.max(1))
    }

    /// The next random word, and `None` where the call is to fail: the words are the numbers
    /// from 0.
    pub(crate) fn word(&mut self) -> Option<u64>
        ensures is { result ≡ word_unless (is_to_fail self.old.store) self.old.words }
        ensures cause { HasCause self.old.rand_faults self.new.rand_faults (result ≡ None) }
        ensures after { self.new ≡ record self.old {
          store = count_call self.old.store;
          rand_faults = faults_after (did_unless (is_to_fail self.old.store)) self.old.rand_faults;
          words = words_after (is_to_fail self.old.store) self.old.words;
        } }
    {
        if self.store.fails_now() {
            rise(&mut self.rand_faults);
            return None;
        }
        let word = self.words;
        rise(&mut self.words);
        Some(word)
    }

    /// Counts a wait, and its fault where it failed.
    pub(crate) fn count_wait(&mut self, did: Did)
        ensures later { self.old.waits ≤ self.new.waits }
        ensures cause { HasCause self.old.net_faults self.new.net_faults (did ≡ Did.Failed) }
        ensures after { self.new ≡ record self.old {
          waits = one_more self.old.waits;
          net_faults = faults_after did self.old.net_faults;
        } }
    {
        rise(&mut self.waits);
        rise_by(&mut self.net_faults, did);
    }

    /// The files that a crash after the first `t` entries may leave, picked by `choice`.
    pub(crate) fn image(&self, t: u64, choice: u64) -> Result<Files, ImageFault>
        ensures not_told { result ≡ Err ImageFault.NotTold ↔ journal_of self.now ≡ None }
        ensures past { result ≡ Err ImageFault.Past ↔ IsPast t (journal_of self.now) }
        ensures image { IfOk result (λ files. IsImageAt t choice self.now files) }
    {
        let Some(entries) = self.journal.entries() else {
            return Err(ImageFault::NotTold);
        };
        if t > entries.len() as u64 {
            return Err(ImageFault::Past);
        }
        Ok(image(
            self.alloc,
            &self.start,
            &entries.as_slice()[..t as usize],
            choice,
        )?)
    }
}
