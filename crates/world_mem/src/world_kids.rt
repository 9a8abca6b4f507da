//! The children of a world in memory, its clock and its random words.
ghost use Rattle.std.specs.Prelude.{◌≡◌, ◌<◌, ◌≤◌, ◌^◌, ◌||◌, not, None, length, is_some};
ghost use Rattle.std.specs.Prelude.{false, slice_get, slice_set};
ghost use Rattle.world.specs.declared.entry.Entry.{Entry};
ghost use Rattle.world.specs.Counts.{CountsBy, ChildCause, RandCause};
ghost use Rattle.jtext.specs.Texts.{AllStrings};
ghost use Rattle.world.specs.Told.{Adds};
ghost use Rattle.world_mem.specs.Far.{at_job, started_by};
ghost use Rattle.world_mem.specs.Near.{journal_of, counts_of, AfterSure, AfterStart, AfterWord};
ghost use Rattle.world_mem.specs.Near.{word_unless};
ghost use Rattle.world_mem.specs.Store.{did_unless, is_to_fail};

use crate::count::rise_by;
use crate::{MemWorld, telling};
use jtext::{Fields, Text, Texts};
use world::{Clock, Did, Entry, KernelSide, Kids, Rand};

// The clauses of the trait, and what this world answers.
impl<K: KernelSide> Kids for MemWorld<K> {
    fn child_faults(&self) -> u64 {
        self.near.child_faults
    }

    fn start(&mut self, job: u8, argv: &Texts, env: &Fields, dir: &Text) -> Did
        requires job { job < 16 }
        requires program { 0 < length argv.now }
        requires strings { AllStrings env.now }
        ensures tells { Adds journal_of self.old.near self.new.near
            (Entry.Started job argv.now env.now dir.now result) }
        ensures cause { CountsBy ChildCause counts_of self.old.near self.new.near
            (result ≡ Did.Failed) }
        ensures is { result ≡ did_unless (is_to_fail self.old.near.store
            || not (is_some (slice_get self.old.far.kernels.items job))) }
        ensures near { AfterStart self.old.near self.new.near result }
        ensures kernels { self.new.far.kernels ≡ self.old.far.kernels }
        ensures clock { self.new.far.clock ≡ self.old.far.clock }
        ensures started { self.new.far.started ≡ started_by result job self.old.far.started }
    {
        let fails = self.near.store.fails_now();
        let did = if !fails && self.far.start(job) {
            Did::Done
        } else {
            Did::Failed
        };
        rise_by(&mut self.near.child_faults, did);
        self.near.journal.tell(telling::started_entry(self.near.alloc, job, argv, env, dir, did));
        did
    }

    fn look(&mut self, job: u8) -> Option<i32>
        requires { job < 16 }
        ensures tells { Adds journal_of self.old.near self.new.near (Entry.Looked job result) }
        ensures same { counts_of self.new.near ≡ counts_of self.old.near }
        ensures is { result ≡ at_job self.old.far.kernels.items job None
            (λ k. K.exits k self.old.far.clock) }
        ensures near { AfterSure self.old.near self.new.near }
        ensures far { self.new.far ≡ self.old.far }
    {
        self.near.store.count_call();
        let status = self.far.exited(job);
        self.near.journal.tell(Ok(Entry::Looked { job, status }));
        status
    }

    fn end(&mut self, job: u8)
        requires { job < 16 }
        ensures tells { Adds journal_of self.old.near self.new.near (Entry.Killed job) }
        ensures same { counts_of self.new.near ≡ counts_of self.old.near }
        ensures near { AfterSure self.old.near self.new.near }
        ensures kernels { self.new.far.kernels ≡ self.old.far.kernels }
        ensures clock { self.new.far.clock ≡ self.old.far.clock }
        ensures started { self.new.far.started ≡ slice_set self.old.far.started job false }
    {
        self.near.store.count_call();
        self.far.end(job);
        self.near.journal.tell(Ok(Entry::Killed { job }));
    }
}

impl<K: KernelSide> Clock for MemWorld<K> {
    fn now(&mut self) -> u64
        ensures bound { result < 2 ^ 47 }
        ensures later { (counts_of self.old.near).last ≤ result }
        ensures tells { Adds journal_of self.old.near self.new.near (Entry.Moment result) }
        ensures counts { counts_of self.new.near
            ≡ record (counts_of self.old.near) { last = result } }
        ensures is { result ≡ self.old.far.clock }
        ensures near { AfterSure self.old.near self.new.near }
        ensures far { self.new.far ≡ self.old.far }
    {
        self.near.store.count_call();
        let ms = self.far.clock();
        self.near.journal.tell_moment(ms);
        ms
    }

    fn last(&self) -> u64 {
        self.near.journal.last()
    }
}

impl<K: KernelSide> Rand for MemWorld<K> {
    fn rand_faults(&self) -> u64 {
        self.near.rand_faults
    }

    fn word(&mut self) -> Option<u64>
        ensures tells { Adds journal_of self.old.near self.new.near (Entry.Word result) }
        ensures cause { CountsBy RandCause counts_of self.old.near self.new.near (result ≡ None) }
        ensures is { result ≡ word_unless (is_to_fail self.old.near.store) self.old.near.words }
        ensures near { AfterWord self.old.near self.new.near }
        ensures far { self.new.far ≡ self.old.far }
    {
        let word = self.near.word();
        self.near.journal.tell(Ok(Entry::Word { word }));
        word
    }
}
