//! `Agenda`, what is still to happen, and when.
ghost use Rattle.std.specs.Prelude.{◌≡◌, ◌<◌, ◌≤◌, ◌^◌, ◌++◌, [], ℕ, length, take, drop, OnOk, option_map};
ghost use Rattle.toy_core.specs.Acts.{acts_by, first_close, after_close};
ghost use Rattle.toy_core.specs.Standing as spec;

use crate::act::{Act, Acts};
use crate::appending::append;
use crate::reach::{Reach, reach_of};
use jtext::{Json, NoMemory};
use std::alloc::Global;
use std::mem;

/// What is still to happen, in order. Each pause puts off what follows it.
#[derive(Debug, Drop)]
pub(crate) struct Agenda {
    pub(crate) acts: Acts,
    /// The moment at which the first of them begins.
    pub(crate) since: u64,
    /// The status with which the kernel has ended.
    pub(crate) end: Option<i32>,
}

impl Agenda {
    /// Nothing is to happen.
    pub(crate) fn new(alloc: Global) -> Agenda
        ensures { result ≡ spec.no_agenda }
    {
        Agenda {
            acts: Acts::new(alloc),
            since: 0,
            end: None,
        }
    }

    /// How far it has come by a moment.
    pub(crate) fn reach(&self, now: u64) -> Reach
        requires { now < 2 ^ 47 }
        ensures { spec.IsReach now self.now result }
    {
        reach_of(self.acts.as_slice(), self.since, now)
    }

    /// The acts that have happened by a moment.
    pub(crate) fn acts_by(&self, now: u64) -> &[Act]
        requires { now < 2 ^ 47 }
        ensures { result.now ≡ acts_by now self.now.since self.now.acts }
    {
        let reach = self.reach(now);
        &self.acts.as_slice()[..reach.len]
    }

    /// The status with which the kernel has ended by a moment.
    pub(crate) fn end_by(&self, now: u64) -> Option<i32>
        requires { now < 2 ^ 47 }
        ensures { result ≡ spec.end_by now self.now }
    {
        match self.end {
            Some(status) => Some(status),
            None => self.reach(now).end,
        }
    }

    /// All that is due by a moment has happened.
    pub(crate) fn settle(&mut self, alloc: Global, now: u64)
        requires { now < 2 ^ 47 }
        ensures { self.new ≡ spec.settled_agenda now self.old }
    {
        let reach = self.reach(now);
        let end = self.end_by(now);
        let acts = mem::replace(&mut self.acts, Acts::new(alloc));
        if end.is_none() {
            self.acts = without_front(acts, reach.len);
        }
        self.since = reach.moment;
        self.end = end;
    }

    /// Only the first acts have happened; the others are still to happen.
    pub(crate) fn pass(&mut self, alloc: Global, now: u64, done: usize)
        requires { now < 2 ^ 47 }
        // Nothing is put off: by each later moment just the same has happened.
        ensures rest { done < length (acts_by now self.old.since self.old.acts) → (t : ℕ) →
            now ≤ t → acts_by t self.old.since self.old.acts
            ≡ take done self.old.acts ++ acts_by t self.new.since self.new.acts }
        ensures end { self.new.end ≡ self.old.end }
    {
        let done = done.min(self.acts.len());
        let reach = reach_of(&self.acts.as_slice()[..done], self.since, now);
        let acts = mem::replace(&mut self.acts, Acts::new(alloc));
        self.acts = without_front(acts, done);
        self.since = reach.moment;
    }

    /// Acts are to happen after all others, and not before now.
    pub(crate) fn queue(&mut self, now: u64, acts: Acts) -> Result<(), NoMemory>
        ensures { OnOk result (self.new ≡ spec.queue_acts now acts self.old) }
    {
        if self.acts.is_empty() {
            self.since = now;
        }
        append(&mut self.acts, acts)
    }

    /// The request header and the count of the cell that is running.
    pub(crate) fn running(&self) -> Option<(&Json, u64)>
        ensures { option_map (λ r. (r.0.now, r.1)) result ≡ first_close self.now.acts }
    {
        for act in self.acts.as_slice() {
            if let Act::Close { parent, count } = act {
                return Some((parent, *count));
            }
        }
        None
    }

    /// The cell that is running is over now.
    pub(crate) fn cut(&mut self, alloc: Global, now: u64)
        ensures { self.new ≡ spec.cut now self.old }
    {
        let acts = mem::replace(&mut self.acts, Acts::new(alloc));
        let len = len_through_close(acts.as_slice());
        self.acts = without_front(acts, len);
        self.since = now;
    }

    /// The kernel ends now.
    pub(crate) fn stop(&mut self, alloc: Global, status: i32)
        ensures { self.new ≡ spec.stop_agenda status self.old }
    {
        self.acts = Acts::new(alloc);
        self.end = Some(status);
    }
}

/// How many acts the first cell has, all where no cell is over among them.
fn len_through_close(acts: &[Act]) -> usize
    ensures within { result ≤ length acts.now }
    ensures after { drop result acts.now ≡ after_close acts.now }
{
    for (i, act) in acts.iter().enumerate() {
        if let Act::Close { .. } = act {
            return i + 1;
        }
    }
    acts.len()
}

/// The acts without the first ones. It takes no memory.
fn without_front(acts: Acts, len: usize) -> Acts
    requires { len ≤ length acts }
    ensures { result ≡ drop len acts }
{
    let mut acts = acts.into_vec();
    acts.drain(..len);
    Acts::of_vec(acts)
}
