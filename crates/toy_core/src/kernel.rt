//! `Kernel`, all that the toy kernel keeps beside its connections.
ghost use Rattle.std.specs.Prelude.{◌≡◌, ◌<◌, ◌^◌, [], ◌∷◌, OnOk, IfOk};
ghost use Rattle.toy_core.specs.Notes as notes;
ghost use Rattle.toy_core.specs.Standing as spec;

use crate::act::{Act, Acts};
use crate::agenda::Agenda;
use crate::course::{cell, info};
use crate::note::Notes;
use crate::scribe::write;
use jtext::{Json, NoMemory, Text, copy};
use std::alloc::Global;
use toy_lang::{State, run};

/// All that the kernel keeps beside its connections.
#[derive(Debug, Drop)]
pub(crate) struct Kernel {
    /// The number of the next message, from 1.
    pub(crate) number: u64,
    pub(crate) variables: State,
    /// The count of the next cell, from 1.
    pub(crate) count: u64,
    pub(crate) agenda: Agenda,
}

impl Kernel {
    /// A kernel that has run nothing.
    pub(crate) fn new(alloc: Global) -> Kernel
        ensures { result ≡ spec.new_kernel }
    {
        Kernel {
            number: 1,
            variables: State::new(alloc),
            count: 1,
            agenda: Agenda::new(alloc),
        }
    }

    /// What is done for notes, whose messages get their numbers here.
    pub(crate) fn acts(
        &mut self,
        alloc: Global,
        key: &Text,
        parent: &Json,
        notes: Notes,
    ) -> Result<Acts, NoMemory>
        ensures acts { IfOk result (λ acts.
            acts ≡ spec.acts_for key.now parent.now notes self.old) }
        ensures numbered { OnOk result (self.new ≡ spec.number_notes notes self.old) }
    {
        let mut acts = Acts::new(alloc);
        write(alloc, key, parent, notes, &mut self.number, &mut acts)?;
        Ok(acts)
    }

    /// A cell is to be run: its text is run here, and what it brings about is queued.
    pub(crate) fn queue_cell(
        &mut self,
        alloc: Global,
        now: u64,
        key: &Text,
        parent: &Json,
        code: &Text,
    ) -> Result<(), NoMemory>
        ensures { OnOk result (self.new ≡ spec.with_cell now key.now parent.now code.now self.old) }
    {
        let count = self.count;
        let effects = run(&mut self.variables, code)?;
        let notes = cell(alloc, code, count, effects)?;
        self.count = count.saturating_add(1);
        let mut acts = self.acts(alloc, key, parent, notes)?;
        let parent = copy(alloc, parent)?;
        acts.push(Act::Close { parent, count })?;
        self.agenda.queue(now, acts)
    }

    /// A request for information on the kernel is to be answered.
    pub(crate) fn queue_info(
        &mut self,
        alloc: Global,
        now: u64,
        key: &Text,
        parent: &Json,
    ) -> Result<(), NoMemory>
        ensures { OnOk result (self.new ≡ spec.with_info now key.now parent.now self.old) }
    {
        let notes = info(alloc)?;
        let acts = self.acts(alloc, key, parent, notes)?;
        self.agenda.queue(now, acts)
    }

    /// Whether the kernel has ended.
    pub(crate) fn has_ended(&self) -> bool
        ensures { result ≡ spec.has_ended self.now }
    {
        self.agenda.end.is_some()
    }
}
