//! What is heard of the kernel.

use crate::execution::Execution;
use crate::fresh::fresh_messages;
use cell_core::Event;
use jcontent::{Content, read};
use jmsg::Message;
use job_end::End;
use job_journal::laws::talk::messages_are_noted;
use jtext::{List, NoMemory};
use world::{Chan, Disk, Say};
use zmtp_wire::{Messages as Bodies, WireFault};

impl Execution {
    ghost use Rattle.std.specs.Prelude.{◌≡◌, true, Some, is_some, IfOk, OnOk, List as Plain, [], ◌∷◌, ◌++◌};
    ghost use Rattle.kernel_talk.specs.Asking.{Asked};
    ghost use Rattle.run_journal.specs.Codec.{Arrival};
    ghost use Rattle.run_journal.specs.Jupyter.{arrival_of};
    ghost use Rattle.job_journal.specs.Talk.{heard_on_shell};
    ghost use Rattle.job_run.specs.Heard.{AreContents, HearsOn, HearsShell, HearsIopub, Listens};
    ghost use Rattle.job_run.specs.Heard.{answered, arrivals_of, echoed};
    ghost use Rattle.job_run.specs.Held.{Holds, IsCalm};
    ghost use Rattle.cell_core.specs.declared.act.Act.TheVariants.{Nothing};
    ghost use Rattle.job_run.specs.Steps.{Proceeds};
    ghost use Rattle.std.specs.Prelude.{ℕ};
    ghost use Rattle.world.specs.declared.chan.Chan.{Chan as Channel};
    ghost use Rattle.world.specs.Moments.{Told};
    ghost use Rattle.run_journal.specs.Why.{fault_on};
    ghost use Rattle.job_journal.specs.Ended.{IsBrokenAs, bad_with};
    ghost use Rattle.job_journal.specs.Plot.{Plot, facts};
    ghost use Rattle.job_run.specs.Standing.{BreaksAs, HasFed, HasListened, IsGot, Stands};
    ghost use Rattle.job_run.specs.Standing.{StandsOrEnds, UsesOrEnds};

    /// A piece came on this channel. All that it brings is heard, then the kernel may have come to be
    /// ready, and then what is of the request that stood is used.
    pub(crate) fn on_piece<W: Disk + Say>(
        &mut self,
        w: &mut W,
        chan: Chan,
        piece: &[u8],
    ) -> Result<(), End>
        requires holds { Holds self.old }
        requires calm { IsCalm self.old }
        ensures goes { Proceeds W.journal W.counts w.old w.new self.old self.new Nothing result }
        // Where the piece was just got on this connection of the job, and the execution stood for the
        // journal before, it stands for the journal again.
        ensures stands { (p : Plot) (number : ℕ) → Told (W.journal w.old) (W.journal w.new)
            (λ before after. IsGot p number self.old chan piece.now before →
            StandsOrEnds p number self.new result after) }
        // A piece that breaks its stream ends the job.
        ensures ends { (p : Plot) (number : ℕ) → Told (W.journal w.old) (W.journal w.new)
            (λ before after. IsGot p number self.old chan piece.now before →
            is_some (fault_on (facts p) after chan) ≡ true → OnOk result ⊥) }
    {
        let (bodies, fault) = self.lines.feed(chan, piece)?;
        match self.on_bodies(w, chan, bodies) {
            Ok(()) => self.on_fault(w, chan, fault),
            Err(end) => Err(end),
        }
    }

    fn on_bodies<W: Disk + Say>(&mut self, w: &mut W, chan: Chan, bodies: Bodies) -> Result<(), End>
        requires holds { Holds self.old }
        requires calm { IsCalm self.old }
        ensures goes { Proceeds W.journal W.counts w.old w.new self.old self.new Nothing result }
        ensures stands { (p : Plot) (number : ℕ) → Told (W.journal w.old) (W.journal w.new)
            (λ before after. HasFed p number self.old chan bodies before →
            StandsOrEnds p number self.new result after) }
    {
        let heard = self.hear(chan, &bodies);
        // By a call, as where a job ends.
        drop(bodies);
        match heard {
            Ok(messages) => self.on_heard(w, chan, messages),
            Err(NoMemory) => Err(End::NoMemory),
        }
    }

    fn on_heard<W: Disk + Say>(
        &mut self,
        w: &mut W,
        chan: Chan,
        messages: List<Message>,
    ) -> Result<(), End>
        requires holds { Holds self.old }
        requires calm { IsCalm self.old }
        requires contents { AreContents messages }
        ensures goes { Proceeds W.journal W.counts w.old w.new self.old self.new Nothing result }
        ensures stands { (p : Plot) (number : ℕ) → Told (W.journal w.old) (W.journal w.new)
            (λ before after. HasListened p number self.old chan (arrivals_of messages) before →
            StandsOrEnds p number self.new result after) }
    {
        // What came with the end of a request is no part of the one that follows.
        let standing = self.sent;
        match self.note_ready(w) {
            Ok(()) => self.on_messages(w, chan, messages, standing),
            Err(end) => {
                // By a call, as where a job ends.
                drop(messages);
                Err(end)
            }
        }
    }

    // What was heard of these bodies on the channel: the messages whose content may be used.
    fn hear(&mut self, chan: Chan, bodies: &Bodies) -> Result<List<Message>, NoMemory>
        ensures listens { Listens self.old self.new }
        ensures contents { IfOk result AreContents }
        ensures heard { IfOk result (HearsOn chan bodies.now self.old self.new) }
    {
        match chan {
            Chan::Shell => self.hear_shell(bodies),
            Chan::Iopub => self.hear_iopub(bodies),
            // Replies to an interrupt or a shutdown are used for nothing.
            Chan::Control => Ok(List::new(self.alloc)),
            Chan::Heart => {
                self.hear_heart(bodies);
                Ok(List::new(self.alloc))
            }
        }
    }

    fn hear_shell(&mut self, bodies: &Bodies) -> Result<List<Message>, NoMemory>
        ensures listens { Listens self.old self.new }
        ensures contents { IfOk result AreContents }
        ensures heard { IfOk result (HearsShell bodies.now self.old self.new) }
    {
        let signer = self.session.signer();
        let messages = fresh_messages(self.alloc, signer, &mut self.seen.shell, bodies)?;
        self.note_replies(&messages)?;
        Ok(messages)
    }

    fn hear_iopub(&mut self, bodies: &Bodies) -> Result<List<Message>, NoMemory>
        ensures listens { Listens self.old self.new }
        ensures contents { IfOk result AreContents }
        ensures heard { IfOk result (HearsIopub bodies.now self.old self.new) }
    {
        let signer = self.session.signer();
        let messages = fresh_messages(self.alloc, signer, &mut self.seen.iopub, bodies)?;
        if !messages.is_empty() {
            self.asking.on_iopub();
        }
        Ok(messages)
    }

    // Each message on the heartbeat is an echo, whatever it holds.
    fn hear_heart(&mut self, bodies: &Bodies)
        ensures { self.new ≡ echoed bodies.now self.old }
    {
        if !bodies.is_empty() {
            self.pings.on_echo();
        }
    }

    // The replies to what the kernel is asked until it is ready are noted.
    fn note_replies(&mut self, messages: &List<Message>) -> Result<(), NoMemory>
        ensures listens { Listens self.old self.new }
        ensures asking { OnOk result (self.new ≡ record self.old {
          asking = heard_on_shell self.old.asking (arrivals_of messages.now);
        }) }
    {
        for message in messages.as_slice() {
            self.note_reply(message)?;
        }
        Ok(())
    }

    fn note_reply(&mut self, message: &Message) -> Result<(), NoMemory>
        ensures listens { Listens self.old self.new }
        ensures asking { OnOk result ((a : Asked) (before : Plain Arrival) →
            self.old.asking ≡ heard_on_shell a before → self.new ≡ record self.old {
              asking = heard_on_shell a (before ++ arrival_of message.now ∷ []);
            }) }
    {
        messages_are_noted();
        match read(self.alloc, &message.header.msg_type, &message.content)? {
            Content::InfoReply => self.note_answer(message),
            _ => {}
        }
        Ok(())
    }

    // The kernel has answered what it was asked.
    fn note_answer(&mut self, message: &Message)
        ensures { self.new ≡ record self.old {
          asking = answered self.old.asking message.now.parent_id;
        } }
    {
        if let Some(parent) = &message.parent_id {
            self.asking.on_reply(parent);
        }
    }

    // The kernel may have come to be ready by the messages that were heard.
    fn note_ready<W: Disk + Say>(&mut self, w: &mut W) -> Result<(), End>
        requires holds { Holds self.old }
        requires calm { IsCalm self.old }
        ensures goes { Proceeds W.journal W.counts w.old w.new self.old self.new Nothing result }
        ensures uses { (p : Plot) (number : ℕ) (c : Channel) (ms : Plain Arrival) →
            Told (W.journal w.old) (W.journal w.new) (λ before after.
            HasListened p number self.old c ms before →
            UsesOrEnds p number self.new result self.old.sent c [] ms after) }
    {
        if self.is_ready || !self.asking.is_ready() {
            return Ok(());
        }
        self.is_ready = true;
        let step = self.tell(Event::Ready);
        self.act(w, step.act)
    }

    fn on_fault<W: Disk + Say>(
        &mut self,
        w: &mut W,
        chan: Chan,
        fault: Option<WireFault>,
    ) -> Result<(), End>
        requires holds { Holds self.old }
        requires calm { IsCalm self.old }
        ensures goes { Proceeds W.journal W.counts w.old w.new self.old self.new Nothing result }
        ensures stands { (p : Plot) (number : ℕ) → Told (W.journal w.old) (W.journal w.new)
            (λ before after. BreaksAs (facts p) chan fault before →
            Stands p number self.old before → StandsOrEnds p number self.new result after) }
        ensures ends { (p : Plot) (number : ℕ) → Told (W.journal w.old) (W.journal w.new)
            (λ before after. BreaksAs (facts p) chan fault before →
            Stands p number self.old before → is_some fault ≡ true → OnOk result ⊥) }
    {
        match fault {
            Some(fault) => self.on_broken(w, chan, fault),
            None => Ok(()),
        }
    }

    fn on_broken<W: Disk + Say>(
        &mut self,
        w: &mut W,
        chan: Chan,
        fault: WireFault,
    ) -> Result<(), End>
        requires holds { Holds self.old }
        requires calm { IsCalm self.old }
        ensures goes { Proceeds W.journal W.counts w.old w.new self.old self.new Nothing result }
        ensures stands { (p : Plot) (number : ℕ) → Told (W.journal w.old) (W.journal w.new)
            (λ before after. IsBrokenAs (facts p) (bad_with chan fault) before →
            Stands p number self.old before → StandsOrEnds p number self.new result after) }
        ensures ends { (p : Plot) (number : ℕ) → Told (W.journal w.old) (W.journal w.new)
            (λ before after. IsBrokenAs (facts p) (bad_with chan fault) before →
            Stands p number self.old before → OnOk result ⊥) }
    {
        self.note_broken(chan, fault);
        let step = self.tell(Event::Broken);
        self.act(w, step.act)
    }

    // The stream of this channel broke.
    fn note_broken(&mut self, chan: Chan, fault: WireFault)
        requires holds { Holds self.old }
        ensures holds { Holds self.new }
        ensures named { is_some self.new.broken ≡ true }
        ensures noted { self.new.broken ≡ Some (chan, fault) }
        ensures core { self.new.core ≡ self.old.core }
        ensures clock { self.new.clock ≡ self.old.clock }
        ensures terms { self.new.terms ≡ self.old.terms }
        ensures book { self.new.book ≡ self.old.book }
        ensures rest { self.new ≡ record self.old { broken = self.new.broken } }
    {
        self.broken = Some((chan, fault));
    }
}
