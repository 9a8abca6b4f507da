//! What is used of the messages that were heard.
ghost use Rattle.std.specs.Prelude.{◌≡◌};
ghost use Rattle.job_run.specs.Used.{brief_in};

use crate::execution::Execution;
use cell_core::{Brief, Event, allowed};
use jcontent::{Content, ReplyIs, State, read};
use jmsg::Message;
use job_end::End;
use job_saves::laws;
use jtext::{List, NoMemory, Text};
use world::{Chan, Disk, Say};

impl Execution {
    ghost use Rattle.job_notebook.specs.State.{KeepsParts};
    ghost use Rattle.std.specs.Prelude.{◌≡◌, true, false, is_some, IfOk, OnOk};
    ghost use Rattle.std.specs.Option.{option_copied};
    ghost use Rattle.job_run.specs.Heard.{AreContents, IsContent, is_of};
    ghost use Rattle.job_run.specs.Held.{Holds, IsCalm, KeepsToDo};
    ghost use Rattle.job_run.specs.Counted.{KeepsTold};
    ghost use Rattle.jcontent.specs.IsRead.{IsRead};
    ghost use Rattle.run_journal.specs.Jupyter.{arrival_of};
    ghost use Rattle.job_saves.specs.Course.{StaysOn, KeepsPart};
    ghost use Rattle.cell_core.specs.declared.act.Act.TheVariants.{Nothing};
    ghost use Rattle.job_run.specs.Steps.{Proceeds};
    ghost use Rattle.job_run.specs.Used.{NotesReply, SameRequest, UsesMessage, UsesReply};
    ghost use Rattle.job_run.specs.Used.{is_tagged_in};
    ghost use Rattle.std.specs.Prelude.{ℕ, List as Plain, []};
    ghost use Rattle.world.specs.Moments.{Told};
    ghost use Rattle.world.specs.declared.chan.Chan.TheVariants.{Shell, Iopub};
    ghost use Rattle.jcontent.specs.declared.content.Content.TheVariants.{ExecReply};
    ghost use Rattle.run_journal.specs.Codec.{Arrival};
    ghost use Rattle.job_journal.specs.Plot.{Plot};
    ghost use Rattle.job_run.specs.Heard.{arrivals_of};
    ghost use Rattle.job_run.specs.Standing.{DealsWith, IsOwn, Uses, UsesOrEnds};

    /// Messages were heard on this channel. What is of the request that stood when they came is used:
    /// so many requests had been sent then.
    pub(crate) fn on_messages<W: Disk + Say>(
        &mut self,
        w: &mut W,
        chan: Chan,
        messages: List<Message>,
        standing: u64,
    ) -> Result<(), End>
        requires holds { Holds self.old }
        requires calm { IsCalm self.old }
        requires contents { AreContents messages }
        ensures goes { Proceeds W.journal W.counts w.old w.new self.old self.new Nothing result }
        ensures uses { (p : Plot) (number : ℕ) → Told (W.journal w.old) (W.journal w.new)
            (λ before after. Uses p number self.old standing chan [] (arrivals_of messages) before →
            UsesOrEnds p number self.new result standing chan (arrivals_of messages) [] after) }
    {
        for message in messages.as_slice() {
            self.on_message(w, chan, message, standing)?;
        }
        Ok(())
    }

    fn on_message<W: Disk + Say>(
        &mut self,
        w: &mut W,
        chan: Chan,
        message: &Message,
        standing: u64,
    ) -> Result<(), End>
        requires holds { Holds self.old }
        requires calm { IsCalm self.old }
        requires content { IsContent message.now.content }
        ensures goes { Proceeds W.journal W.counts w.old w.new self.old self.new Nothing result }
        ensures uses { (p : Plot) (number : ℕ) (done rest : Plain Arrival) →
            Told (W.journal w.old) (W.journal w.new) (DealsWith p number self.old standing chan done
            (arrival_of message.now) rest self.new result) }
    {
        if !self.is_of_request(message, standing) {
            return Ok(());
        }
        match self.content_of(message) {
            Ok(content) => self.on_own(w, chan, content, message.header.date.as_ref()),
            Err(NoMemory) => Err(End::NoMemory),
        }
    }

    // Whether the message belongs to the request that stood when its piece came.
    fn is_of_request(&self, message: &Message, standing: u64) -> bool
        ensures is { result ≡ is_of self.now standing message.now }
        ensures stands { result ≡ true → is_some self.now.request ≡ true }
    {
        if self.sent != standing {
            return false;
        }
        match (&self.request, &message.parent_id) {
            (Some(request), Some(parent)) => request.id.as_str() == parent.as_str(),
            _ => false,
        }
    }

    fn content_of(&self, message: &Message) -> Result<Content, NoMemory>
        requires { IsContent message.now.content }
        ensures read { IfOk result IsRead }
        ensures is { IfOk result (λ c. c ≡ (arrival_of message.now).content) }
    {
        jtext::laws::sound(&message.content);
        jcontent::laws::read_by_rule();
        read(self.alloc, &message.header.msg_type, &message.content)
    }

    // What came for the request that stands: on IOPub each message is used, on shell its reply.
    fn on_own<W: Disk + Say>(
        &mut self,
        w: &mut W,
        chan: Chan,
        content: Content,
        date: Option<&Text>,
    ) -> Result<(), End>
        requires holds { Holds self.old }
        requires calm { IsCalm self.old }
        requires asked { is_some self.old.request ≡ true }
        requires read { IsRead content }
        ensures goes { Proceeds W.journal W.counts w.old w.new self.old self.new Nothing result }
        ensures uses { (p : Plot) (number standing : ℕ) (done rest : Plain Arrival) (m : Arrival) →
            IsOwn m standing content (option_copied date.entry) self.old →
            Told (W.journal w.old) (W.journal w.new) (DealsWith p number self.old standing chan done
            m rest self.new result) }
    {
        match (chan, content) {
            (Chan::Iopub, content) => self.on_content(w, &content, date),
            (Chan::Shell, Content::ExecReply(reply)) => self.on_reply(w, reply, date),
            _ => Ok(()),
        }
    }

    // What was published for the request that stands.
    fn on_content<W: Disk + Say>(
        &mut self,
        w: &mut W,
        content: &Content,
        date: Option<&Text>,
    ) -> Result<(), End>
        requires holds { Holds self.old }
        requires calm { IsCalm self.old }
        requires asked { is_some self.old.request ≡ true }
        requires read { IsRead content.now }
        ensures goes { Proceeds W.journal W.counts w.old w.new self.old self.new Nothing result }
        ensures uses { (p : Plot) (number standing : ℕ) (done rest : Plain Arrival) (m : Arrival) →
            IsOwn m standing content.now (option_copied date.entry) self.old →
            Told (W.journal w.old) (W.journal w.new) (DealsWith p number self.old standing Iopub
            done m rest self.new result) }
    {
        let step = self.tell(Event::Io(brief_of(content)));
        match self.take(step.takes, content, date) {
            Ok(()) => self.act(w, step.act),
            Err(NoMemory) => Err(End::NoMemory),
        }
    }

    // A message is used for the request that stands, where the core takes it.
    fn take(&mut self, takes: bool, content: &Content, date: Option<&Text>) -> Result<(), NoMemory>
        requires holds { Holds self.old }
        requires asked { is_some self.old.request ≡ true }
        requires read { IsRead content.now }
        ensures holds { Holds self.new }
        ensures todo { KeepsToDo self.old self.new }
        ensures core { self.new.core ≡ self.old.core }
        ensures told { KeepsTold self.old self.new }
        ensures course { StaysOn self.old.book self.new.book }
        ensures calls { KeepsPart self.old.book self.new.book }
        ensures rest { self.new ≡ record self.old { book = self.new.book } }
        ensures parts { KeepsParts self.old.book self.new.book }
        ensures still { takes ≡ false → self.new.book ≡ self.old.book }
        ensures uses { OnOk result (UsesMessage takes content.now (option_copied date.entry)
            self.old.book self.new.book) }
    {
        laws::messages_stay_on_course();
        if !takes {
            return Ok(());
        }
        self.book.take(content, date)
    }

    fn on_reply<W: Disk + Say>(
        &mut self,
        w: &mut W,
        reply: ReplyIs,
        date: Option<&Text>,
    ) -> Result<(), End>
        requires asked { is_some self.old.request ≡ true }
        requires holds { Holds self.old }
        requires calm { IsCalm self.old }
        ensures goes { Proceeds W.journal W.counts w.old w.new self.old self.new Nothing result }
        ensures uses { (p : Plot) (number standing : ℕ) (done rest : Plain Arrival) (m : Arrival) →
            IsOwn m standing (ExecReply reply) (option_copied date.entry) self.old →
            Told (W.journal w.old) (W.journal w.new) (DealsWith p number self.old standing Shell
            done m rest self.new result) }
    {
        let fatal = !allowed(
            &reply,
            self.terms.all_errors,
            &self.terms.names,
            self.is_tagged(),
        );
        let step = self.tell(Event::Reply { fatal });
        match self.take_reply(step.takes, reply, fatal, date) {
            Ok(()) => self.act(w, step.act),
            Err(NoMemory) => Err(End::NoMemory),
        }
    }

    // A reply is used for the request that stands, where the core takes it, and stops the run or not.
    fn take_reply(
        &mut self,
        takes: bool,
        reply: ReplyIs,
        fatal: bool,
        date: Option<&Text>,
    ) -> Result<(), NoMemory>
        requires holds { Holds self.old }
        requires asked { is_some self.old.request ≡ true }
        ensures holds { Holds self.new }
        ensures todo { KeepsToDo self.old self.new }
        ensures core { self.new.core ≡ self.old.core }
        ensures told { KeepsTold self.old self.new }
        ensures course { StaysOn self.old.book self.new.book }
        ensures calls { KeepsPart self.old.book self.new.book }
        ensures rest { self.new ≡
            record self.old { book = self.new.book; request = self.new.request } }
        ensures parts { KeepsParts self.old.book self.new.book }
        ensures still { takes ≡ false → self.new.book ≡ self.old.book }
        ensures request { SameRequest self.old.request self.new.request }
        ensures notes { OnOk result
            (NotesReply takes fatal reply self.old.request self.new.request) }
        ensures uses { OnOk result (UsesReply takes (option_copied date.entry)
            self.old.book self.new.book) }
    {
        laws::messages_stay_on_course();
        if !takes {
            return Ok(());
        }
        self.book.reply(date)?;
        if fatal {
            self.note_error(reply);
        }
        Ok(())
    }

    fn is_tagged(&self) -> bool
        ensures { result ≡ is_tagged_in self.now.request }
    {
        match &self.request {
            Some(request) => request.is_tagged,
            None => false,
        }
    }

    fn note_error(&mut self, reply: ReplyIs)
        requires { Holds self.old }
        ensures holds { Holds self.new }
        ensures todo { KeepsToDo self.old self.new }
        ensures core { self.new.core ≡ self.old.core }
        ensures told { KeepsTold self.old self.new }
        ensures book { self.new.book ≡ self.old.book }
        ensures rest { self.new ≡ record self.old { request = self.new.request } }
        ensures request { SameRequest self.old.request self.new.request }
        ensures notes { NotesReply true true reply self.old.request self.new.request }
    {
        if let Some(request) = &mut self.request {
            if let ReplyIs::Error { ename } = reply {
                request.error = Some(ename);
            }
        }
    }
}

fn brief_of(content: &Content) -> Brief
    ensures { result ≡ brief_in content.now }
{
    match content {
        Content::Status(State::Idle) => Brief::Idle,
        _ => Brief::Else,
    }
}
