//! What is held of one cell.
ghost use Rattle.jcontent.specs.declared.content.Content.TheVariants as content;

use crate::copies;
use jcontent::{Content, Shown, State};
use jtext::{List, NoMemory, NumText, Text, Texts};
use std::alloc::Global;

/// What is held of the messages that were used for a cell's request.
#[derive(Debug, Drop)]
pub struct Folded {
    /// The outputs that stand. Where one has a display id, its data stand apart.
    pub(crate) outputs: List<Content>,
    /// Whether a clear waits for the next output.
    pub(crate) waits: bool,
    /// The last execution count told.
    pub(crate) count: Option<NumText>,
    /// The date of the last `execute_input`.
    pub(crate) input: Option<Text>,
    /// The date of the last `status` that said busy.
    pub(crate) busy: Option<Text>,
    /// The date of the last `status` that said idle.
    pub(crate) idle: Option<Text>,
    /// The date of the reply.
    pub(crate) reply: Option<Text>,
}

impl Folded {
    ghost use Rattle.std.specs.Prelude.{◌≡◌, ◌++◌, ◌∷◌, [], OnOk, OnErr, true, false, if◌then◌else◌};
    ghost use Rattle.std.specs.Option.{option_copied, option_or};
    ghost use Rattle.out_fold.specs.Held.{nothing, step, held_output};

    /// Nothing was used. It takes no memory.
    pub(crate) fn new(alloc: Global) -> Folded
        ensures { result ≡ nothing }
    {
        Folded {
            outputs: List::new(alloc),
            waits: false,
            count: None,
            input: None,
            busy: None,
            idle: None,
            reply: None,
        }
    }

    /// Takes one more message.
    pub(crate) fn take(
        &mut self,
        alloc: Global,
        c: &Content,
        date: Option<&Text>,
    ) -> Result<(), NoMemory>
        ensures ok { OnOk result (self.new ≡ step self.old c.now (option_copied date.entry)) }
        ensures err { OnErr result (self.new ≡ self.old) }
    {
        match c {
            Content::Status(state) => self.status(alloc, *state, date),
            Content::Input(count) => self.input(alloc, count, date),
            Content::Stream { name, text } => self.stream(alloc, name, text),
            Content::Display(shown) => self.display(alloc, shown),
            Content::Outcome { shown, count } => self.outcome(alloc, shown, count),
            Content::Error {
                ename,
                evalue,
                traceback,
            } => self.error(alloc, ename, evalue, traceback),
            Content::Clear { later } => {
                self.clear(alloc, *later);
                Ok(())
            }
            Content::Update(_) => Ok(()),
            Content::ExecReply(_) => Ok(()),
            Content::InfoReply => Ok(()),
            Content::Other => Ok(()),
        }
    }

    fn status(&mut self, alloc: Global, state: State, date: Option<&Text>) -> Result<(), NoMemory>
        ensures ok { OnOk result (self.new
            ≡ step self.old (content.Status state) (option_copied date.entry)) }
        ensures err { OnErr result (self.new ≡ self.old) }
    {
        let date = copies::date(alloc, date)?;
        match state {
            State::Busy => self.busy = date,
            State::Idle => self.idle = date,
            State::Else => {}
        }
        Ok(())
    }

    fn input(
        &mut self,
        alloc: Global,
        count: &Option<NumText>,
        date: Option<&Text>,
    ) -> Result<(), NoMemory>
        ensures ok { OnOk result (self.new
            ≡ step self.old (content.Input count.now) (option_copied date.entry)) }
        ensures err { OnErr result (self.new ≡ self.old) }
    {
        let date = copies::date(alloc, date)?;
        let count = copies::count(alloc, count)?;
        self.input = date;
        self.tell(count);
        Ok(())
    }

    fn tell(&mut self, count: Option<NumText>)
        ensures { self.new ≡ record self.old { count = option_or count self.old.count } }
    {
        if count.is_some() {
            self.count = count;
        }
    }

    fn stream(&mut self, alloc: Global, name: &Text, text: &Text) -> Result<(), NoMemory>
        ensures ok { OnOk result (self.new
            ≡ record self.old {
              outputs = (if self.old.waits then [] else self.old.outputs) ++
                  content.Stream name.now text.now ∷ [];
              waits = false;
            }) }
        ensures err { OnErr result (self.new ≡ self.old) }
    {
        let name = Text::of(alloc, name.as_str())?;
        let text = Text::of(alloc, text.as_str())?;
        self.append(alloc, Content::Stream { name, text })
    }

    fn display(&mut self, alloc: Global, shown: &Shown) -> Result<(), NoMemory>
        ensures ok { OnOk result (self.new
            ≡ record self.old {
              outputs = (if self.old.waits then [] else self.old.outputs) ++ held_output
                  (content.Display shown.now) ∷ [];
              waits = false;
            }) }
        ensures err { OnErr result (self.new ≡ self.old) }
    {
        let shown = copies::shown_held(alloc, shown)?;
        self.append(alloc, Content::Display(shown))
    }

    fn outcome(
        &mut self,
        alloc: Global,
        shown: &Shown,
        count: &Option<NumText>,
    ) -> Result<(), NoMemory>
        ensures ok { OnOk result (self.new
            ≡ record self.old {
              outputs = (if self.old.waits then [] else self.old.outputs) ++ held_output
                  (content.Outcome shown.now count.now) ∷ [];
              waits = false;
              count = option_or count.now
                  self.old.count;
            }) }
        ensures err { OnErr result (self.new ≡ self.old) }
    {
        let shown = copies::shown_held(alloc, shown)?;
        let own = copies::count(alloc, count)?;
        let told = copies::count(alloc, count)?;
        self.append(alloc, Content::Outcome { shown, count: own })?;
        self.tell(told);
        Ok(())
    }

    fn error(
        &mut self,
        alloc: Global,
        ename: &Text,
        evalue: &Text,
        traceback: &Texts,
    ) -> Result<(), NoMemory>
        ensures ok { OnOk result (self.new
            ≡ record self.old {
              outputs = (if self.old.waits then [] else self.old.outputs) ++
                  content.Error ename.now evalue.now traceback.now ∷ [];
              waits = false;
            }) }
        ensures err { OnErr result (self.new ≡ self.old) }
    {
        let ename = Text::of(alloc, ename.as_str())?;
        let evalue = Text::of(alloc, evalue.as_str())?;
        let traceback = copies::texts(alloc, traceback)?;
        self.append(
            alloc,
            Content::Error {
                ename,
                evalue,
                traceback,
            },
        )
    }

    /// Puts one more output after those that stand; a clear that waits acts now.
    fn append(&mut self, alloc: Global, output: Content) -> Result<(), NoMemory>
        ensures ok { OnOk result (self.new
            ≡ record self.old {
              outputs = (if self.old.waits then [] else self.old.outputs) ++
                  output ∷ [];
              waits = false;
            }) }
        ensures err { OnErr result (self.new ≡ self.old) }
    {
        if self.waits {
            let alone = vec![in alloc; output]?;
            self.outputs = List::of_vec(alone);
            self.waits = false;
            Ok(())
        } else {
            self.outputs.push(output)
        }
    }

    fn clear(&mut self, alloc: Global, later: bool)
        ensures { self.new ≡ (if later then record self.old { waits = true } else record self.old {
          outputs = [];
          waits = false;
        }) }
    {
        if later {
            self.waits = true;
        } else {
            self.outputs = List::new(alloc);
            self.waits = false;
        }
    }
}
