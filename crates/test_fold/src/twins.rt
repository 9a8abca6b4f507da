//! The fold beside the plain one, over pseudo-random lists of messages.
use crate::trees::tree_text;
use jcontent::{Content, ReplyIs, Shown, State};
use jtext::{Fields, Json, NoMemory, NumText, Text, Texts};
use out_fold::{Fold, PlainFold};
use std::alloc::Global;
use std::test::Fail;

/// How many cells each notebook has.
const CELLS: u32 = 4;

/// Pseudo-random numbers by a linear congruential generator (Knuth's, for MMIX).
#[derive(Drop)]
struct Random {
    state: u64,
}

impl Random {
    ghost use Rattle.std.specs.Prelude.{◌<◌};

    /// A number below `n`.
    fn below(&mut self, n: u32) -> u32
        requires { 0 < n }
        ensures { result < n }
    {
        self.state = self
            .state
            .wrapping_mul(6_364_136_223_846_793_005)
            .wrapping_add(1_442_695_040_888_963_407);
        (self.state >> 33) as u32 % n
    }

    /// One of these words, of which there are at most eight with a blank between.
    fn word<'a>(&mut self, words: &'a str) -> &'a str {
        let count = words.split(' ').count().clamp(1, 8) as u32;
        let place = self.below(count) as usize;
        words.split(' ').nth(place).unwrap_or("")
    }
}

fn text(alloc: Global, random: &mut Random) -> Result<Text, NoMemory> {
    Text::of(alloc, random.word("a b\nc \n d\n 1 x"))
}

fn id(alloc: Global, random: &mut Random) -> Result<Option<Text>, NoMemory> {
    match random.word("x y z -") {
        "-" => Ok(None),
        id => Ok(Some(Text::of(alloc, id)?)),
    }
}

fn count(alloc: Global, random: &mut Random) -> Option<NumText> {
    NumText::of(alloc, random.word("1 22 333 none")).ok()
}

fn bundle(alloc: Global, random: &mut Random) -> Result<Fields, NoMemory> {
    let key = Text::of(
        alloc,
        random.word("text/plain text/x+json image/svg+xml image/png"),
    )?;
    let value = Json::Str(text(alloc, random)?);
    Ok(Fields::of_vec(vec![in alloc; (key, value)]?))
}

fn metadata(alloc: Global, random: &mut Random) -> Result<Json, NoMemory> {
    let seen = (Text::of(alloc, "seen")?, Json::Bool(random.below(2) == 0));
    Ok(Json::Obj(Fields::of_vec(vec![in alloc; seen]?)))
}

fn shown(alloc: Global, random: &mut Random) -> Result<Shown, NoMemory> {
    Ok(Shown {
        bundle: bundle(alloc, random)?,
        metadata: metadata(alloc, random)?,
        id: id(alloc, random)?,
    })
}

fn stream(alloc: Global, random: &mut Random) -> Result<Content, NoMemory> {
    let name = Text::of(alloc, random.word("stdout stderr"))?;
    let text = text(alloc, random)?;
    Ok(Content::Stream { name, text })
}

fn outcome(alloc: Global, random: &mut Random) -> Result<Content, NoMemory> {
    let shown = shown(alloc, random)?;
    let count = count(alloc, random);
    Ok(Content::Outcome { shown, count })
}

fn error(alloc: Global, random: &mut Random) -> Result<Content, NoMemory> {
    let line = text(alloc, random)?;
    let lines = vec![in alloc; line]?;
    Ok(Content::Error {
        ename: text(alloc, random)?,
        evalue: text(alloc, random)?,
        traceback: Texts::of_vec(lines),
    })
}

/// A message that makes an output, or changes one.
fn output(alloc: Global, random: &mut Random) -> Result<Content, NoMemory> {
    match random.below(10) {
        0..=3 => stream(alloc, random),
        4..=5 => Ok(Content::Display(shown(alloc, random)?)),
        6..=7 => Ok(Content::Update(shown(alloc, random)?)),
        8 => outcome(alloc, random),
        _ => error(alloc, random),
    }
}

fn content(alloc: Global, random: &mut Random) -> Result<Content, NoMemory> {
    match random.below(16) {
        0 => Ok(Content::Clear { later: false }),
        1..=2 => Ok(Content::Clear { later: true }),
        3 => Ok(Content::Status(State::Busy)),
        4 => Ok(Content::Status(State::Idle)),
        5 => Ok(Content::Input(count(alloc, random))),
        6 => Ok(Content::ExecReply(ReplyIs::Fine)),
        7 => Ok(Content::Other),
        _ => output(alloc, random),
    }
}

/// The fold and the plain one, which are given the same.
#[derive(Drop)]
struct Twins {
    fold: Fold,
    plain: PlainFold,
}

impl Twins {
    ghost use Rattle.std.specs.Prelude.{◌≡◌, ◌<◌, ◌≤◌, length};
    ghost use Rattle.out_fold.specs.Stands.{cells_of, next_of};
    ghost use Rattle.out_fold.specs.Plain.{used_of};

    fn same_outputs(&self, alloc: Global, cell: u32) -> Result<bool, NoMemory>
        requires { cell < cells_of self.now.fold }
    {
        let outputs = tree_text(alloc, Json::Arr(self.fold.outputs(cell)?))?;
        let plain_outputs = tree_text(alloc, Json::Arr(self.plain.outputs(cell)?))?;
        Ok(outputs.bytes() == plain_outputs.bytes())
    }

    fn same_dates(&self, alloc: Global, cell: u32) -> Result<bool, NoMemory>
        requires { cell < cells_of self.now.fold }
    {
        let dates = tree_text(alloc, Json::Obj(self.fold.dates(cell)?))?;
        let plain_dates = tree_text(alloc, Json::Obj(self.plain.dates(cell)?))?;
        Ok(dates.bytes() == plain_dates.bytes())
    }

    fn same_count(&self, cell: u32) -> bool
        requires { cell < cells_of self.now.fold }
    {
        match (self.fold.count(cell), self.plain.count(cell)) {
            (Some(count), Some(plain_count)) => count.as_str() == plain_count.as_str(),
            (None, None) => true,
            _ => false,
        }
    }

    /// Whether both say the same of a cell.
    fn agree_on(&self, alloc: Global, cell: u32) -> Result<bool, NoMemory>
        requires { cell < cells_of self.now.fold }
    {
        let outputs = self.same_outputs(alloc, cell)?;
        let dates = self.same_dates(alloc, cell)?;
        Ok(outputs && dates && self.same_count(cell))
    }

    /// Whether both say the same of every cell.
    fn agree(&self, alloc: Global) -> Result<bool, NoMemory>
        requires { CELLS ≤ cells_of self.now.fold }
    {
        for cell in 0..CELLS {
            if !self.agree_on(alloc, cell)? {
                return Ok(false);
            }
        }
        Ok(true)
    }

    /// Gives both this message, with a date or without.
    fn take(
        &mut self,
        alloc: Global,
        random: &mut Random,
        content: &Content,
    ) -> Result<(), NoMemory>
        requires begun { 0 < next_of self.old.fold }
        requires begun_plainly { 0 < length (used_of self.old.plain) }
        ensures next { next_of self.new.fold ≡ next_of self.old.fold }
        ensures cells { cells_of self.new.fold ≡ cells_of self.old.fold }
        ensures begun_plainly { length (used_of self.new.plain) ≡ length (used_of self.old.plain) }
    {
        let date = id(alloc, random)?;
        self.fold.take(content, date.as_ref())?;
        self.plain.take(content, date.as_ref())
    }

    /// Gives both the next message.
    fn give(&mut self, alloc: Global, random: &mut Random) -> Result<(), NoMemory>
        requires begun { 0 < next_of self.old.fold }
        requires begun_plainly { 0 < length (used_of self.old.plain) }
        ensures next { next_of self.new.fold ≡ next_of self.old.fold }
        ensures cells { cells_of self.new.fold ≡ cells_of self.old.fold }
        ensures begun_plainly { length (used_of self.new.plain) ≡ length (used_of self.old.plain) }
    {
        let content = content(alloc, random)?;
        let end = self.take(alloc, random, &content);
        drop(content);
        end
    }

    /// Gives both the reply.
    fn give_reply(&mut self, alloc: Global, random: &mut Random) -> Result<(), NoMemory>
        requires begun { 0 < next_of self.old.fold }
        requires begun_plainly { 0 < length (used_of self.old.plain) }
        ensures next { next_of self.new.fold ≡ next_of self.old.fold }
        ensures cells { cells_of self.new.fold ≡ cells_of self.old.fold }
    {
        let date = id(alloc, random)?;
        self.fold.reply(date.as_ref())?;
        self.plain.reply(date.as_ref())
    }

    /// Gives both up to 15 messages and a reply, and says whether they agreed after each.
    fn agree_after_each(&mut self, alloc: Global, random: &mut Random) -> Result<bool, NoMemory>
        requires begun { 0 < next_of self.old.fold }
        requires begun_plainly { 0 < length (used_of self.old.plain) }
        requires cells { CELLS ≤ cells_of self.old.fold }
        ensures next { next_of self.new.fold ≡ next_of self.old.fold }
        ensures cells { cells_of self.new.fold ≡ cells_of self.old.fold }
    {
        for taken in 0..random.below(16) {
            self.give(alloc, random)?;
            if !self.agree(alloc)? {
                return Ok(false);
            }
        }
        self.give_reply(alloc, random)?;
        self.agree(alloc)
    }

    /// Runs the cells, one in four left out, and says whether both agreed after each message.
    fn agree_on_all(&mut self, alloc: Global, random: &mut Random) -> Result<bool, NoMemory>
        requires cells { cells_of self.old.fold ≡ CELLS }
        requires fresh { next_of self.old.fold ≡ 0 }
    {
        for cell in 0..CELLS {
            if random.below(4) > 0 {
                self.fold.start(cell);
                self.plain.start(cell)?;
                if !self.agree_after_each(alloc, random)? {
                    return Ok(false);
                }
            }
        }
        self.agree(alloc)
    }
}

/// Whether both agree on a notebook, of which one cell in four isn't executed.
fn agree_throughout(alloc: Global, seed: u64) -> Result<bool, NoMemory> {
    let mut random = Random { state: seed };
    let merge = random.below(2) == 0;
    let mut twins = Twins {
        fold: Fold::new(alloc, CELLS, merge)?,
        plain: PlainFold::new(alloc, merge),
    };
    let agree = twins.agree_on_all(alloc, &mut random);
    drop(twins);
    agree
}

#[test]
fn the_fold_says_what_the_plain_one_says(rt: HostRuntime) -> Result<(), Fail> {
    for seed in 0..200u64 {
        let agree = agree_throughout(rt.alloc(), seed)?;
        assert!(rt; agree, "the list of seed {seed}");
    }
    Ok(())
}
