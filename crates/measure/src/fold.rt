//! Folding streams and updates of one display.
ghost use Rattle.std.specs.Prelude.{◌≡◌, ◌+◌, ◌<◌, ◌≤◌, IfOk, OnOk};
ghost use Rattle.out_fold.specs.Stands.{cells_of, next_of};

use anyhow::{Error, Result, anyhow, bail};
use jcontent::{Content, Shown};
use jtext::{Fields, Json, List, NoMemory, Text};
use out_fold::Fold;
use std::alloc::Global;
use std::time::Instant;

// What the cells take.
#[derive(Clone, Copy, Drop)]
struct Messages<'a> {
    show: &'a Content,
    stream: &'a Content,
    update: &'a Content,
}

/// Folds `count` streams and as many updates of one display, which each of `cells` cells shows and has its share of,
/// and makes the outputs of all cells.
pub fn measure(rt: &HostRuntime, count: u32, cells: u32) -> Result<()> {
    if cells == 0 {
        return no_cell();
    }
    let contents = all_messages(rt)?;
    let end = measure_both(rt, contents.as_slice(), cells, count / cells);
    drop(contents);
    end
}

/// Times `count` streams of one cell, where the cell before it has that many outputs of one display.
pub fn measure_takes(rt: &HostRuntime, outputs: u32, count: u32) -> Result<()> {
    let contents = all_messages(rt)?;
    let end = measure_streams(rt, contents.as_slice(), outputs, count);
    drop(contents);
    end
}

/// Times `count` updates of one display that each of `cells` cells shows.
pub fn measure_updates(rt: &HostRuntime, cells: u32, count: u32) -> Result<()> {
    if cells == 0 {
        return no_cell();
    }
    let contents = all_messages(rt)?;
    let end = measure_shown(rt, contents.as_slice(), cells, count);
    drop(contents);
    end
}

fn no_cell() -> Result<()> {
    bail!("there is at least one cell")
}

fn no_memory() -> Error {
    anyhow!("no memory")
}

fn measure_both(rt: &HostRuntime, contents: &[Content], cells: u32, each: u32) -> Result<()> {
    let messages = messages_of(contents)?;
    let fold = time_fold(rt, &messages, cells, each)?;
    let end = time_outputs(rt, &fold, cells);
    drop(fold);
    end
}

fn measure_streams(rt: &HostRuntime, contents: &[Content], outputs: u32, count: u32) -> Result<()> {
    let messages = messages_of(contents)?;
    match fold_of_two(rt.alloc(), &messages, outputs) {
        Ok(mut fold) => {
            let end = time_takes(rt, &mut fold, messages.stream, count);
            drop(fold);
            end
        }
        Err(_) => Err(no_memory()),
    }
}

fn measure_shown(rt: &HostRuntime, contents: &[Content], cells: u32, count: u32) -> Result<()>
    requires { 0 < cells }
{
    let messages = messages_of(contents)?;
    match full_fold(rt.alloc(), &messages, cells, 0) {
        Ok(mut fold) => {
            let end = time_takes(rt, &mut fold, messages.update, count);
            drop(fold);
            end
        }
        Err(_) => Err(no_memory()),
    }
}

fn time_fold(rt: &HostRuntime, messages: &Messages, cells: u32, each: u32) -> Result<Fold>
    ensures { IfOk result (λ f. cells_of f ≡ cells) }
{
    let start = Instant::now(rt)?;
    let Ok(fold) = full_fold(rt.alloc(), messages, cells, each) else {
        bail!("no memory");
    };
    print_since(rt, "fold", start)?;
    Ok(fold)
}

fn time_outputs(rt: &HostRuntime, fold: &Fold, cells: u32) -> Result<()>
    requires { cells ≤ cells_of fold.now }
{
    let start = Instant::now(rt)?;
    let Ok(outputs) = outputs(fold, cells) else {
        bail!("no memory");
    };
    let took = start.elapsed(rt)?.as_micros();
    println!(rt; "outputs {took} {outputs}")?;
    Ok(())
}

// Takes the message so many times, and prints the time.
fn time_takes(rt: &HostRuntime, fold: &mut Fold, message: &Content, count: u32) -> Result<()>
    requires { 0 < next_of fold.old }
{
    let start = Instant::now(rt)?;
    if take_all(fold, message, count).is_err() {
        bail!("no memory");
    }
    print_since(rt, "take", start)
}

fn print_since(rt: &HostRuntime, name: &str, start: Instant) -> Result<()> {
    let took = start.elapsed(rt)?.as_micros();
    println!(rt; "{name} {took}")?;
    Ok(())
}

// Each cell shows the display, and takes `each` streams and updates.
fn full_fold(alloc: Global, messages: &Messages, cells: u32, each: u32) -> Result<Fold, NoMemory>
    ensures cells { IfOk result (λ f. cells_of f ≡ cells) }
    ensures next { IfOk result (λ f. next_of f ≡ cells) }
{
    let mut fold = empty(alloc, cells)?;
    for cell in 0..cells {
        fill(&mut fold, messages, cell, each)?;
    }
    Ok(fold)
}

// A fold of two cells, whose first has so many outputs and whose second begins.
fn fold_of_two(alloc: Global, messages: &Messages, outputs: u32) -> Result<Fold, NoMemory>
    ensures { IfOk result (λ f. next_of f ≡ 2) }
{
    let mut fold = empty(alloc, 2)?;
    begin(&mut fold, 0);
    take_all(&mut fold, messages.show, outputs)?;
    begin(&mut fold, 1);
    Ok(fold)
}

fn empty(alloc: Global, cells: u32) -> Result<Fold, NoMemory>
    ensures cells { IfOk result (λ f. cells_of f ≡ cells) }
    ensures next { IfOk result (λ f. next_of f ≡ 0) }
{
    Fold::new(alloc, cells, false)
}

fn begin(fold: &mut Fold, cell: u32)
    requires below { cell < cells_of fold.old }
    requires above { next_of fold.old ≤ cell }
    ensures next { next_of fold.new ≡ cell + 1 }
    ensures cells { cells_of fold.new ≡ cells_of fold.old }
{
    fold.start(cell);
}

// The cell shows the display, and takes `each` streams and updates.
fn fill(fold: &mut Fold, messages: &Messages, cell: u32, each: u32) -> Result<(), NoMemory>
    requires below { cell < cells_of fold.old }
    requires above { next_of fold.old ≤ cell }
    ensures next { next_of fold.new ≡ cell + 1 }
    ensures cells { cells_of fold.new ≡ cells_of fold.old }
{
    begin(fold, cell);
    take(fold, messages.show)?;
    take_both(fold, messages, each)
}

// Takes the stream and the update so many times.
fn take_both(fold: &mut Fold, messages: &Messages, count: u32) -> Result<(), NoMemory>
    requires { 0 < next_of fold.old }
    ensures next { next_of fold.new ≡ next_of fold.old }
    ensures cells { cells_of fold.new ≡ cells_of fold.old }
{
    for taken in 0..count {
        take(fold, messages.stream)?;
        take(fold, messages.update)?;
    }
    Ok(())
}

// Takes the message so many times.
fn take_all(fold: &mut Fold, message: &Content, count: u32) -> Result<(), NoMemory>
    requires { 0 < next_of fold.old }
    ensures next { next_of fold.new ≡ next_of fold.old }
    ensures cells { cells_of fold.new ≡ cells_of fold.old }
{
    for taken in 0..count {
        take(fold, message)?;
    }
    Ok(())
}

fn take(fold: &mut Fold, message: &Content) -> Result<(), NoMemory>
    requires { 0 < next_of fold.old }
    ensures next { next_of fold.new ≡ next_of fold.old }
    ensures cells { cells_of fold.new ≡ cells_of fold.old }
{
    fold.take(message, None)
}

// How many outputs all cells have.
fn outputs(fold: &Fold, cells: u32) -> Result<usize, NoMemory>
    requires { cells ≤ cells_of fold.now }
{
    let mut count = 0usize;
    for cell in 0..cells {
        count = count.saturating_add(outputs_in(fold, cell)?);
    }
    Ok(count)
}

fn outputs_in(fold: &Fold, cell: u32) -> Result<usize, NoMemory>
    requires { cell < cells_of fold.now }
{
    let outputs = fold.outputs(cell)?;
    Ok(outputs.len())
}

fn all_messages(rt: &HostRuntime) -> Result<List<Content>> {
    match make_messages(rt.alloc()) {
        Ok(contents) => Ok(contents),
        Err(_) => bail!("no memory"),
    }
}

// A display, a stream, and an update of the display.
fn make_messages(alloc: Global) -> Result<List<Content>, NoMemory> {
    let mut contents = List::new(alloc);
    push_messages(alloc, &mut contents)?;
    Ok(contents)
}

fn push_messages(alloc: Global, contents: &mut List<Content>) -> Result<(), NoMemory> {
    contents.push(display(alloc)?)?;
    contents.push(stream(alloc)?)?;
    contents.push(update(alloc)?)
}

fn messages_of(contents: &[Content]) -> Result<Messages> {
    match contents {
        [show, stream, update] => Ok(Messages {
            show,
            stream,
            update,
        }),
        _ => bail!("there are three messages"),
    }
}

fn display(alloc: Global) -> Result<Content, NoMemory> {
    Ok(Content::Display(shown(alloc)?))
}

fn update(alloc: Global) -> Result<Content, NoMemory> {
    Ok(Content::Update(shown(alloc)?))
}

fn stream(alloc: Global) -> Result<Content, NoMemory> {
    let name = Text::of(alloc, "stdout")?;
    let text = Text::of(alloc, "a line of some forty octets, as usual..\n")?;
    Ok(Content::Stream { name, text })
}

fn shown(alloc: Global) -> Result<Shown, NoMemory> {
    let bundle = bundle(alloc)?;
    let id = Text::of(alloc, "bar")?;
    Ok(Shown {
        bundle,
        metadata: Json::Obj(Fields::new(alloc)),
        id: Some(id),
    })
}

fn bundle(alloc: Global) -> Result<Fields, NoMemory> {
    let kind = Text::of(alloc, "text/plain")?;
    let text = Text::of(alloc, "Progress: 50 %")?;
    Ok(Fields::of_vec(vec![in alloc; (kind, Json::Str(text))]?))
}
