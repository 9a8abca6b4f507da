//! Notebooks that are generated, for rehearsing a kernel of the toy language.
ghost use Rattle.std.specs.Prelude.{◌≡◌, ◌≤◌, ◌++◌, ◌∷◌, [], IfOk, codes};
ghost use Rattle.std.specs.Fmt.{decimal};
ghost use Rattle.jtext.specs.declared.json.Json.TheVariants as json;
ghost use Rattle.nb_text.specs.Generated as generated;

use jtext::{Fields, Items, Json, NoMemory, Text, object, pair, text_pair};
use nb_model::{Cell, Cells, Kind, Notebook};
use std::alloc::Global;

/// A notebook of `n` cells, at most 200, for the toy kernel: they print, show, update and give
/// results in turn.
pub fn generate(alloc: Global, n: u32) -> Result<Notebook, NoMemory>
    requires { n ≤ 200 }
    ensures { IfOk result (λ book. book ≡ generated.generated_notebook n) }
{
    Ok(Notebook {
        metadata: kernel(alloc)?,
        cells: cells(alloc, n)?,
    })
}

fn cells(alloc: Global, n: u32) -> Result<Cells, NoMemory>
    ensures { IfOk result (λ cells. cells ≡ generated.cells_from 0 n) }
{
    let mut cells = Cells::new(alloc);
    for i in 0..n {
        cells.push(cell(alloc, i)?)?;
    }
    Ok(cells)
}

/// The cell with this index.
fn cell(alloc: Global, i: u32) -> Result<Cell, NoMemory>
    ensures { IfOk result (λ c. c ≡ generated.generated_cell i) }
{
    Ok(Cell {
        kind: Kind::Code,
        id: numbered_text(alloc, "g", i)?,
        metadata: Json::Obj(Fields::new(alloc)),
        source: line(alloc, i)?,
        attachments: None,
        outputs: Items::new(alloc),
        count: None,
    })
}

fn line(alloc: Global, i: u32) -> Result<Json, NoMemory>
    ensures { IfOk result (λ t. t ≡ json.Arr (json.Str (generated.verb i ++ decimal i) ∷ [])) }
{
    let mut lines = Items::new(alloc);
    lines.push(Json::Str(numbered_text(alloc, verb(i), i)?))?;
    Ok(Json::Arr(lines))
}

fn verb(i: u32) -> &'static str
    ensures { result.now ≡ generated.verb i }
{
    if i % 4 == 0 {
        "print "
    } else if i % 4 == 1 {
        "show d "
    } else if i % 4 == 2 {
        "update d "
    } else {
        "result "
    }
}

fn numbered_text(alloc: Global, front: &str, i: u32) -> Result<Text, NoMemory>
    ensures { IfOk result (λ text. text ≡ front.now ++ decimal i) }
{
    Ok(Text::of_string(format!(in alloc; "{front}{i}")?))
}

/// Metadata that name the toy kernel.
fn kernel(alloc: Global) -> Result<Json, NoMemory>
    ensures { IfOk result (λ t. t ≡ generated.kernel) }
{
    let spec = pair(alloc, "kernelspec", kernelspec(alloc)?)?;
    let metadata = object(alloc, [spec])?;
    Ok(metadata)
}

fn kernelspec(alloc: Global) -> Result<Json, NoMemory>
    ensures { IfOk result (λ t. t ≡ generated.kernelspec) }
{
    let shown = text_pair(alloc, "display_name", "Toy")?;
    let name = text_pair(alloc, "name", "toy")?;
    let spec = object(alloc, [shown, name])?;
    Ok(spec)
}
