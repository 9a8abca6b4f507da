//! The cell that is injected.
ghost use Rattle.std.specs.Prelude.{◌≡◌, ◌∷◌, [], IfOk};
ghost use Rattle.jtext.specs.declared.json.Json.TheVariants as json;
ghost use Rattle.nb_params.specs.Injected as injected;

use crate::source::python;
use jtext::{Fields, Items, Json, NoMemory, Text, object, pair, string};
use nb_model::{Cell, Kind, split_lines};
use std::alloc::Global;

/// The code cell that sets the parameters, tagged `injected-parameters`.
pub(crate) fn parameters_cell(alloc: Global, id: Text, params: &Fields) -> Result<Cell, NoMemory>
    ensures { IfOk result (λ c. c ≡ injected.parameters_cell id params.now) }
{
    let text = python(alloc, params)?;
    let source = split_lines(alloc, text.as_str())?;
    let metadata = metadata(alloc)?;
    Ok(Cell {
        kind: Kind::Code,
        id,
        metadata,
        source,
        attachments: None,
        outputs: Items::new(alloc),
        count: None,
    })
}

fn metadata(alloc: Global) -> Result<Json, NoMemory>
    ensures { IfOk result (λ t. t ≡ injected.parameters_metadata) }
{
    let tag = string(alloc, "injected-parameters")?;
    let tags = list_of(alloc, tag)?;
    let tags = pair(alloc, "tags", tags)?;
    let metadata = object(alloc, [tags])?;
    Ok(metadata)
}

/// The list with this one item.
fn list_of(alloc: Global, item: Json) -> Result<Json, NoMemory>
    ensures { IfOk result (λ t. t ≡ json.Arr (item ∷ [])) }
{
    let items = vec![in alloc; item]?;
    Ok(Json::Arr(Items::of_vec(items)))
}
