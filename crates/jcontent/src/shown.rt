//! Data that is shown.
ghost use Rattle.std.specs.Prelude.{◌≡◌, IfOk, option_map};
ghost use Rattle.jcontent.specs.Contents as contents;

use crate::bundle::bundle_at;
use jtext::{Fields, Json, NoMemory, Text, copy, field, string_at};
use std::alloc::Global;

/// What a display or a result shows: its data by MIME type, the metadata of these, and its display
/// id.
#[derive(Debug, Drop)]
pub struct Shown {
    /// The data by MIME type: strings or lists of strings, and any tree under a JSON type.
    pub bundle: Fields,
    /// An object, empty where the message has none.
    pub metadata: Json,
    /// The name by which later messages update it.
    pub id: Option<Text>,
}

impl Shown {
    ghost use Rattle.std.specs.Prelude.{◌≡◌, IfOk};
    ghost use Rattle.jcontent.specs.Contents.{shown_data as shown_by};

    /// What the content shows; `None` where it has no bundle, or metadata that is no object.
    pub(crate) fn of(alloc: Global, t: &Json) -> Result<Option<Shown>, NoMemory>
        ensures { IfOk result (λ r. r ≡ shown_by t.now) }
    {
        let Some(bundle) = bundle_at(alloc, t)? else {
            return Ok(None);
        };
        let Some(metadata) = metadata(alloc, t)? else {
            return Ok(None);
        };
        let id = display_id(alloc, t)?;
        Ok(Some(Shown {
            bundle,
            metadata,
            id,
        }))
    }
}

fn metadata(alloc: Global, t: &Json) -> Result<Option<Json>, NoMemory>
    ensures { IfOk result (λ r. r ≡ contents.metadata t.now) }
{
    match field(t, "metadata") {
        Some(v) => object(alloc, v),
        None => Ok(Some(Json::Obj(Fields::new(alloc)))),
    }
}

fn object(alloc: Global, v: &Json) -> Result<Option<Json>, NoMemory>
    ensures { IfOk result (λ r. r ≡ contents.object v.now) }
{
    if v.is_object() {
        Ok(Some(copy(alloc, v)?))
    } else {
        Ok(None)
    }
}

fn display_id(alloc: Global, t: &Json) -> Result<Option<Text>, NoMemory>
    ensures { IfOk result (λ r. r ≡ contents.display_id t.now) }
{
    match found_id(t) {
        Some(id) => Ok(Some(Text::of(alloc, id.as_str())?)),
        None => Ok(None),
    }
}

fn found_id(t: &Json) -> Option<&Text>
    ensures { option_map (λ r. r.now) result ≡ contents.display_id t.now }
{
    string_at(field(t, "transient")?, "display_id")
}
