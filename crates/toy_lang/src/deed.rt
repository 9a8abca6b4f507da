//! `Deed`, what a line does.
use crate::Effect;
use jtext::Text;

/// What a line does: nothing, it sets a variable, or it has an effect.
#[derive(Debug, Drop)]
pub(crate) enum Deed {
    Pass,
    Set { name: Text, value: Text },
    Give(Effect),
}
