//! Which replies don't stop a job.
ghost use Rattle.std.specs.Prelude.{◌≡◌};
ghost use Rattle.std.specs.List.{list_any};
ghost use Rattle.std.specs.Str.{bytes_eq};
ghost use Rattle.cell_core.specs.Allowed.{is_allowed};

use jcontent::ReplyIs;
use jtext::{Text, Texts};

/// Whether the job goes on after this reply: it is no error, or errors are allowed for all cells,
/// or the exception's name is among `names`, or the cell is tagged `raises-exception`.
pub fn allowed(r: &ReplyIs, all: bool, names: &Texts, tagged: bool) -> bool
    ensures { result ≡ is_allowed r.now all names.now tagged }
{
    match r {
        ReplyIs::Error { ename } => all || has_name(names.as_slice(), ename.bytes()) || tagged,
        ReplyIs::Fine => true,
    }
}

fn has_name(names: &[Text], name: &[u8]) -> bool
    ensures { result ≡ list_any (λ n. bytes_eq name.now n) names.now }
{
    names.iter().any(|n| name == n.bytes())
}
