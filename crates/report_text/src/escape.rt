//! Text in a page.
ghost use Rattle.std.specs.Prelude.{◌≡◌, ◌++◌, IfOk, OnOk};
ghost use Rattle.report_text.specs.Page as pages;

use jtext::{Bytes, NoMemory};

/// Appends the text as a page shows it, with each octet escaped that could end the text or begin
/// anything else.
pub(crate) fn put_escaped(out: &mut Bytes, text: &[u8]) -> Result<(), NoMemory>
    ensures { OnOk result (out.new ≡ out.old ++ pages.escaped text.now) }
{
    for octet in text {
        put_octet(out, *octet)?;
    }
    Ok(())
}

fn put_octet(out: &mut Bytes, octet: u8) -> Result<(), NoMemory>
    ensures { OnOk result (out.new ≡ out.old ++ pages.escaped_octet octet) }
{
    match octet {
        b'&' => out.add(b"&amp;"),
        b'<' => out.add(b"&lt;"),
        b'>' => out.add(b"&gt;"),
        b'"' => out.add(b"&quot;"),
        _ => out.push(octet),
    }
}
