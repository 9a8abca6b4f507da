//! Names of kernels.
ghost use Rattle.std.specs.Prelude.{◌≡◌};
ghost use Rattle.std.specs.List.{list_all};
ghost use Rattle.kspec.specs.Name.{is_good, is_name_char};

use jtext::Text;

/// Whether a kernel may have this name: 1 to 128 letters and digits of ASCII, dots, underscores and
/// hyphens, and neither `.` nor `..`, so that it names a folder below the folder of kernels.
pub fn good_name(name: &Text) -> bool
    ensures { result ≡ is_good name.now }
{
    let text = name.as_str();
    1 <= text.len()
        && text.len() <= 128
        && all_name_chars(text.as_bytes())
        && text != "."
        && text != ".."
}

fn all_name_chars(bytes: &[u8]) -> bool
    ensures { result ≡ list_all is_name_char bytes.now }
{
    bytes.iter().all(|c| is_name_char(*c))
}

fn is_name_char(c: u8) -> bool
    ensures { result ≡ is_name_char c }
{
    c.is_ascii_alphanumeric() || c == b'.' || c == b'_' || c == b'-'
}
