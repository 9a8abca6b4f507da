use crate::writing::indented_is;
use jtext::{read, write_compact};
use samples::notebooks::{DEFAULTS_SAVED, EMPTY, EMPTY_SAVED, TWO_SAVED};
use std::test::Fail;

/// `DEFAULTS_SAVED` in one line.
const INJECTED: &str =
    r##"{"cells":[{"cell_type":"code","execution_count":null,"id":"a","metadata":{"tags":["parameters"]},"outputs":[],"source":["a = 0"]},{"cell_type":"code","execution_count":null,"id":"injected-parameters","metadata":{"tags":["injected-parameters"]},"outputs":[],"source":["# Parameters\n","a = 1e2\n","b = \"007\"\n","c = True\n"]}],"metadata":{"papermill":{"parameters":{"a":1e2,"b":"007","c":true}}},"nbformat":4,"nbformat_minor":5}"##;

#[test]
fn a_notebook_is_saved_with_each_number_as_it_was_written(rt: HostRuntime) -> Result<(), Fail> {
    for (name, text, saved) in [
        ("an empty notebook in one line", EMPTY, EMPTY_SAVED),
        (
            "an empty notebook as it was saved",
            EMPTY_SAVED,
            EMPTY_SAVED,
        ),
        ("an executed notebook", TWO_SAVED, TWO_SAVED),
        ("injected parameters in one line", INJECTED, DEFAULTS_SAVED),
        (
            "injected parameters as they were saved",
            DEFAULTS_SAVED,
            DEFAULTS_SAVED,
        ),
    ] {
        assert!(rt; indented_is(&rt, text, saved)?, "{name}");
    }
    Ok(())
}

/// The notebook in one line.
fn line_of(rt: &HostRuntime, text: &str) -> Result<String, Fail> {
    let tree = read(rt.alloc(), text.as_bytes(), 128)?;
    let line = write_compact(rt.alloc(), &tree);
    drop(tree);
    let line = line?;
    let text = std::str::from_utf8(line.bytes()).map_err(|_| "no text")?;
    Ok(String::from_str(rt.alloc(), text)?)
}

#[test]
fn a_notebook_in_one_line_is_saved_as_it_was(rt: HostRuntime) -> Result<(), Fail> {
    let line = line_of(&rt, TWO_SAVED)?;
    assert!(rt; indented_is(&rt, line.as_str(), TWO_SAVED)?);
    Ok(())
}
