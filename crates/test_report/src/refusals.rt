//! Where texts are no scripts.
use report_text::{ScriptFault, unscript};
use std::test::Fail;

/// The line where the bytes are refused, and `None` where they are a script.
fn refused(rt: &HostRuntime, bytes: &[u8]) -> Result<Option<u64>, Fail> {
    match unscript(rt.alloc(), bytes) {
        Ok(_) => Ok(None),
        Err(ScriptFault::Line { number }) => Ok(Some(number)),
        Err(fault) => Err(Fail::from(fault)),
    }
}

#[test]
fn the_first_wrong_line_is_named(rt: HostRuntime) -> Result<(), Fail> {
    assert_eq!(rt;
        refused(&rt, b"# nbrun script\nx\n")?,
        Some(1),
        "no empty line"
    );
    assert_eq!(rt;
        refused(&rt, b"# nbrun scr")?,
        Some(0),
        "another first line"
    );
    assert_eq!(rt;
        refused(&rt, b"\n# nbrun script\n")?,
        Some(0),
        "a line before it"
    );
    assert_eq!(rt;
        refused(&rt, b"# nbrun script\n\n\n# %%\n")?,
        Some(2),
        "two empty lines"
    );
    assert_eq!(rt;
        refused(&rt, b"# nbrun script\n\n# %%x\n")?,
        Some(2),
        "no marker"
    );
    assert_eq!(rt;
        refused(&rt, b"# nbrun script\n\n# %% [raw]\n#a\n")?,
        Some(3),
        "no space"
    );
    assert_eq!(rt;
        refused(&rt, b"# nbrun script\n\n# %% [raw]\n# a\n\n# b\n")?,
        Some(5),
        "text"
    );
    assert_eq!(rt;
        refused(&rt, b"# nbrun script\r\n")?,
        Some(0),
        "a carriage return"
    );
    Ok(())
}

#[test]
fn a_text_that_ends_too_early_is_refused_at_its_end(rt: HostRuntime) -> Result<(), Fail> {
    assert_eq!(rt; refused(&rt, b"")?, Some(0));
    assert_eq!(rt; refused(&rt, b"# nbrun script\n\n")?, Some(2));
    assert_eq!(rt; refused(&rt, b"# nbrun script\n\n# %% [raw]\n\n")?, Some(4));
    assert_eq!(rt;
        refused(&rt, b"# nbrun script\n\n# %%\n\n")?,
        None,
        "of code"
    );
    Ok(())
}

#[test]
fn bytes_that_are_no_text_are_refused_at_the_start(rt: HostRuntime) -> Result<(), Fail> {
    assert_eq!(rt; refused(&rt, b"# nbrun script\n\n# %%\n\xff\n")?, Some(0));
    Ok(())
}
