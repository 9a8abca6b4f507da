//! Lines that the table of the language doesn't have.
use crate::shown::{effects_of, odd_rows, put_row};
use jtext::NoMemory;
use std::alloc::Global;
use std::test::Fail;
use toy_lang::State;

/// A semicolon parts these lines.
const LINES: &str = "\
1;a;print;print ;print  1;print 1 ; print 1;Print 1;print a b;print 01;print +1;print 1.;print \u{e9};\
print 'a';prints 1;err;err ;err  1;a=1;a =1;a= 1;a  = 1;a =  1;a = ;a =; = 1;1a = 1;\u{e9} = 1;a.b = 1;\
show d;show  1;show d  1;show;update d;update;clear 1;clear ;clearwait 1;clearwait ;result;result ;\
raise E;raise E ;raise 1E 1;raise E-F 1;raise;sleep;sleep ;sleep -1;sleep 1.5;sleep 1 ;sleep 1000000000;\
die 1;die ; # a comment;\u{a0};print 1\r";

/// What is no literal; a semicolon parts them.
const LITERALS: &str =
    r#"";"a;"a\";"a"b";"a" ;"a"b;"\a";"\N";"\/";"\x";"\x4";"\x4g";"\x4A";"\X41";"\u004";"\ud800";"\udfff";"\ud83d\ude00";"\U0000d800";"\U00110000";"\Uffffffff";"\U0001f60""#;

/// The lines behind this verb that have other effects than a syntax error with the line, with these.
fn odd_lines(alloc: Global, verb: &str, rows: &str) -> Result<String, NoMemory> {
    let mut out = String::new(alloc);
    for row in rows.split(';') {
        let line = format!(in alloc; "{verb}{row}")?;
        let expected = format!(in alloc; "[error SyntaxError|{line}]")?;
        let found = effects_of(alloc, &mut State::new(alloc), line.as_str())?;
        if found.as_str() != expected.as_str() {
            put_row(&mut out, line.as_str(), found.as_str())?;
        }
    }
    Ok(out)
}

#[test]
fn a_line_that_the_table_does_not_have_is_a_syntax_error(rt: HostRuntime) -> Result<(), Fail> {
    let odd = odd_lines(rt.alloc(), "", LINES)?;
    assert!(rt; odd.as_str() == "", "{odd}");
    let odd = odd_lines(rt.alloc(), "result ", LITERALS)?;
    assert!(rt; odd.as_str() == "", "{odd}");
    Ok(())
}

/// A literal a row, with the text that it stands for.
const SPELLED: &str = "\
result \"\" => [result|]\n\
result \"a b\" => [result|a b]\n\
result \"a\\\"b\\\\\\n\\xe9\\U0001f600\" => [result|a\"b\\~\u{e9}\u{1f600}]\n\
result \"\\t\\r\" => [result|\t\r]\n\
result \"\\x00\\x7f\" => [result|\0\x7f]\n\
result \"\\x41\\u0042\\U00000043\" => [result|ABC]\n\
result \"\\ud7ff\\ue000\\uffff\" => [result|\u{d7ff}\u{e000}\u{ffff}]\n\
result \"\\U0010ffff\" => [result|\u{10ffff}]\n\
result \"\\xe9f\" => [result|\u{e9}f]";

#[test]
fn a_literal_stands_for_its_text(rt: HostRuntime) -> Result<(), Fail> {
    let odd = odd_rows(rt.alloc(), SPELLED, false)?;
    assert!(rt; odd.as_str() == "", "{odd}");
    Ok(())
}
