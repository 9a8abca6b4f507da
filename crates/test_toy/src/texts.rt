//! What texts do, worked out by hand from the table of the language.
use crate::shown::odd_rows;
use std::test::Fail;

/// A text a row with its effects, where no variable is set. A tilde stands for a line end.
const TEXTS: &str = "\
\x20=> \n\
# print 1 => \n\
# => \n\
\x20 \t => \n\
~~ => \n\
a = 1 => \n\
print 1 => [stdout|1~]\n\
print -1.50e+3 => [stdout|-1.50e+3~]\n\
print True => [stdout|True~]\n\
print False => [stdout|False~]\n\
print None => [stdout|None~]\n\
print \"a b\" => [stdout|a b~]\n\
print [1, b => [stdout|[1, b~]\n\
print {} => [stdout|{}~]\n\
err 2 => [stderr|2~]\n\
show d 1 => [show d|1]\n\
show = 1 => \n\
show d-\u{e9} \"x y\" => [show d-\u{e9}|x y]\n\
update d 1 => [update d|1]\n\
clear => [clear]\n\
clearwait => [clear later]\n\
result 3 => [result|3]\n\
raise KeyError \"no key\" => [error KeyError|no key]\n\
sleep 0 => [sleep 0]\n\
sleep 007 => [sleep 7]\n\
sleep 999999999 => [sleep 999999999]\n\
sleep = 4 => \n\
die => [die]\n\
die = 4 => \n\
print b => [error NameError|b]\n\
a = b => [error NameError|b]\n\
show d _1 => [error NameError|_1]\n\
raise E true => [error NameError|true]\n\
result print => [error NameError|print]\n\
result \"\u{e9}\u{1f600}\t\" => [result|\u{e9}\u{1f600}\t]\n\
a = 1~print a~print b => [stdout|1~][error NameError|b]\n\
print 1~~# 2~result 3~ => [stdout|1~][result|3]\n\
a = 1~a = 2~print a => [stdout|2~]\n\
a = \"x\"~b = a~a = 2~show d b => [show d|x]\n\
a = \"b c\"~print a => [stdout|b c~]\n\
True = 1~print True => [stdout|True~]\n\
print 1~sleep 5~print 2 => [stdout|1~][sleep 5][stdout|2~]\n\
raise E 1~print 2 => [error E|1]\n\
print 1~die~print 2 => [stdout|1~][die]\n\
x~print 2 => [error SyntaxError|x]\n\
print x~print 2 => [error NameError|x]\n\
a = x~a = 1 => [error NameError|x]";

#[test]
fn each_text_does_what_the_table_says(rt: HostRuntime) -> Result<(), Fail> {
    let odd = odd_rows(rt.alloc(), TEXTS, false)?;
    assert!(rt; odd.as_str() == "", "{odd}");
    Ok(())
}

/// Texts that are run one after the other.
const SESSION: &str = "\
a = 1 => \n\
print a~b = a => [stdout|1~]\n\
a = 2~print c~a = 3 => [error NameError|c]\n\
print a => [stdout|2~]\n\
die~b = 4 => [die]\n\
print b => [stdout|1~]";

#[test]
fn variables_stand_from_one_text_to_the_next(rt: HostRuntime) -> Result<(), Fail> {
    let odd = odd_rows(rt.alloc(), SESSION, true)?;
    assert!(rt; odd.as_str() == "", "{odd}");
    Ok(())
}
