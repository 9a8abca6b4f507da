ghost use Rattle.std.specs.Prelude.{◌≡◌, []};

use jtext::{Bytes, List, NoMemory, NumFault, NumText, Text, Texts};
use std::alloc::Global;
use std::process::Abort;
use std::test::Fail;

/// Changes an empty list item by item.
fn change(rt: &impl Abort, list: &mut List<u32>) -> Result<(), Fail>
    requires { list.old ≡ [] }
{
    list.push(10)?;
    list.push(30)?;
    list.insert(1, 20)?;
    list.insert(3, 40)?;
    assert_eq!(rt; list.as_slice(), [10, 20, 30, 40].as_slice());
    assert_eq!(rt; list.len(), 4);
    assert_eq!(rt; list.put(0, 11), 10);
    assert_eq!(rt; list.take(2), 30);
    assert_eq!(rt; list.as_slice(), [11, 20, 40].as_slice());
    assert!(rt; matches!(list.get(2), Some(40)));
    assert!(rt; list.get(3).is_none());
    Ok(())
}

#[test]
fn a_list_is_changed_item_by_item(rt: HostRuntime) -> Result<(), Fail> {
    let mut list: List<u32> = List::new(rt.alloc());
    let end = change(&rt, &mut list);
    let items = list.into_vec();
    end?;
    assert_eq!(rt; items.as_slice(), [11, 20, 40].as_slice());
    Ok(())
}

/// Whether bytes hold what they are made of, and then what is added.
fn has_added(alloc: Global) -> Result<bool, NoMemory> {
    let mut bytes = Bytes::of(alloc, b"ab")?;
    bytes.add(b"c")?;
    Ok(bytes.bytes() == b"abc".as_slice())
}

/// Whether a text holds what it is made of, and goes into a list.
fn is_text_pushed(alloc: Global) -> Result<bool, NoMemory> {
    let text = Text::of(alloc, "g\u{e9}")?;
    let holds = text.as_str() == "g\u{e9}" && text.bytes() == b"g\xc3\xa9".as_slice();
    let mut texts = Texts::new(alloc);
    texts.push(text)?;
    Ok(holds && texts.len() == 1)
}

fn is_new_empty(alloc: Global) -> bool {
    Text::new(alloc).as_str() == ""
}

/// Whether a text holds the string that it takes as it is.
fn is_string_held(alloc: Global) -> Result<bool, NoMemory> {
    let owned = Text::of_string(String::from_str(alloc, "x")?);
    Ok(owned.as_str() == "x")
}

/// Whether a list holds the items that it takes as they are.
fn is_vec_held(alloc: Global) -> Result<bool, NoMemory> {
    let list = List::of_vec([1u8, 2].to_vec(alloc)?);
    Ok(list.bytes() == b"\x01\x02".as_slice())
}

#[test]
fn bytes_and_texts_hold_what_was_given(rt: HostRuntime) -> Result<(), Fail> {
    let alloc = rt.alloc();
    assert!(rt; has_added(alloc)?);
    assert!(rt; is_text_pushed(alloc)?);
    assert!(rt; is_new_empty(alloc));
    assert!(rt; is_string_held(alloc)?);
    assert!(rt; is_vec_held(alloc)?);
    Ok(())
}

#[test]
fn a_number_text_is_in_the_grammar(rt: HostRuntime) -> Result<(), Fail> {
    let alloc = rt.alloc();
    for text in [
        "0",
        "-0",
        "10",
        "-1.50",
        "1e2",
        "0E+00",
        "9.9e-9",
        "123456789012345678901234567890",
    ] {
        assert_eq!(rt; NumText::of(alloc, text)?.as_str(), text);
    }
    for text in [
        "", "-", "01", "007", "+1", ".5", "1.", "1e", "1e+", "0x1", "1 ", " 1", "NaN", "Infinity",
        "1.e2",
    ] {
        assert!(rt;
            matches!(NumText::of(alloc, text), Err(NumFault::NotNumber)),
            "{text}"
        );
    }
    Ok(())
}
