//! Parameters as Python source, and injected.
use crate::reading::{notebook, pairs};
use jtext::Text;
use nb_params::{InjectFault, inject, python};
use std::test::Fail;

/// A line an object of parameters: the object, and its source, a `|` for each line end.
const SOURCES: &str = r#"{} => # Parameters|
{"s":"a\"b\\\n\t\r\u00e9\u007f\u2028\ud83d\ude00"} => # Parameters|s = "a\"b\\\n\t\r\xe9\x7f\u2028\U0001f600"|
{"s":"a\"b\\\n\u00e9\ud83d\ude00"} => # Parameters|s = "a\"b\\\n\xe9\U0001f600"|
{"l":[1e2,true,null],"d":{"k":false,"l":[]},"e":{}} => # Parameters|l = [1e2, True, None]|d = {"k": False, "l": []}|e = {}|"#;

#[test]
fn values_are_written_as_python(rt: HostRuntime) -> Result<(), Fail> {
    for row in SOURCES.lines() {
        let (object, source) = row.split_once(" => ").ok_or("an arrow is missing")?;
        let text = python(rt.alloc(), &pairs(&rt, object)?)?;
        let found = text.as_str().replace(rt.alloc(), "\n", "|")?;
        assert_eq!(rt; found.as_str(), source, "{row}");
    }
    Ok(())
}

/// The ids of the cells, one after the other, or the language without a translator.
fn injected_ids(rt: &HostRuntime, text: &str, object: &str) -> Result<Text, Fail> {
    let n = notebook(rt, text)?;
    match inject(rt.alloc(), n, &pairs(rt, object)?, false) {
        Ok(n) => {
            let mut ids = String::new(rt.alloc());
            for cell in n.cells.as_slice() {
                ids.push_str(cell.id.as_str())?;
                ids.push_str(" ")?;
            }
            Ok(Text::of_string(ids))
        }
        Err(InjectFault::NoTranslator { language }) => Ok(language),
        Err(InjectFault::NoMemory) => Ok(Text::of(rt.alloc(), "no memory")?),
    }
}

/// A line a notebook: its metadata, the parameters, the ids of its cells afterwards or the language
/// without a translator, and its cells, each an id and a tag.
const INJECTIONS: &str = r#"{} {"a":1} => r a injected-parameters  <= r: a:parameters
{} {} => r a  <= r: a:parameters
{} {"a":1} => injected-parameters r a  <= r: a:
{} {"a":1} => injected-parameters-2 injected-parameters injected-parameters-1  <= q:injected-parameters injected-parameters: injected-parameters-1:
{} {"a":1} => r injected-parameters a  <= r: q:injected-parameters a:parameters
{"kernelspec":{"display_name":"R","name":"ir","language":"R"}} {"a":1} => R <= r:
{"kernelspec":{"display_name":"R","name":"ir","language":"R"}} {} => r  <= r:
{"kernelspec":{"display_name":"Toy","name":"toy"},"language_info":{"name":"toy"}} {"a":1} => injected-parameters r  <= r:
{"kernelspec":{"display_name":"P","name":"p","language":"python"},"language_info":{"name":"R"}} {"a":1} => injected-parameters r  <= r:
{"kernelspec":{"display_name":"P","name":"p","language":1},"language_info":{"name":"R"}} {"a":1} => R <= r:"#;

/// The text of a notebook with these metadata and these cells.
fn text_of(rt: &HostRuntime, metadata: &str, cells: &str) -> Result<String, Fail> {
    let mut text = String::from_str(rt.alloc(), "{\"cells\":[")?;
    let mut first = true;
    for cell in cells.split(' ') {
        let (id, tag) = cell.split_once(':').ok_or("a colon is missing")?;
        if !first {
            text.push_str(",")?;
        }
        first = false;
        text.push_str("{\"cell_type\":\"raw\",\"source\":\"\",\"id\":\"")?;
        text.push_str(id)?;
        text.push_str("\",\"metadata\":{\"tags\":[\"")?;
        text.push_str(tag)?;
        text.push_str("\"]}}")?;
    }
    text.push_str("],\"metadata\":")?;
    text.push_str(metadata)?;
    text.push_str(",\"nbformat\":4,\"nbformat_minor\":5}")?;
    Ok(text)
}

#[test]
fn the_new_cell_stands_where_it_is_tagged_for(rt: HostRuntime) -> Result<(), Fail> {
    for row in INJECTIONS.lines() {
        let (asked, rest) = row.split_once(" => ").ok_or("an arrow is missing")?;
        let (metadata, object) = asked.split_once(' ').ok_or("a space is missing")?;
        let (expected, cells) = rest.split_once(" <= ").ok_or("cells are missing")?;
        let text = text_of(&rt, metadata, cells)?;
        let found = injected_ids(&rt, text.as_str(), object)?;
        assert_eq!(rt; found.as_str(), expected, "{row}");
    }
    Ok(())
}
