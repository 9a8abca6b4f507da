//! Trees with what `of_json` answers of them, worked out by hand from the schema and the order of faults.
use jtext::read;
use nb_model::{NbFault, is_valid, of_json};
use std::test::Fail;

/// A line a tree: the answer, and the text.
const NOTEBOOKS: &str = r#"ok {"cells":[],"metadata":{},"nbformat":4,"nbformat_minor":5}
ok {"nbformat_minor":5,"nbformat":4,"metadata":{"x":[1]},"cells":[]}
ok {"cells":[],"metadata":{"kernelspec":{"name":"toy","display_name":"Toy","language":1},"language_info":{"name":"toy","x":1}},"nbformat":4,"nbformat_minor":5}
shape: []
shape: 1
version {}
version {"cells":[],"metadata":{},"nbformat":4}
version {"cells":[],"metadata":{},"nbformat_minor":5}
version {"cells":[],"metadata":{},"nbformat":4.0,"nbformat_minor":5}
version {"cells":[],"metadata":{},"nbformat":"4","nbformat_minor":5}
version {"cells":[],"metadata":{},"nbformat":4,"nbformat_minor":4}
version {"cells":[],"metadata":{},"nbformat":4,"nbformat_minor":6}
version {"cells":[],"metadata":{},"nbformat":3,"nbformat_minor":5}
version {"cells":{},"x":1,"nbformat":4,"nbformat_minor":50}
shape: {"cells":[],"nbformat":4,"nbformat_minor":5}
shape: {"metadata":{},"nbformat":4,"nbformat_minor":5}
shape: {"x":1,"metadata":{},"nbformat":4,"nbformat_minor":5}
shape:/x {"cells":[],"metadata":[],"x":1,"nbformat":4,"y":2,"nbformat_minor":5}
shape:/a~1b~0c {"cells":[],"metadata":{},"nbformat":4,"nbformat_minor":5,"a/b~c":1}
shape:/~01 {"~1":1,"cells":[],"metadata":{},"nbformat":4,"nbformat_minor":5}
shape:/ {"":1,"cells":[],"metadata":{},"nbformat":4,"nbformat_minor":5}
shape:/metadata {"cells":{},"metadata":[],"nbformat":4,"nbformat_minor":5}
shape:/metadata/kernelspec {"cells":[],"metadata":{"language_info":1,"kernelspec":[]},"nbformat":4,"nbformat_minor":5}
shape:/metadata/kernelspec {"cells":[],"metadata":{"kernelspec":{"name":1}},"nbformat":4,"nbformat_minor":5}
shape:/metadata/kernelspec {"cells":[],"metadata":{"kernelspec":{"display_name":1}},"nbformat":4,"nbformat_minor":5}
shape:/metadata/kernelspec/name {"cells":[],"metadata":{"kernelspec":{"display_name":1,"name":2}},"nbformat":4,"nbformat_minor":5}
shape:/metadata/kernelspec/display_name {"cells":[],"metadata":{"kernelspec":{"display_name":null,"name":"toy"}},"nbformat":4,"nbformat_minor":5}
shape:/metadata/language_info {"cells":[],"metadata":{"language_info":{}},"nbformat":4,"nbformat_minor":5}
shape:/metadata/language_info {"cells":[],"metadata":{"language_info":null},"nbformat":4,"nbformat_minor":5}
shape:/metadata/language_info/name {"cells":1,"metadata":{"language_info":{"name":[]}},"nbformat":4,"nbformat_minor":5}
shape:/cells {"cells":{},"metadata":{},"nbformat":4,"nbformat_minor":5}
shape:/cells {"cells":null,"metadata":{},"nbformat":4,"nbformat_minor":5}"#;

/// The same, the text being the cells of a notebook.
const CELLS: &str = r#"ok {"cell_type":"markdown","id":"a","metadata":{},"source":"hi"}
ok {"source":["a","b"],"metadata":{"tags":["x"],"y":1},"id":"A-_9","cell_type":"raw"}
ok {"cell_type":"raw","id":"abcdefghijklmnopqrstuvwxyzABCDEFGHIJKLMNOPQRSTUVWXYZ0123456789-_","metadata":{},"source":""}
ok {"cell_type":"raw","id":"a","metadata":{},"source":"","attachments":{"p.png":{"image/png":"x"}}}
ok {"cell_type":"code","id":"a","metadata":{},"source":"","outputs":[],"execution_count":null}
ok {"cell_type":"code","id":"a","metadata":{},"source":"","outputs":[],"execution_count":0},{"cell_type":"raw","id":"b","metadata":{},"source":""}
shape:/cells/0 1
shape:/cells/0 {}
shape:/cells/0 {"x":1}
shape:/cells/0/cell_type {"cell_type":"heading","x":1}
shape:/cells/0/cell_type {"cell_type":1}
shape:/cells/0 {"cell_type":"raw","id":1,"metadata":{},"x":1}
shape:/cells/0 {"cell_type":"code","id":"a","metadata":{},"source":"","execution_count":1}
shape:/cells/0 {"cell_type":"code","id":"a","metadata":{},"source":"","outputs":[]}
shape:/cells/0/outputs {"cell_type":"raw","id":1,"metadata":{},"source":"","outputs":[],"execution_count":1}
shape:/cells/0/attachments {"cell_type":"code","id":"a","metadata":{},"source":"","outputs":[],"execution_count":1,"attachments":{}}
shape:/cells/0/id {"cell_type":"raw","id":1,"metadata":1,"source":1}
shape:/cells/0/id {"cell_type":"raw","id":"","metadata":{},"source":""}
shape:/cells/0/id {"cell_type":"raw","id":"a b","metadata":{},"source":""}
shape:/cells/0/id {"cell_type":"raw","id":"é","metadata":{},"source":""}
shape:/cells/0/id {"cell_type":"raw","id":"abcdefghijklmnopqrstuvwxyzABCDEFGHIJKLMNOPQRSTUVWXYZ0123456789-_x","metadata":{},"source":""}
shape:/cells/0/metadata {"cell_type":"raw","id":"a","source":1,"metadata":[]}
shape:/cells/0/metadata/tags {"cell_type":"raw","id":"a","metadata":{"tags":"x"},"source":""}
shape:/cells/0/metadata/tags/1 {"cell_type":"raw","id":"a","metadata":{"tags":["x",1,2]},"source":""}
shape:/cells/0/source {"cell_type":"raw","id":"a","attachments":1,"metadata":{},"source":{}}
shape:/cells/0/source/1 {"cell_type":"raw","id":"a","metadata":{},"source":["a",1]}
shape:/cells/0/attachments {"cell_type":"markdown","id":"a","metadata":{},"source":"","attachments":[]}
shape:/cells/0/attachments/p.png {"cell_type":"markdown","id":"a","metadata":{},"source":"","attachments":{"o":{},"p.png":1}}
shape:/cells/0/attachments/p.png/image~1png {"cell_type":"raw","id":"a","metadata":{},"source":"","attachments":{"p.png":{"image/png":1}}}
shape:/cells/0/attachments/p.png/image~1png/0 {"cell_type":"raw","id":"a","metadata":{},"source":"","attachments":{"p.png":{"image/png":[1]}}}
shape:/cells/0/execution_count {"cell_type":"code","id":"a","metadata":{},"source":"","outputs":{},"execution_count":1.0}
shape:/cells/0/execution_count {"cell_type":"code","id":"a","metadata":{},"source":"","outputs":[],"execution_count":-1}
shape:/cells/0/execution_count {"cell_type":"code","id":"a","metadata":{},"source":"","outputs":[],"execution_count":1e1}
shape:/cells/0/execution_count {"cell_type":"code","id":"a","metadata":{},"source":"","outputs":[],"execution_count":"1"}
shape:/cells/0/outputs {"cell_type":"code","id":"a","metadata":{},"source":"","outputs":{},"execution_count":1}
shape:/cells/1 {"cell_type":"raw","id":"a","metadata":{},"source":""},{"cell_type":"raw","id":"b","metadata":{}},1
shape:/cells/2 {"cell_type":"raw","id":"a","metadata":{},"source":""},{"cell_type":"raw","id":"a","metadata":{},"source":""},1
same:a {"cell_type":"raw","id":"a","metadata":{},"source":""},{"cell_type":"markdown","id":"a","metadata":{},"source":""}
same:b {"cell_type":"raw","id":"a","metadata":{},"source":""},{"cell_type":"raw","id":"b","metadata":{},"source":""},{"cell_type":"raw","id":"b","metadata":{},"source":""},{"cell_type":"raw","id":"a","metadata":{},"source":""}"#;

/// The same, the text being the outputs of a code cell.
const OUTPUTS: &str =
    r#"ok {"output_type":"stream","name":"stdout","text":["a"]},{"output_type":"stream","name":"","text":""}
ok {"output_type":"display_data","data":{"image/png":"iVBO","application/json":{"a":[1]},"application/vnd.x+json":1},"metadata":{"x":1}}
ok {"output_type":"execute_result","data":{},"metadata":{},"execution_count":7}
ok {"output_type":"error","ename":"E","evalue":"","traceback":["a"]}
shape:/cells/0/outputs/0 "x"
shape:/cells/0/outputs/0 {"x":1}
shape:/cells/0/outputs/0/output_type {"output_type":"pyout","data":{},"metadata":{}}
shape:/cells/0/outputs/0/output_type {"output_type":null}
shape:/cells/0/outputs/0 {"output_type":"stream","name":1}
shape:/cells/0/outputs/0/x {"output_type":"stream","name":1,"text":"a","x":1}
shape:/cells/0/outputs/0/name {"output_type":"stream","text":1,"name":1}
shape:/cells/0/outputs/0/text {"output_type":"stream","name":"stdout","text":null}
shape:/cells/0/outputs/0/text/0 {"output_type":"stream","name":"stdout","text":[1]}
shape:/cells/0/outputs/0/data {"output_type":"display_data","data":[],"metadata":[]}
shape:/cells/0/outputs/0/data/text~1plain {"output_type":"display_data","data":{"text/plain":1},"metadata":[]}
shape:/cells/0/outputs/0/data/text~1plain/1 {"output_type":"display_data","data":{"text/plain":["a",1]},"metadata":{}}
shape:/cells/0/outputs/0/data/json {"output_type":"display_data","data":{"json":1},"metadata":{}}
shape:/cells/0/outputs/0/metadata {"output_type":"display_data","data":{},"metadata":[]}
shape:/cells/0/outputs/0/execution_count {"output_type":"display_data","data":{},"metadata":{},"execution_count":1}
shape:/cells/0/outputs/0 {"output_type":"execute_result","data":{},"metadata":{}}
shape:/cells/0/outputs/0/metadata {"output_type":"execute_result","data":{},"metadata":1,"execution_count":-1}
shape:/cells/0/outputs/0/execution_count {"output_type":"execute_result","data":{},"metadata":{},"execution_count":-1}
shape:/cells/0/outputs/0/ename {"output_type":"error","ename":1,"evalue":1,"traceback":1}
shape:/cells/0/outputs/0/evalue {"output_type":"error","ename":"E","evalue":1,"traceback":1}
shape:/cells/0/outputs/0/traceback {"output_type":"error","ename":"E","evalue":"","traceback":"x"}
shape:/cells/0/outputs/0/traceback/2 {"output_type":"error","ename":"E","evalue":"","traceback":["a","b",1]}
shape:/cells/0/outputs/1/name {"output_type":"stream","name":"stdout","text":"a"},{"output_type":"stream","name":[],"text":"a"}"#;

/// What is answered of that text.
fn answer(rt: &HostRuntime, text: &str) -> Result<String, Fail> {
    let tree = read(rt.alloc(), text.as_bytes(), 128)?;
    let valid = is_valid(&tree);
    match of_json(rt.alloc(), tree) {
        Ok(_) => Ok(format!(in rt.alloc(); "{}", if valid { "ok" } else { "not valid" })?),
        Err(NbFault::Version) => Ok(format!(in rt.alloc(); "version")?),
        Err(NbFault::Shape { pointer }) => Ok(format!(in rt.alloc();
            "shape:{}",
            pointer.as_str()
        )?),
        Err(NbFault::SameId { id }) => Ok(format!(in rt.alloc(); "same:{}", id.as_str())?),
        Err(NbFault::NoMemory) => Ok(format!(in rt.alloc(); "no memory")?),
    }
}

/// The first line with another answer, its text standing between these two, or the empty text.
fn wrong<'a>(rt: &HostRuntime, rows: &'a str, start: &str, end: &str) -> Result<&'a str, Fail> {
    for row in rows.lines() {
        let (expected, text) = row.split_once(' ').ok_or("an answer is missing")?;
        let text = format!(in rt.alloc(); "{start}{text}{end}")?;
        if answer(rt, text.as_str())?.as_str() != expected {
            return Ok(row);
        }
    }
    Ok("")
}

#[test]
fn notebooks_are_read_or_refused_at_the_first_fault(rt: HostRuntime) -> Result<(), Fail> {
    assert_eq!(rt; wrong(&rt, NOTEBOOKS, "", "")?, "");
    Ok(())
}

#[test]
fn cells_are_read_or_refused_at_the_first_fault(rt: HostRuntime) -> Result<(), Fail> {
    let end = r#"],"metadata":{},"nbformat":4,"nbformat_minor":5}"#;
    assert_eq!(rt; wrong(&rt, CELLS, r#"{"cells":["#, end)?, "");
    Ok(())
}

#[test]
fn outputs_are_read_or_refused_at_the_first_fault(rt: HostRuntime) -> Result<(), Fail> {
    let start =
        r#"{"cells":[{"cell_type":"code","id":"a","metadata":{},"source":"","execution_count":1,"outputs":["#;
    let end = r#"]}],"metadata":{},"nbformat":4,"nbformat_minor":5}"#;
    assert_eq!(rt; wrong(&rt, OUTPUTS, start, end)?, "");
    Ok(())
}

/// A line a fault: the text that has it, and how it is shown.
const SHOWN: &str = r#"{} | not nbformat 4.5: version
[] | not nbformat 4.5: shape at 
{"a/b":1,"cells":[],"metadata":{},"nbformat":4,"nbformat_minor":5} | not nbformat 4.5: shape at /a~1b"#;

#[test]
fn a_fault_is_shown_with_its_place(rt: HostRuntime) -> Result<(), Fail> {
    for row in SHOWN.lines() {
        let (text, shown) = row.split_once(" | ").ok_or("a bar is missing")?;
        match of_json(rt.alloc(), read(rt.alloc(), text.as_bytes(), 128)?) {
            Ok(_) => assert_eq!(rt; row, "a fault"),
            Err(fault) => assert_eq!(rt; format!(in rt.alloc(); "{fault}")?.as_str(), shown),
        }
    }
    Ok(())
}
