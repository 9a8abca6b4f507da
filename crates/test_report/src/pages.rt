//! Pages of notebooks.
use crate::reading::{notebook, shown, with_cells};
use nb_model::Notebook;
use report_text::page;
use samples::notebooks::{EMPTY, TWO_SAVED};
use std::test::Fail;

/// The page without what stands before the blocks, which is the same for all.
fn blocks(rt: &HostRuntime, n: &Notebook) -> Result<String, Fail> {
    let text = shown(rt, &page(rt.alloc(), n)?)?;
    let start =
        "<!DOCTYPE html>\n<html><head><meta charset=\"utf-8\"><title>notebook</title></head><body>\n";
    Ok(String::from_str(
        rt.alloc(),
        text.as_str().strip_prefix(start).ok_or("another start")?,
    )?)
}

#[test]
fn a_notebook_without_cells_is_a_page(rt: HostRuntime) -> Result<(), Fail> {
    let n = notebook(&rt, EMPTY)?;
    assert_eq!(rt; blocks(&rt, &n)?.as_str(), "</body></html>\n");
    Ok(())
}

#[test]
fn a_page_shows_sources_and_outputs(rt: HostRuntime) -> Result<(), Fail> {
    let n = notebook(&rt, TWO_SAVED)?;
    assert_eq!(rt;
        blocks(&rt, &n)?.as_str(),
        "<pre class=\"code\">print 1</pre>\n<pre class=\"stream\">1\n</pre>\n<pre class=\"code\">result 2</pre>\n<pre class=\"data\">2</pre>\n</body></html>\n"
    );
    Ok(())
}

#[test]
fn text_is_escaped(rt: HostRuntime) -> Result<(), Fail> {
    let n = with_cells(
        &rt,
        r#"{"cell_type":"code","execution_count":null,"id":"c","metadata":{},"outputs":[{"output_type":"display_data","data":{"text/plain":["<b>","</pre>"]},"metadata":{}},{"output_type":"error","ename":"E","evalue":"v","traceback":["a<","b>"]}],"source":"<b>&\""},{"cell_type":"raw","id":"r","metadata":{},"source":"é's"}"#,
    )?;
    assert_eq!(rt;
        blocks(&rt, &n)?.as_str(),
        "<pre class=\"code\">&lt;b&gt;&amp;&quot;</pre>\n<pre class=\"data\">&lt;b&gt;&lt;/pre&gt;</pre>\n<pre class=\"error\">a&lt;\nb&gt;</pre>\n<pre class=\"raw\">é's</pre>\n</body></html>\n"
    );
    Ok(())
}

#[test]
fn data_without_plain_text_is_named_by_its_least_type(rt: HostRuntime) -> Result<(), Fail> {
    let n = with_cells(
        &rt,
        r#"{"cell_type":"code","execution_count":null,"id":"c","metadata":{},"outputs":[{"output_type":"display_data","data":{"text/html":"<i>","image/png":"x","image/<":"x"},"metadata":{}},{"output_type":"execute_result","execution_count":1,"data":{},"metadata":{}}],"source":[]}"#,
    )?;
    assert_eq!(rt;
        blocks(&rt, &n)?.as_str(),
        "<pre class=\"code\"></pre>\n<pre class=\"data\">[image/&lt;]</pre>\n<pre class=\"data\">[]</pre>\n</body></html>\n"
    );
    Ok(())
}
