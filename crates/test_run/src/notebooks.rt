//! The notebooks of the tests, and what is to come out.
use jtext::NoMemory;
use samples::notebooks::TWO_SAVED;
use std::alloc::Global;

/// The outputs of the first cell of `TWO`.
pub(crate) const ONE: &str = r##"[
    {
     "name": "stdout",
     "output_type": "stream",
     "text": [
      "1\n"
     ]
    }
   ]"##;

/// What comes out of `TWO` where the first cell has these outputs.
pub(crate) fn two_with(alloc: Global, outputs: &str) -> Result<String, NoMemory> {
    Ok(TWO_SAVED.replace(alloc, ONE, outputs)?)
}

/// A notebook of these code cells, as JSON strings.
pub(crate) fn notebook(alloc: Global, sources: &[&str]) -> Result<String, NoMemory> {
    notebook_with(alloc, sources, "")
}

/// The same, where each cell has this metadata, the inside of a JSON object.
pub(crate) fn notebook_with(
    alloc: Global,
    sources: &[&str],
    metadata: &str,
) -> Result<String, NoMemory> {
    let mut text = String::from_str(alloc, "{\"cells\":[")?;
    let mut at: u32 = 0;
    for source in sources {
        let comma = if at == 0 { "" } else { "," };
        let cell = format!(in alloc;
            "{comma}{{\"cell_type\":\"code\",\"execution_count\":null,\"id\":\"c{at}\",\"metadata\":{{{metadata}}},\"outputs\":[],\"source\":\"{source}\"}}"
        )?;
        text.push_str(cell.as_str())?;
        at = at.saturating_add(1);
    }
    text.push_str(
        "],\"metadata\":{\"kernelspec\":{\"display_name\":\"Toy\",\"name\":\"toy\"}},\"nbformat\":4,\"nbformat_minor\":5}",
    )?;
    Ok(text)
}
