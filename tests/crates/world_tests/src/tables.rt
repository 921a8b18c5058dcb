//! Tables: rows of one form, a line for each, with `|` between their cells.
//!
//! The form is a text in which `$0$` stands for the first cell of a line, `$1$` for the second, and
//! so on.
use super::rows::named_row_holds;
use super::schedule::number;
use rbd_kinds::NoMemory;
use std::alloc::Global;
use std::process::Abort;

/// A cell of a line, by its number.
fn cell(line: &str, wanted: u32) -> &str {
    let mut left = wanted;
    for cell in line.split('|') {
        if left == 0 {
            return cell;
        }
        left -= 1;
    }
    ""
}

/// A form with the cells of a line.
fn filled(alloc: Global, form: &str, line: &str) -> Result<String, NoMemory> {
    let mut text = String::new(alloc);
    for (place, piece) in form.split('$').enumerate() {
        if place % 2 == 0 {
            text.push_str(piece)?;
        } else {
            text.push_str(cell(line, number(piece)))?;
        }
    }
    Ok(text)
}

fn line_holds(
    rt: &impl Abort,
    alloc: Global,
    script: &str,
    form: &str,
    line: &str,
) -> Result<(), NoMemory> {
    let script = filled(alloc, script, line)?;
    let row = filled(alloc, form, line)?;
    named_row_holds(rt, alloc, script.as_str(), line, row.as_str());
    Ok(())
}

/// New worlds go by the rows of a table, one by each. Script and row both have a form.
pub fn table_holds(rt: &impl Abort, alloc: Global, script: &str, form: &str, table: &str) {
    for line in table.split('\n') {
        assert!(rt; line_holds(rt, alloc, script, form, line).is_ok(), "{line}");
    }
}
