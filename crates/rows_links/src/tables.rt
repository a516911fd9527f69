// Rows of tables, and of the answers by them.
use rows_shell::{Failed, Row, Shown};
use server_tables::{AllowTable, answer, read_table};
use std::alloc::Global;
use value_bytes::BytesList;

/// The table that a text is.
pub fn table_in(alloc: Global, text: &[u8]) -> Result<AllowTable, Failed> {
    match read_table(alloc, text)? {
        Ok(table) => Ok(table),
        Err(_) => Err(Failed),
    }
}

// Adds texts with a comma between, or `()` where there are none.
fn add_list(texts: &BytesList, shown: &mut Shown) {
    if texts.is_empty() {
        shown.add(b"()");
    }
    for index in 0..texts.len() {
        if index > 0 {
            shown.add(b",");
        }
        shown.add(texts.at(index));
    }
}

// Adds a row of a table, with a bar after it.
fn add_row(row: &server_tables::Row, shown: &mut Shown) {
    shown.add(b" ");
    shown.add(row.origin.as_slice());
    shown.add(b" ");
    add_list(&row.methods, shown);
    shown.add(b" ");
    add_list(&row.names, shown);
    shown.add(if row.credentials {
        b" include|"
    } else {
        b" other|"
    });
}

/// Shows the rows of the table that a row's second text is, or the number of its first line that is none.
pub fn show_table(alloc: Global, row: &Row, shown: &mut Shown) -> Result<(), Failed> {
    match read_table(alloc, row.text(1))? {
        Ok(table) => {
            shown.add(b"Ok");
            for row in table.rows() {
                add_row(row, shown);
            }
        }
        Err(bad) => shown.add_count(b"BadLine ", bad.line as usize),
    }
    Ok(())
}

/// Shows the bytes that the request in a row's third text is answered with, by the table in its second.
pub fn show_answer(alloc: Global, row: &Row, shown: &mut Shown) -> Result<(), Failed> {
    let table = table_in(alloc, row.text(1))?;
    shown.add_escaped(answer(alloc, &table, row.text(2))?.as_slice());
    Ok(())
}
