// Header lists, made of the texts of a row.
use crate::failed::Failed;
use crate::row::Row;
use std::alloc::Global;
use value_headers::HeaderList;
use value_text::{after_byte, before_byte};

/// The list that the texts from an index on make, one after another: `+NAME:VALUE` appends, `=NAME:VALUE` sets
/// and `-NAME` deletes. An empty text changes nothing.
pub fn list_of(alloc: Global, row: &Row, from: usize) -> Result<HeaderList, Failed> {
    let mut list = HeaderList::new(alloc);
    for index in from..row.len() {
        change(&mut list, row.text(index))?;
    }
    Ok(list)
}

// One text that makes a list.
fn change(list: &mut HeaderList, text: &[u8]) -> Result<(), Failed> {
    let [mark, rest @ ..] = text else {
        return Ok(());
    };
    let name = before_byte(rest, b':');
    let value = after_byte(rest, b':');
    match *mark {
        b'+' => list.append(name, value)?,
        b'=' => list.set(name, value)?,
        b'-' => list.delete(name),
        _ => return Err(Failed),
    }
    Ok(())
}
