// Texts in which something is put in the places of names.

use std::alloc::{AllocError, Global};

/// The text with a number in the places of a name.
pub fn with_number(
    alloc: Global,
    text: &str,
    name: &str,
    number: usize,
) -> Result<String, AllocError> {
    let number = number.to_string(alloc)?;
    text.replace(alloc, name, number.as_str())
}

/// The text with a row's columns in the places of their names. One that the row lacks is empty.
pub fn with_row(alloc: Global, text: &str, names: &str, row: &str) -> Result<String, AllocError> {
    let mut filled = String::from_str(alloc, text)?;
    let mut columns = row.split(" => ");
    for name in names.split(" => ") {
        let column = columns.next().unwrap_or("");
        filled = filled.replace(alloc, name, column)?;
    }
    Ok(filled)
}

/// Whether a row has more columns than a table has names.
pub fn is_too_wide(names: &str, row: &str) -> bool {
    row.split(" => ").count() > names.split(" => ").count()
}
