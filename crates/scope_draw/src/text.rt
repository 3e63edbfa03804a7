//! Texts that grow.

use std::alloc::AllocError;

/// Appends words.
pub(crate) fn put(text: &mut Vec<u8>, words: &str) -> Result<(), AllocError> {
    text.extend_from_slice(words.as_bytes())
}

/// Appends spaces up to a column.
pub(crate) fn pad_to(line: &mut Vec<u8>, column: usize) -> Result<(), AllocError> {
    for _ in line.len()..column {
        line.push(b' ')?;
    }
    Ok(())
}

/// A line of text that begins with a name.
pub(crate) fn put_name(line: &mut Vec<u8>, name: &str, mark: &str) -> Result<(), AllocError> {
    put(line, "  ")?;
    put(line, name)?;
    put(line, mark)
}
