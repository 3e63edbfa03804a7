//! Lines of the bus by their names.

use fsb_signal::signal_at;
use scope_pick::is_listed;
use serde_json::Value;
use std::alloc::{AllocError, Global};

/// The name of a line, as in a dump.
pub(crate) fn line_name(line: u8) -> &'static str {
    if line < 22 { signal_at(line).name } else { "" }
}

/// The names of these lines, in order.
pub(crate) fn lines_value(alloc: Global, lines: &[u8]) -> Result<Value, AllocError> {
    lines_beside(alloc, lines, &[])
}

/// The names of those lines that are not among the others, in order.
pub(crate) fn lines_beside(
    alloc: Global,
    lines: &[u8],
    others: &[u8],
) -> Result<Value, AllocError> {
    let mut list = Vec::new(alloc);
    for line in lines {
        if !is_listed(others, *line) {
            list.push(Value::try_from_str(alloc, line_name(*line))?)?;
        }
    }
    Ok(Value::Array(list))
}
