//! Texts that grow: bytes, since a name of a dump may be any bytes.

ghost use Rattle.std.specs.Prelude.{◌≡◌, ◌++◌, OnOk};
ghost use Rattle.std.specs.Fmt.{decimal};

use arrayvec::ArrayVec;
use fsb_io::{Line, put_decimal};
use fsb_signal::signal_at;
use scope_pick::{Range, Variable, Written};
use std::alloc::AllocError;

/// Appends words.
pub(crate) fn put(text: &mut Vec<u8>, words: &str) -> Result<(), AllocError>
    ensures { OnOk result (text.new.items ≡ text.old.items ++ words.now) }
{
    text.extend_from_slice(words.as_bytes())
}

/// Appends a number.
pub(crate) fn put_number(text: &mut Vec<u8>, number: u64) -> Result<(), AllocError>
    ensures { OnOk result (text.new.items ≡ text.old.items ++ decimal number) }
{
    let mut line: Line = ArrayVec::new();
    put_decimal(&mut line, number);
    text.extend_from_slice(line.as_slice())
}

/// Appends bytes of a dump. What a terminal would obey is a question mark.
pub(crate) fn put_bytes(text: &mut Vec<u8>, bytes: &[u8]) -> Result<(), AllocError> {
    for byte in bytes {
        text.push(shown_byte(*byte))?;
    }
    Ok(())
}

fn shown_byte(byte: u8) -> u8 {
    if byte < 32 || byte == 127 { 63 } else { byte }
}

/// Appends a number and the word for what is counted, which gets an s unless there is one.
pub(crate) fn put_count(text: &mut Vec<u8>, number: u64, word: &str) -> Result<(), AllocError> {
    put_number(text, number)?;
    put(text, " ")?;
    put(text, word)?;
    put(text, plural(number))
}

fn plural(number: u64) -> &'static str {
    if number == 1 { "" } else { "s" }
}

/// Appends the name of a line of the bus.
pub(crate) fn put_line(text: &mut Vec<u8>, line: u8) -> Result<(), AllocError> {
    if line < 22 {
        put(text, signal_at(line).name)
    } else {
        put_number(text, u64::from(line))
    }
}

/// Appends names of lines, each with a space before it.
pub(crate) fn put_lines(text: &mut Vec<u8>, lines: &[u8]) -> Result<(), AllocError> {
    for line in lines {
        put_next(text, *line)?;
    }
    Ok(())
}

fn put_next(text: &mut Vec<u8>, line: u8) -> Result<(), AllocError> {
    put(text, " ")?;
    put_line(text, line)
}

/// Appends the path of a scope; the root is a dot.
pub(crate) fn put_scope(
    text: &mut Vec<u8>,
    variables: &[Variable],
    scope: usize,
) -> Result<(), AllocError> {
    match variables.get(scope) {
        None => Ok(()),
        Some(variable) => put_bytes(text, path_shown(variable)),
    }
}

fn path_shown(variable: &Variable) -> &[u8] {
    if variable.scope.is_empty() {
        b"."
    } else {
        &variable.scope
    }
}

/// Appends the path of a variable.
pub(crate) fn put_path(text: &mut Vec<u8>, variable: &Variable) -> Result<(), AllocError> {
    put_parent(text, variable)?;
    put_bytes(text, &variable.name)
}

fn put_parent(text: &mut Vec<u8>, variable: &Variable) -> Result<(), AllocError> {
    if variable.scope.is_empty() {
        Ok(())
    } else {
        put_dotted(text, &variable.scope)
    }
}

fn put_dotted(text: &mut Vec<u8>, path: &[u8]) -> Result<(), AllocError> {
    put_bytes(text, path)?;
    put(text, ".")
}

/// Appends a variable without its scope: its name, its range, its type and how many bits it has.
pub(crate) fn put_shape(text: &mut Vec<u8>, variable: &Variable) -> Result<(), AllocError> {
    put_bytes(text, &variable.name)?;
    put_range(text, variable.range)?;
    put(text, " (")?;
    put_bytes(text, &variable.kind)?;
    put(text, ", ")?;
    put_count(text, u64::from(variable.width), "bit")?;
    put(text, ")")
}

/// Appends a variable with its scope, in a line of its own.
pub(crate) fn put_variable(
    text: &mut Vec<u8>,
    variables: &[Variable],
    index: usize,
) -> Result<(), AllocError> {
    match variables.get(index) {
        None => Ok(()),
        Some(variable) => put_row(text, variable),
    }
}

fn put_row(text: &mut Vec<u8>, variable: &Variable) -> Result<(), AllocError> {
    put(text, "  ")?;
    put_parent(text, variable)?;
    put_shape(text, variable)?;
    put(text, "\n")
}

fn put_range(text: &mut Vec<u8>, written: Written) -> Result<(), AllocError> {
    match written {
        Written::Absent => Ok(()),
        Written::Unreadable => put(text, "[?]"),
        Written::Numbers(range) => put_numbers(text, range),
    }
}

fn put_numbers(text: &mut Vec<u8>, range: Range) -> Result<(), AllocError> {
    put(text, "[")?;
    put_number(text, u64::from(range.left))?;
    put_right(text, range)?;
    put(text, "]")
}

fn put_right(text: &mut Vec<u8>, range: Range) -> Result<(), AllocError> {
    if range.left == range.right {
        Ok(())
    } else {
        put_colon(text, range.right)
    }
}

fn put_colon(text: &mut Vec<u8>, right: u32) -> Result<(), AllocError> {
    put(text, ":")?;
    put_number(text, u64::from(right))
}

/// Appends what a list is, its lines and the end; nothing where there is none.
pub(crate) fn put_listed(
    text: &mut Vec<u8>,
    what: &str,
    lines: &[u8],
    end: &str,
) -> Result<(), AllocError> {
    if lines.is_empty() {
        Ok(())
    } else {
        put_list(text, what, lines, end)
    }
}

fn put_list(text: &mut Vec<u8>, what: &str, lines: &[u8], end: &str) -> Result<(), AllocError> {
    put(text, what)?;
    put_lines(text, lines)?;
    put(text, end)
}
