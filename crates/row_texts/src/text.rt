//! Texts that grow.

ghost use Rattle.std.specs.Prelude.{◌≡◌, ◌++◌, OnOk, replicate};
ghost use Rattle.std.specs.Fmt.{decimal};
ghost use Rattle.fsb_io.specs.NumberText.{hexadecimal};

use arrayvec::ArrayVec;
use fsb_io::{Line, put_decimal, put_hex};
use std::alloc::AllocError;

/// Appends words.
pub(crate) fn put(text: &mut Vec<u8>, words: &str) -> Result<(), AllocError>
    ensures { OnOk result (text.new.items ≡ text.old.items ++ words.now) }
{
    text.extend_from_slice(words.as_bytes())
}

/// Appends a number.
pub(crate) fn put_number(text: &mut Vec<u8>, number: u64) -> Result<(), AllocError>
    ensures { OnOk result (text.new.items ≡ text.old.items ++ decimal number) }
{
    let mut line: Line = ArrayVec::new();
    put_decimal(&mut line, number);
    text.extend_from_slice(line.as_slice())
}

/// Appends a number in hexadecimal.
pub(crate) fn put_hexadecimal(text: &mut Vec<u8>, number: u64) -> Result<(), AllocError>
    ensures { OnOk result (text.new.items ≡ text.old.items ++ hexadecimal number) }
{
    let mut line: Line = ArrayVec::new();
    put_hex(&mut line, number);
    text.extend_from_slice(line.as_slice())
}

/// Appends so many spaces.
pub(crate) fn put_spaces(text: &mut Vec<u8>, count: usize) -> Result<(), AllocError>
    ensures { OnOk result (text.new.items ≡ text.old.items ++ replicate count 32) }
{
    let mut put = 0;
    while put < count {
        text.push(b' ')?;
        put += 1;
    }
    Ok(())
}
