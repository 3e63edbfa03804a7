//! Texts that grow.

ghost use Rattle.std.specs.Prelude.{◌≡◌, ◌++◌, OnOk};
ghost use Rattle.std.specs.Fmt.{decimal};

use arrayvec::ArrayVec;
use fsb_io::{Line, put_decimal};
use std::alloc::AllocError;

/// Appends words.
pub(crate) fn put(text: &mut Vec<u8>, words: &str) -> Result<(), AllocError>
    ensures { OnOk result (text.new.items ≡ text.old.items ++ words.now) }
{
    text.extend_from_slice(words.as_bytes())
}

/// Appends a number.
pub(crate) fn put_number(text: &mut Vec<u8>, number: u64) -> Result<(), AllocError>
    ensures { OnOk result (text.new.items ≡ text.old.items ++ decimal number) }
{
    let mut line: Line = ArrayVec::new();
    put_decimal(&mut line, number);
    text.extend_from_slice(line.as_slice())
}
