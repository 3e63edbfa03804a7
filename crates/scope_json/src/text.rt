//! Texts and words as values.

ghost use Rattle.std.specs.Prelude.{◌≡◌, IfOk};
ghost use Rattle.serde_json.specs.View.{view};
ghost use Rattle.scope_json.specs.Texts.{IsTextOf};

use serde_json::Value;
use std::alloc::{AllocError, Global};

/// Bytes of a dump as text: where they are no UTF-8, each that is not plain is a question mark.
pub(crate) fn text_value(alloc: Global, bytes: &[u8]) -> Result<Value, AllocError>
    ensures { IfOk result (λ v. IsTextOf bytes.now (view v)) }
{
    match std::str::from_utf8(bytes) {
        Ok(text) => Value::try_from_str(alloc, text),
        Err(_) => Ok(Value::String(plain_text(alloc, bytes)?)),
    }
}

// The bytes, each that is not plain as a question mark.
fn plain_text(alloc: Global, bytes: &[u8]) -> Result<String, AllocError> {
    let mut text = String::new(alloc);
    for byte in bytes {
        text.push(if *byte < 128 { char::from(*byte) } else { '?' })?;
    }
    Ok(text)
}
