//! The bytes of a header, up to its end.
ghost use Rattle.std.specs.Prelude.{◌≡◌, ◌<◌, ◌+◌, ◌^◌, ◌++◌, ◌∷◌, ℕ, List, [], length};
ghost use Rattle.scope_watch.specs.Heading.{Opens, Fed, FedByte};

use vcd_header::{HeaderReader, HeaderStop};

/// The next bytes, up to the end of the header: how many of them it has, where it is over.
pub(crate) fn feed(reader: &mut HeaderReader, piece: &[u8]) -> Result<Option<usize>, HeaderStop>
    requires { (fed : List ℕ) × Opens reader.old fed × (length fed + length piece.now + 1 < 2 ^ 64) }
    ensures { (fed : List ℕ) → Opens reader.old fed → Fed result reader.new fed piece.now }
{
    for at in 0..piece.len() {
        if feed_byte(reader, piece[at])? {
            return Ok(Some(at + 1));
        }
    }
    Ok(None)
}

/// The next byte: whether the header is over with it.
fn feed_byte(reader: &mut HeaderReader, byte: u8) -> Result<bool, HeaderStop>
    requires { (fed : List ℕ) × Opens reader.old fed × (length fed + 2 < 2 ^ 64) }
    ensures { (fed : List ℕ) → Opens reader.old fed → FedByte result reader.new (fed ++ byte ∷ []) }
{
    let _used = reader.feed(&[byte])?;
    Ok(reader.is_over())
}
