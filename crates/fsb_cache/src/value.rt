ghost use Rattle.std.specs.Prelude.{◌≡◌, ◌+◌, ◌%◌, ◌≤◌, IsTrue, length};
ghost use Rattle.fsb_access.specs.Access.{is_size};
ghost use Rattle.fsb_cache.specs.LineValues.{line_with_value, value_in_line};

use fsb_access::{LINE_BYTES, value_of};

/// The number that so many bytes at an address spell in the address's line.
pub(crate) fn value_in(bytes: &[u8; 32], addr: u64, size: u8) -> u64
    requires size { IsTrue (is_size size) }
    requires aligned { addr % size ≡ 0 }
    ensures { result ≡ value_in_line bytes.now addr size }
{
    let start = (addr % LINE_BYTES) as usize;
    value_of(&bytes[start..start + usize::from(size)])
}

/// Puts the lowest bytes of a number, so many, at an address into the address's line.
pub(crate) fn put_value_in(bytes: &mut [u8; 32], addr: u64, size: u8, value: u64)
    requires size { IsTrue (is_size size) }
    requires aligned { addr % size ≡ 0 }
    ensures { bytes.new ≡ line_with_value bytes.old addr size value }
{
    let start = (addr % LINE_BYTES) as usize;
    let end = start + usize::from(size);
    bytes[start..end].copy_from_slice(&value.to_le_bytes()[..usize::from(size)]);
}
