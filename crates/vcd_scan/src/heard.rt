//! What is kept of the words of a section behind the header.

ghost use Rattle.std.specs.Prelude.{◌≡◌, ◌++◌, ◌∷◌, [], codes};
ghost use Rattle.vcd_scan.specs.Erased.{heard_in, heard_with, remarks_from, section_from};
ghost use Rattle.vcd_scan.specs.Limits.{begins_with, has_part, is_limit, is_exceeded, first_limit};

use crate::words::is_like_stamp;

/// What the words of a section have among them so far.
#[derive(Clone, Copy, Debug, PartialEq, Eq)]
pub(crate) struct Heard {
    /// One that looks like a time stamp.
    pub(crate) stamp: bool,
    /// One with `limit` in it.
    pub(crate) limit: bool,
    /// One with `exceeded` in it.
    pub(crate) exceeded: bool,
}

impl Heard {
    /// Of no word.
    pub(crate) fn nothing() -> Self
        ensures { result ≡ heard_in [] }
    {
        Heard {
            stamp: false,
            limit: false,
            exceeded: false,
        }
    }

    /// With a further word.
    pub(crate) fn with(self, word: &[u8]) -> Self
        ensures { result ≡ heard_with self word.now }
    {
        Heard {
            stamp: self.stamp || is_like_stamp(word),
            limit: self.limit || has_part(word, b"limit"),
            exceeded: self.exceeded || has_part(word, b"exceeded"),
        }
    }
}

/// Where the first section begins that says that a limit is exceeded, behind one that began at a place.
pub(crate) fn limit_behind(limit: Option<u64>, from: u64, heard: Heard) -> Option<u64>
    ensures { result ≡ first_limit (remarks_from limit ++ section_from from heard ∷ []) }
{
    if limit.is_none() && heard.limit && heard.exceeded {
        Some(from)
    } else {
        limit
    }
}

/// Whether the word has these bytes in it, in letters of either case.
pub fn has_part(word: &[u8], part: &[u8]) -> bool
    ensures { result ≡ has_part word.now part.now }
{
    let mut rest = word;
    while let Some((_, more)) = rest.split_first() {
        if begins_with(rest, part) {
            return true;
        }
        rest = more;
    }
    false
}

/// Whether the bytes begin with these, in letters of either case.
fn begins_with(bytes: &[u8], part: &[u8]) -> bool
    ensures { result ≡ begins_with bytes.now part.now }
{
    part.len() <= bytes.len() && bytes[..part.len()].eq_ignore_ascii_case(part)
}
