ghost use Rattle.std.specs.Prelude.{◌≡◌, IfOk};
ghost use Rattle.vcd_header.specs.Told.{words_told};

use std::alloc::{AllocError, Global};

/// The same bytes.
pub fn copy_of(alloc: Global, bytes: &[u8]) -> Result<Vec<u8>, AllocError>
    ensures { IfOk result (λ copy. copy.items ≡ bytes.now) }
{
    let mut copy = Vec::new(alloc);
    copy.extend_from_slice(bytes)?;
    Ok(copy)
}

/// The same words.
pub(crate) fn copies_of(alloc: Global, words: &[Vec<u8>]) -> Result<Vec<Vec<u8>>, AllocError>
    ensures { IfOk result (λ copies. words_told copies.items ≡ words_told words.now) }
{
    let mut copies = Vec::new(alloc);
    let mut rest = words;
    while let Some((word, more)) = rest.split_first() {
        let copy = copy_of(alloc, word.as_slice())?;
        copies.push(copy)?;
        rest = more;
    }
    Ok(copies)
}
