//! A dump that is read in pieces.

use fsb_signal::{Marks, Sample};
use std::alloc::Global;
use vcd_read::{Reader, VcdStop};

/// How many bytes the pieces have, in which each dump is read again.
const SIZES: [usize; 4] = [1, 7, 113, 65_536];

/// What a text says that is fed in pieces of so many bytes, but at least one: its marks, if they
/// are told, and its samples.
fn read_in_pieces(
    alloc: Global,
    bytes: &[u8],
    size: usize,
) -> Result<(Option<Marks>, Vec<Sample>), VcdStop> {
    let mut reader = Reader::new(alloc)?;
    let mut samples = Vec::new(alloc);
    let mut at = 0;
    while at < bytes.len() {
        let end = bytes.len().min(at.saturating_add(size.max(1)));
        reader.feed(&bytes[at..end], &mut samples)?;
        at = end;
    }
    reader.finish(&mut samples)?;
    Ok((reader.marks(), samples))
}

/// Whether a text says the same in pieces as it said whole.
pub(crate) fn says_the_same(alloc: Global, bytes: &[u8], marks: Marks, samples: &[Sample]) -> bool {
    SIZES.iter().all(|size| match read_in_pieces(alloc, bytes, *size) {
        Ok((told, given)) => told == Some(marks) && given.as_slice() == samples,
        Err(_) => false,
    })
}
