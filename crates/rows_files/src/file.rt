//! A file, read whole.

use fsb_io::{FileSource, Source, read_all};
use std::rt::Files;

/// How many bytes a file has, at most.
const MOST: usize = 1 << 20;

/// What the file of this name holds; None where it cannot be read, or is too long.
pub fn read_file(rt: &(impl Files + AllocGlobal), name: &str) -> Option<Vec<u8>> {
    if name.len() > 4_096 {
        return None;
    }
    let mut source = FileSource::new(rt);
    source.begin(name).ok()?;
    read_all(rt.alloc(), &mut source, MOST).ok()
}
