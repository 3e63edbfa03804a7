ghost use Rattle.std.specs.Prelude.{◌≡◌, ◌≤◌, ◌+◌, ◌++◌, [], length, vec_capacity, IfOk};

use std::alloc::{AllocError, Global};

/// A token of more bytes is too long.
pub(crate) const LONGEST: usize = 70_000;

/// A run of bytes. It has room for one byte more than a token may have, so that only its making
/// takes memory.
#[derive(Drop)]
pub(crate) struct Run {
    pub(crate) bytes: Vec<u8>,
    ghost room: { 70001 ≤ vec_capacity bytes },
}

impl Run {
    /// No byte.
    pub(crate) fn new(alloc: Global) -> Result<Self, AllocError>
        ensures { IfOk result (λ run. run.bytes.items ≡ []) }
    {
        let bytes = Vec::with_capacity(alloc, LONGEST + 1)?;
        Ok(Run { bytes })
    }

    /// How many bytes there are.
    pub(crate) fn len(&self) -> usize
        ensures { result ≡ length self.now.bytes.items }
    {
        self.bytes.as_slice().len()
    }

    pub(crate) fn as_slice(&self) -> &[u8]
        ensures { result.now ≡ self.now.bytes.items }
    {
        self.bytes.as_slice()
    }

    /// Appends bytes, for which there is room.
    pub(crate) fn append(&mut self, more: &[u8])
        requires { length self.old.bytes.items + length more.now ≤ 70001 }
        ensures { self.new.bytes.items ≡ self.old.bytes.items ++ more.now }
    {
        self.bytes.extend_from_slice(more).unwrap();
    }

    pub(crate) fn clear(&mut self)
        ensures { self.new.bytes.items ≡ [] }
    {
        self.bytes.clear();
    }
}
