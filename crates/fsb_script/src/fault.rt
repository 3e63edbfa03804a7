ghost use Rattle.std.specs.Prelude.{◌≡◌};
ghost use Rattle.fsb_script.specs.declared.fault.LineStop.TheVariants as stops;

use fsb_io::Memory;
use std::alloc::{AllocError, AllocFailed};

/// Why a line is no line of a bench file.
#[derive(Clone, Copy, Debug, PartialEq, Eq)]
pub enum Cause {
    /// Line 1 is anything but `p6bench 1`, or the text is empty.
    FirstLine,
    /// A word that may not stand there.
    Word,
    /// A word that is no number of its form.
    Number,
    /// A number outside its bounds, or an item or a hazard line past the 4,096th.
    Range,
    /// An address that is no multiple of its access's size, or a window that isn't of whole lines.
    Align,
    /// An address past the last one.
    Outside,
    /// Two different lines of a locked item have one cache set.
    LockConflict,
    /// A locked item has no access, more than eight, or more than four different lines.
    LockSize,
    /// A word is lacking, or the text ends before the last agent's `end`.
    Missing,
    /// A line has a further word.
    After,
}

/// The first bad line of a text, counted from 1 over all lines, and its cause.
#[derive(Clone, Copy, Debug, PartialEq, Eq)]
pub struct ScriptFault {
    pub line: u32,
    pub cause: Cause,
}

/// Why a text was not read.
#[derive(Clone, Copy, Debug, PartialEq, Eq)]
pub enum ScriptStop {
    Bad(ScriptFault),
    Memory,
}

/// Why a line was not taken.
#[derive(Clone, Copy, Debug, PartialEq, Eq)]
pub(crate) enum LineStop {
    Bad(Cause),
    Memory,
}

impl From<Cause> for LineStop {
    ghost from_gives = { λ cause e. e ≡ stops.Bad cause };

    fn from(cause: Cause) -> LineStop {
        LineStop::Bad(cause)
    }
}

impl From<Memory> for LineStop {
    ghost from_gives = { λ _ e. e ≡ stops.Memory };

    fn from(_memory: Memory) -> LineStop {
        LineStop::Memory
    }
}

impl From<AllocError> for LineStop {
    ghost from_gives = { λ _ e. e ≡ stops.Memory };

    fn from(_error: AllocError) -> LineStop {
        LineStop::Memory
    }
}

impl<T: Drop> From<AllocFailed<T>> for LineStop {
    ghost from_gives = { λ _ e. e ≡ stops.Memory };

    fn from(_error: AllocFailed<T>) -> LineStop {
        LineStop::Memory
    }
}
