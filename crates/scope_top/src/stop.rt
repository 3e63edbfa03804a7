//! Why a command did not come to its end.

ghost use Rattle.std.specs.Prelude.{◌≡◌};
ghost use Rattle.scope_top.specs.Ends.{ending_at};

use scope_report::Ending;
use std::alloc::AllocError;

/// Why a command did not come to its end.
#[derive(Clone, Copy, Debug, PartialEq, Eq)]
pub enum Stop {
    /// Memory was lacking.
    Memory,
    /// The file of `--lines` could not be read.
    Lines,
    /// The dump could not be read.
    Dump,
    /// A text could not be written.
    Out,
}

impl From<AllocError> for Stop {
    ghost use Rattle.std.specs.Prelude.{◌≡◌};
    ghost use Rattle.scope_top.specs.declared.stop.Stop.TheVariants as stops;

    ghost from_gives = { λ _ stop. stop ≡ stops.Memory };

    fn from(_error: AllocError) -> Stop {
        Stop::Memory
    }
}

/// Why a file that shows a broken rule is not written.
#[derive(Clone, Copy, Debug, PartialEq, Eq)]
pub enum ViewStop {
    /// Memory was lacking.
    Memory,
    /// The dump could not be read again.
    Dump,
    /// The save file could not be written.
    Save,
    /// The dump of the clocks around the broken one could not be written.
    Cut,
    /// The dump has another text than when it was read before.
    Changed,
}

impl From<AllocError> for ViewStop {
    ghost use Rattle.std.specs.Prelude.{◌≡◌};
    ghost use Rattle.scope_top.specs.declared.stop.ViewStop.TheVariants as stops;

    ghost from_gives = { λ _ stop. stop ≡ stops.Memory };

    fn from(_error: AllocError) -> ViewStop {
        ViewStop::Memory
    }
}

/// A command that has told what it found.
#[derive(Clone, Copy, Debug, PartialEq, Eq)]
pub struct Ended {
    pub ending: Ending,
    /// Whether the files are written that the words name to show it, or else why not.
    pub shown: Result<(), ViewStop>,
}

/// How the program ends.
pub fn ending_at(end: Result<Ended, Stop>) -> Ending
    ensures { result ≡ ending_at end }
{
    match end {
        Ok(ended) => match ended.shown {
            Ok(()) => ended.ending,
            Err(ViewStop::Memory) => Ending::NoMemory,
            Err(ViewStop::Dump) | Err(ViewStop::Changed) => Ending::Failed,
            Err(ViewStop::Save) | Err(ViewStop::Cut) => Ending::Failed,
        },
        Err(Stop::Memory) => Ending::NoMemory,
        Err(Stop::Lines) | Err(Stop::Dump) | Err(Stop::Out) => Ending::Failed,
    }
}
