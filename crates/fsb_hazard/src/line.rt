ghost use Rattle.std.specs.Prelude.{◌≡◌, List, [], ◌∷◌, ◌++◌, OnOk, OnErr};

use fsb_io::Memory;
use std::alloc::Global;
use std::marker::Model;

/// One hazard of a bench file; the first number is the request's, or the first clock for `Bnr`.
#[derive(Clone, Copy, Debug, PartialEq, Eq)]
pub enum HazardLine {
    /// The request has this many snoop stalls.
    Stall(u32, u8),
    /// TRDY# for the request waits this many clocks.
    Trdy(u32, u8),
    /// The response to the request waits this many clocks.
    Resp(u32, u8),
    /// This many clocks lie between one chunk of the request's data and the next.
    Gap(u32, u8),
    /// The request has to be retried.
    Retry(u32),
    /// The request is deferred, with this wait.
    Defer(u32, u16),
    /// AERR# cancels the request.
    Aerr(u32),
    /// BNR# is asserted in each clock from the first to the second.
    Bnr(u32, u32),
}

/// The hazard lines of a bench file, in order.
#[derive(Debug, Drop)]
pub struct HazardLines {
    lines: Vec<HazardLine>,
}

impl Model for HazardLines {
    ghost use Rattle.std.specs.Prelude.{List};
    ghost use Rattle.fsb_hazard.specs.declared.line.HazardLine.{HazardLine};

    ghost Value = { List HazardLine };

    ghost view = { λ h. h.lines.items };
}

impl HazardLines {
    /// The empty list. It takes no memory.
    pub fn new(alloc: Global) -> Self
        ensures { result ≡ [] }
    {
        HazardLines {
            lines: Vec::new(alloc),
        }
    }

    /// Adds a line as the last one. After `Memory` the list is as before.
    pub fn push(&mut self, line: HazardLine) -> Result<(), Memory>
        ensures ok { OnOk result (self.new ≡ self.old ++ line ∷ []) }
        ensures err { OnErr result (self.new ≡ self.old) }
    {
        self.lines.push(line)?;
        Ok(())
    }

    pub fn as_slice(&self) -> &[HazardLine]
        ensures { result.now ≡ self.now }
    {
        self.lines.as_slice()
    }
}
