/// What a request on a line asks for.
#[derive(Clone, Copy, Debug, PartialEq, Eq)]
pub enum Purpose {
    /// The line's bytes.
    Read,
    /// The line's bytes, and to be its only holder.
    Own,
    /// To be the only holder of a line that is held. No data move, unless another agent has the
    /// line Modified by then.
    Upgrade,
    /// To give a Modified line back to the memory.
    WriteBack,
}

impl Purpose {
    ghost use Rattle.std.specs.Prelude.{◌≡◌};
    ghost use Rattle.fsb_line.specs.States.{kind_owns};

    /// Whether a request of this kind makes its agent the owner of the line.
    pub fn owns(self) -> bool
        ensures { result ≡ kind_owns self }
    {
        matches!(self, Purpose::Own | Purpose::Upgrade)
    }
}

/// What the bus was told to do with a request.
#[derive(Clone, Copy, Debug, PartialEq, Eq)]
pub enum Ruling {
    /// To serve it.
    Keep,
    /// To have it made again.
    Retry,
    /// To answer it later. An upgrade and a write-back are never answered later.
    Defer,
}

/// How a request is settled at its snoop end.
#[derive(Clone, Copy, Debug, PartialEq, Eq)]
pub enum Settled {
    /// The memory gives the line.
    Granted,
    /// The agent that had the line Modified gives it, and the memory takes it too.
    Handed,
    /// An upgrade ends without data. It is won where its agent still holds the line.
    Upgraded,
    /// The request is to be made again.
    Retried,
    /// The line comes later, with a reply.
    Deferred,
    /// A write-back gives its line to the memory.
    Written,
    /// A deferred request gets its line.
    Replied,
}
