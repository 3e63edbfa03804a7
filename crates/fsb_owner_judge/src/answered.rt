//! What a snoop end breaks.

ghost use Rattle.std.specs.Prelude.{◌≡◌};
ghost use Rattle.fsb_owner_judge.specs.Verdicts.{nothing_broken};

/// Which of the rules of snoop ends one breaks.
#[derive(Clone, Copy, Debug, PartialEq, Eq)]
pub struct Answered {
    /// Rule 25, HITM# without an owner.
    pub owner_lacking: bool,
    /// Rule 26, HITM# missing.
    pub owner_silent: bool,
    /// Rule 27, HIT# missing.
    pub holder_silent: bool,
    /// Rule 28, HIT# without a holder.
    pub holder_lacking: bool,
    /// Rule 29, write-back of a line that its agent has no more.
    pub written_when_lost: bool,
}

/// No rule is broken.
pub fn nothing() -> Answered
    ensures { result ≡ nothing_broken }
{
    Answered {
        owner_lacking: false,
        owner_silent: false,
        holder_silent: false,
        holder_lacking: false,
        written_when_lost: false,
    }
}
