ghost use Rattle.std.specs.Prelude.{◌≡◌};
ghost use Rattle.fsb_trace.specs.Outcome.{does_move, response_code_of, is_deferral};

/// How a request ends on the bus.
#[derive(Clone, Copy, Debug, PartialEq, Eq)]
pub enum Outcome {
    /// Data come from memory to the requester.
    Granted,
    /// Data come from the line's owner, and memory takes them too.
    Handed,
    /// Nothing moves; the requester asks again.
    Retried,
    /// Nothing moves; a reply will bring the data.
    Deferred,
    /// A write-back: data go from the requester to memory.
    Written,
    /// A reply: it brings the data of the deferred request that it names.
    Replied,
    /// A hard failure: nothing moves.
    Failed,
    /// An upgrade: nothing moves; the requester owns the line, if it still holds it.
    Upgraded,
}

/// Whether data move with this outcome.
#[tactic(auto, unfolding(crate::specs::Outcome::does_move))]
pub fn moves(outcome: Outcome) -> bool
    ensures { result ≡ does_move outcome }
{
    match outcome {
        Outcome::Granted | Outcome::Handed | Outcome::Written | Outcome::Replied => true,
        Outcome::Retried | Outcome::Deferred | Outcome::Failed | Outcome::Upgraded => false,
    }
}

/// The response code of this outcome: RS2#, RS1# and RS0#, with 1 for asserted.
#[tactic(auto, unfolding(crate::specs::Outcome::response_code_of))]
pub fn code_of(outcome: Outcome) -> u8
    ensures { result ≡ response_code_of outcome }
{
    match outcome {
        Outcome::Granted | Outcome::Replied => 0b111,
        Outcome::Handed => 0b110,
        Outcome::Retried => 0b001,
        Outcome::Deferred => 0b010,
        Outcome::Written | Outcome::Upgraded => 0b101,
        Outcome::Failed => 0b100,
    }
}

/// Whether the outcome is Deferred.
#[tactic(auto, unfolding(crate::specs::Outcome::is_deferral))]
pub(crate) fn is_deferral(outcome: Outcome) -> bool
    ensures { result ≡ is_deferral outcome }
{
    match outcome {
        Outcome::Deferred => true,
        Outcome::Granted
        | Outcome::Handed
        | Outcome::Retried
        | Outcome::Written
        | Outcome::Replied
        | Outcome::Failed
        | Outcome::Upgraded => false,
    }
}
