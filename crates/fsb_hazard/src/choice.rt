ghost use Rattle.std.specs.Prelude.{◌≡◌};
ghost use Rattle.fsb_hazard.specs.declared.choice.Choice.{Choice};
ghost use Rattle.fsb_hazard.specs.Choice.{quiet_choice, join_turns, join, effective_turn, effective};

use fsb_encode::{Kind, Request};

/// What becomes of a request at its snoop end.
#[derive(Clone, Copy, Debug, PartialEq, Eq)]
pub enum Turn {
    /// It is let through.
    Keep,
    /// It has to be retried.
    Retry,
    /// It is answered by a reply, which is due this many clocks after the clock that follows its response.
    Defer(u16),
}

/// What a hazard object chooses for a clock (`bnr`) or for a request (all else).
#[derive(Clone, Copy, Debug, PartialEq, Eq)]
pub struct Choice {
    /// Whether BNR# holds new requests back.
    pub bnr: bool,
    /// Whether AERR# cancels the request.
    pub aerr: bool,
    /// The snoop stalls of the request, of two clocks each.
    pub stall: u8,
    /// The clocks that TRDY# waits.
    pub trdy: u8,
    /// The clocks that the response waits.
    pub resp: u8,
    /// The clocks between one chunk of data and the next.
    pub gap: u8,
    pub turn: Turn,
}

/// What a hazard object is asked: of a clock, or of a request that begins.
#[derive(Clone, Copy, Debug, PartialEq, Eq)]
pub enum Ask {
    Clock(u32),
    Begun { number: u32, request: Request },
}

/// The choice in which nothing goes wrong or takes longer.
pub fn quiet_choice() -> Choice
    ensures { result ≡ quiet_choice }
{
    Choice {
        bnr: false,
        aerr: false,
        stall: 0,
        trdy: 0,
        resp: 0,
        gap: 0,
        turn: Turn::Keep,
    }
}

/// Two choices together: truth values are or-ed and of two numbers the greater counts. Retry beats Defer and Defer
/// beats Keep, and of two Defers the later one stays.
pub fn join(a: &Choice, b: &Choice) -> Choice
    ensures { result ≡ join a.now b.now }
{
    Choice {
        bnr: a.bnr || b.bnr,
        aerr: a.aerr || b.aerr,
        stall: a.stall.max(b.stall),
        trdy: a.trdy.max(b.trdy),
        resp: a.resp.max(b.resp),
        gap: a.gap.max(b.gap),
        turn: join_turns(a.turn, b.turn),
    }
}

/// Choices join in any order and any number of times, and the quiet one changes nothing: a law, and no code.
pub fn join_laws()
    ensures commutes { (a b : Choice) → join a b ≡ join b a }
    ensures regroups { (a b c : Choice) → join (join a b) c ≡ join a (join b c) }
    ensures once { (a : Choice) → join a a ≡ a }
    ensures nothing { (a : Choice) → join a quiet_choice ≡ a }
{}

fn join_turns(a: Turn, b: Turn) -> Turn
    ensures { result ≡ join_turns a b }
{
    match (a, b) {
        (Turn::Retry, _) | (_, Turn::Retry) => Turn::Retry,
        (Turn::Defer(later), Turn::Defer(other)) => Turn::Defer(later.max(other)),
        (Turn::Keep, turn) | (turn, Turn::Keep) => turn,
    }
}

/// The choice that counts for a request at its snoop end, given whether its line is in the bridge's window and
/// whether it is pending. The turn of a write-back or a reply is `Keep`. Any other request for a pending line is retried.
/// A request without DEN#, as an upgrade, or for a line outside the window, is not deferred. All else stays as it was chosen.
pub fn effective(choice: &Choice, request: &Request, in_window: bool, pending: bool) -> Choice
    ensures { result ≡ effective choice.now request.now in_window pending }
{
    Choice {
        turn: effective_turn(choice.turn, request, in_window, pending),
        ..*choice
    }
}

fn effective_turn(turn: Turn, request: &Request, in_window: bool, pending: bool) -> Turn
    ensures { result ≡ effective_turn turn request.now in_window pending }
{
    match (request.kind, turn) {
        (Kind::Reply | Kind::WriteBack, _) => Turn::Keep,
        _ if pending => Turn::Retry,
        (_, Turn::Defer(_)) if !request.den || !in_window => Turn::Keep,
        _ => turn,
    }
}
