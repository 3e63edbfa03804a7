//! Other ways to read a rejected dump, and which of them get further.

ghost use Rattle.std.specs.Prelude.{◌≡◌};
ghost use Rattle.scope_tries.specs.Hints.{further_in, is_later};

use fsb_signal::signal_at;
use scope_check::Verdict;
use std::alloc::{AllocError, Global};

/// Another way to read a dump, by the option that asks for it.
#[derive(Clone, Copy, Debug, PartialEq, Eq)]
pub enum Try {
    /// `--first`: a clock that is first seen high has its first edge there.
    First,
    /// `--after LINE`: the line of this number is sampled after the changes of the edge's own time.
    After(u8),
    /// `--after` with BREQ0_n to BREQ3_n.
    AfterRequests,
}

/// What comes of a rejected dump that is read in another way: it gets further.
#[derive(Clone, Copy, Debug, PartialEq, Eq)]
pub enum Further {
    /// A clock is judged, and no rule is broken.
    Accepted,
    /// The first broken clock, by its number in this reading, is a later one.
    Broken(u64),
}

/// A way to read a rejected dump in which it gets further.
#[derive(Clone, Copy, Debug, PartialEq, Eq)]
pub struct Hint {
    pub by: Try,
    pub further: Further,
}

/// How much further a dump gets, whose first broken clock is this one: read by the try it has this verdict. `None` where
/// it gets no further. With `--first` each clock has the number after its own, so the same broken clock is no later one.
#[tactic(auto, unfolding(crate::specs::Hints::further_in))]
pub fn further_in(by: Try, broken: u64, verdict: &Verdict) -> Option<Further>
    ensures { result ≡ further_in by broken verdict.now }
{
    match verdict {
        Verdict::Nothing => None,
        Verdict::Accepted => Some(Further::Accepted),
        Verdict::Broken { clock, .. } => {
            if is_later(by, broken, *clock) {
                Some(Further::Broken(*clock))
            } else {
                None
            }
        }
    }
}

fn is_later(by: Try, broken: u64, clock: u64) -> bool
    ensures { result ≡ is_later by broken clock }
{
    match by {
        Try::First => broken < clock && 1 < clock - broken,
        Try::After(_) => broken < clock,
        Try::AfterRequests => broken < clock,
    }
}

/// A line for each hint, as `with --after ADS_n it is accepted`.
pub fn hints_text(alloc: Global, hints: &[Hint]) -> Result<String, AllocError> {
    let mut text = String::new(alloc);
    for hint in hints {
        put_hint(&mut text, *hint)?;
    }
    Ok(text)
}

fn put_hint(text: &mut String, hint: Hint) -> Result<(), AllocError> {
    text.push_str("with ")?;
    put_option(text, hint.by)?;
    put_further(text, hint.further)
}

fn put_option(text: &mut String, by: Try) -> Result<(), AllocError> {
    match by {
        Try::First => text.push_str("--first"),
        Try::After(line) => put_after(text, line),
        Try::AfterRequests => text.push_str("--after BREQ0_n,BREQ1_n,BREQ2_n,BREQ3_n"),
    }
}

fn put_after(text: &mut String, line: u8) -> Result<(), AllocError> {
    text.push_str("--after ")?;
    if line < 22 {
        text.push_str(signal_at(line).name)
    } else {
        write!(text, "{line}")
    }
}

fn put_further(text: &mut String, further: Further) -> Result<(), AllocError> {
    match further {
        Further::Accepted => text.push_str(" it is accepted\n"),
        Further::Broken(clock) => write!(text, " it is broken first at clock {clock}\n"),
    }
}
