//! The lines of each reason.

ghost use Rattle.std.specs.Prelude.{◌≡◌, Bool, Option};
ghost use Rattle.reason_lines.specs.LinesOf.{lines_of, with_asserted, with_fault, with_holder, with_if, with_wait};

use crate::named::NamedLines;
use fsb_encode::DecodeFault;
use fsb_reasons::{Reason, SnoopLines, Wait};
use fsb_signal::Lines;
use fsb_trace::{Who, request_line_of};

/// A control line, if so.
#[tactic(auto, unfolding(crate::specs::LinesOf::with_if))]
fn with_if(named: NamedLines, is_so: bool, line: Lines) -> NamedLines
    ensures { result ≡ with_if is_so line named }
{
    if is_so { named.with_line(line) } else { named }
}

/// Those of the three lines of a snoop that are asserted.
fn with_asserted(named: NamedLines, lines: SnoopLines) -> NamedLines
    ensures { result ≡ with_asserted lines named }
{
    let named = with_if(named, lines.hit, Lines::HIT);
    let named = with_if(named, lines.hitm, Lines::HITM);
    with_if(named, lines.defer, Lines::DEFER)
}

/// The lines that show what a request waits for: its snoop end, or the end of the one before.
#[tactic(auto, unfolding(crate::specs::LinesOf::with_wait))]
fn with_wait(named: NamedLines, wait: Wait) -> NamedLines
    ensures { result ≡ with_wait wait named }
{
    match wait {
        Wait::NoSnoopEnd | Wait::SnoopEnd(_) => named.with_snoop(),
        Wait::NotClear(_) => named.with_response().with_line(Lines::DRDY),
    }
}

/// The words in which a request is not lawful.
#[tactic(auto, unfolding(crate::specs::LinesOf::with_fault))]
fn with_fault(named: NamedLines, fault: DecodeFault) -> NamedLines
    ensures { result ≡ with_fault fault named }
{
    match fault {
        DecodeFault::BadCode(_) | DecodeFault::BadLen(_) => named.with_request(),
        DecodeFault::BadField => named.with_request().with_address(),
    }
}

/// The line by which the agent asks that had the bus, if one had it.
#[tactic(auto, unfolding(crate::specs::LinesOf::with_holder))]
fn with_holder(named: NamedLines, holder: Option<Who>) -> NamedLines
    ensures { result ≡ with_holder holder named }
{
    match holder {
        None => named,
        Some(who) => named.with_line(request_line_of(who)),
    }
}

/// The lines of the bus that a reason speaks of.
#[tactic(auto, unfolding(crate::specs::LinesOf::lines_of))]
pub fn lines_of(reason: &Reason) -> NamedLines
    ensures { result ≡ lines_of reason.now }
{
    let ads = NamedLines::none().with_line(Lines::ADS);
    match reason {
        Reason::UnknownLines { lines } => ads.with_line(*lines),
        Reason::AtStart | Reason::TooSoon { .. } => ads,
        Reason::UnknownBits { .. } => ads.with_request().with_address(),
        Reason::Unlawful { fault } => with_fault(ads, *fault),
        Reason::QueueFull { .. } => ads,
        Reason::Blocked { .. } => ads.with_line(Lines::BNR),
        Reason::NotArbitrated => ads,
        Reason::Locked { holder } => with_holder(ads.with_line(Lines::LOCK), *holder),
        Reason::NoneAsks { .. } => ads.with_asked(),
        Reason::NoId => ads.with_request().with_address(),
        Reason::ReplyByOther { .. } => ads.with_arbitration().with_request(),
        Reason::IdOfOther { .. } => ads.with_arbitration().with_address(),
        Reason::Dropped { who } | Reason::Held { who } => ads.with_line(request_line_of(*who)),
        Reason::LockAlone => ads.with_line(Lines::LOCK),
        Reason::ErrorAlone { .. } => ads.with_line(Lines::AERR),
        Reason::SnoopsOver { lines }
        | Reason::WriteBackSnooped { lines, .. }
        | Reason::ReplySnooped { lines, .. } => with_asserted(ads, *lines),
        Reason::SnoopEarly { lines, .. } | Reason::SnoopBetween { lines, .. } => with_asserted(
            ads.with_snoop(),
            *lines,
        ),
        Reason::NothingToAnswer { .. } | Reason::CodeForNone { .. } => ads.with_response(),
        Reason::ResponseEarly { wait, .. } => with_wait(ads.with_response(), *wait),
        Reason::CodeUnsettled { .. } | Reason::CodeWrong { .. } => ads
            .with_snoop()
            .with_line(Lines::DEFER)
            .with_response(),
        Reason::ReadyForNone { .. } | Reason::ResponseUnready { .. } => ads
            .with_response()
            .with_line(Lines::TRDY),
        Reason::ReadyUnsettled { .. } | Reason::ReadyUnwanted { .. } => ads
            .with_snoop()
            .with_line(Lines::TRDY),
        Reason::ReadyEarly { wait, .. } => with_wait(ads.with_line(Lines::TRDY), *wait),
        Reason::ReadyTwice { .. } => ads.with_line(Lines::TRDY),
        Reason::DataForNone { .. } => ads.with_response().with_line(Lines::DRDY),
        Reason::BusyMissing { .. } | Reason::BusyForNone { .. } => ads
            .with_response()
            .with_line(Lines::DBSY)
            .with_line(Lines::DRDY),
        Reason::UnknownData { .. } => ads.with_line(Lines::DRDY).with_data(),
        Reason::ReplyUnawaited { .. } => ads.with_request().with_address(),
        Reason::IdTaken { .. } => ads.with_address(),
        Reason::TooMany { who, .. } => ads.with_line(request_line_of(*who)),
        Reason::AddressParity { low, high } => {
            with_if(
                with_if(ads.with_address(), *low, Lines::AP0),
                *high,
                Lines::AP1,
            )
        }
        Reason::RequestParity => ads.with_request().with_line(Lines::RP),
    }
}
