//! A rejected dump, read in other ways: which of them get further.

ghost use Rattle.std.specs.Prelude.{◌≡◌, ◌≤◌, ◌++◌, true, Err, IsTrue, IfOk, OnOk, length};
ghost use Rattle.fsb_io.specs.Faults.{Rose};
ghost use Rattle.scope_tries.specs.Tries.{AreHints, IsTried, SamplesBy, all_tries, broken_found, further_answered, further_found, hint_of, is_of_dump, late_by, takes_first_by, tries_of};

use crate::hint::{Further, Hint, Try, further_in};
use fsb_io::Source;
use scope_check::Verdict;
use scope_parts::Plan;
use scope_report::verdict_over;
use scope_watch::{Checked, Finding, Sampling, ScopeStop, check_dump};
use scope_wiring::Choice;
use std::alloc::{AllocError, Global};
use vcd_way::Edge;

/// How many bytes are asked of a dump at a time, at most.
const PIECE: usize = 65_536;

/// The ways that are tried, in the order in which they are told: LOCK_n is line 6, ADS_n 8, REQ_n 9, A_n 10.
const TRIES: [Try; 6] = [
    Try::First,
    Try::AfterRequests,
    Try::After(6),
    Try::After(8),
    Try::After(9),
    Try::After(10),
];

/// Why a dump was not read in every other way.
#[derive(Clone, Copy, Debug, PartialEq, Eq)]
pub enum TryStop {
    /// Memory was lacking.
    Memory,
    /// The dump could not be read again.
    Read,
}

impl From<AllocError> for TryStop {
    ghost use Rattle.std.specs.Prelude.{◌≡◌};
    ghost use Rattle.scope_tries.specs.declared.tries.TryStop.TheVariants as stops;

    ghost from_gives = { λ _ stop. stop ≡ stops.Memory };

    fn from(_error: AllocError) -> TryStop {
        TryStop::Memory
    }
}

/// The edge at which the tries sample, where there are any: the dump can be read again, and the words asked neither for a
/// first edge nor for lines that are sampled after it.
pub fn tries_of(is_again: bool, sampling: &Sampling) -> Option<Edge>
    ensures { result ≡ tries_of is_again sampling.now }
{
    if is_again && !sampling.takes_first && sampling.late.is_empty() {
        Some(sampling.edge)
    } else {
        None
    }
}

/// The first broken clock of what was found.
pub fn broken_found(finding: &Finding) -> Option<u64>
    ensures { result ≡ broken_found finding.now }
{
    match finding {
        Finding::Refused(_) => None,
        Finding::Judged(_, told) => match verdict_over(&told.judged) {
            Verdict::Broken { clock, .. } => Some(clock),
            Verdict::Nothing | Verdict::Accepted => None,
        },
    }
}

/// Reads a dump again in each other way, whose first broken clock is this one with lines sampled at the edge, and answers
/// a hint for each way in which it gets further, in the order of the tries, and none for a way in which it does not, or
/// cannot be read.
pub fn hints_of<S: Source>(
    alloc: Global,
    name: &str,
    choice: &Choice,
    plan: Plan,
    edge: Edge,
    broken: u64,
    dump: &mut S,
) -> Result<Vec<Hint>, TryStop>
    requires { length name.now ≤ 4096 }
    ensures hints { IsTrue S.tells → IfOk result (λ v.
        AreHints (IsTried choice.now plan edge broken (S.holds dump.old)) all_tries v.items) }
    ensures read_fault { result ≡ Err TryStop.Read → Rose (S.faults dump.old) (S.faults dump.new) }
    ensures later { S.faults dump.old ≤ S.faults dump.new }
    ensures holds_stays { IsTrue S.tells → S.holds dump.new ≡ S.holds dump.old }
{
    hints_by(alloc, name, choice, plan, edge, broken, &TRIES, dump)
}

// The hints of these tries.
fn hints_by<S: Source>(
    alloc: Global,
    name: &str,
    choice: &Choice,
    plan: Plan,
    edge: Edge,
    broken: u64,
    tries: &[Try],
    dump: &mut S,
) -> Result<Vec<Hint>, TryStop>
    requires { length name.now ≤ 4096 }
    ensures hints { IsTrue S.tells → IfOk result (λ v.
        AreHints (IsTried choice.now plan edge broken (S.holds dump.old)) tries.now v.items) }
    ensures read_fault { result ≡ Err TryStop.Read → Rose (S.faults dump.old) (S.faults dump.new) }
    ensures later { S.faults dump.old ≤ S.faults dump.new }
    ensures holds_stays { IsTrue S.tells → S.holds dump.new ≡ S.holds dump.old }
{
    let mut hints = Vec::new(alloc);
    for by in tries {
        let further = further_by(alloc, name, choice, plan, edge, broken, *by, dump)?;
        keep(&mut hints, *by, further)?;
    }
    Ok(hints)
}

// Keeps the hint of a try of which this comes, if there is one.
fn keep(hints: &mut Vec<Hint>, by: Try, further: Option<Further>) -> Result<(), AllocError>
    ensures { OnOk result (hints.new.items ≡ hints.old.items ++ hint_of by further) }
{
    match further {
        None => Ok(()),
        Some(further) => {
            hints.push(Hint { by, further })?;
            Ok(())
        }
    }
}

// What comes of one try.
fn further_by<S: Source>(
    alloc: Global,
    name: &str,
    choice: &Choice,
    plan: Plan,
    edge: Edge,
    broken: u64,
    by: Try,
    dump: &mut S,
) -> Result<Option<Further>, TryStop>
    requires { length name.now ≤ 4096 }
    ensures tried { IsTrue S.tells → IfOk result
        (IsTried choice.now plan edge broken (S.holds dump.old) by) }
    ensures read_fault { result ≡ Err TryStop.Read → Rose (S.faults dump.old) (S.faults dump.new) }
    ensures later { S.faults dump.old ≤ S.faults dump.new }
    ensures holds_stays { IsTrue S.tells → S.holds dump.new ≡ S.holds dump.old }
{
    let sampling = sampling_by(alloc, by, edge)?;
    let mut room = vec![in alloc; 0; PIECE]?;
    let answer = check_dump(alloc, name, dump, &mut room, choice, plan, sampling);
    further_answered(by, broken, &answer)
}

// How much further a dump gets of which this is answered by the try.
fn further_answered(
    by: Try,
    broken: u64,
    answer: &Result<Checked, ScopeStop>,
) -> Result<Option<Further>, TryStop>
    ensures further { IfOk result (λ further. (is_of_dump answer.now ≡ true)
        × (further ≡ further_answered by broken answer.now)) }
    ensures read_fault { result ≡ Err TryStop.Read → answer.now ≡ Err ScopeStop.ReadFault }
{
    match answer {
        Ok(checked) => Ok(further_found(by, broken, &checked.finding)),
        Err(ScopeStop::Memory) => Err(TryStop::Memory),
        Err(ScopeStop::ReadFault) => Err(TryStop::Read),
        Err(ScopeStop::Bad(_)) | Err(ScopeStop::NoHeader) | Err(ScopeStop::TooLong) => Ok(None),
        Err(ScopeStop::TooMany) | Err(ScopeStop::WriteFault) => Ok(None),
    }
}

// When the lines are sampled by a try.
fn sampling_by(alloc: Global, by: Try, edge: Edge) -> Result<Sampling, AllocError>
    ensures { IfOk result (SamplesBy by edge) }
{
    Ok(Sampling {
        edge,
        takes_first: takes_first_by(by),
        late: late_by(alloc, by)?,
    })
}

fn takes_first_by(by: Try) -> bool
    ensures { result ≡ takes_first_by by }
{
    match by {
        Try::First => true,
        Try::After(_) | Try::AfterRequests => false,
    }
}

fn late_by(alloc: Global, by: Try) -> Result<Vec<u8>, AllocError>
    ensures { IfOk result (λ v. v.items ≡ late_by by) }
{
    match by {
        Try::First => Ok(Vec::new(alloc)),
        Try::After(line) => Vec::from_slice(alloc, &[line]),
        Try::AfterRequests => Vec::from_slice(alloc, &[1, 2, 3, 4]),
    }
}

fn further_found(by: Try, broken: u64, finding: &Finding) -> Option<Further>
    ensures { result ≡ further_found by broken finding.now }
{
    match finding {
        Finding::Refused(_) => None,
        Finding::Judged(_, told) => further_in(by, broken, &verdict_over(&told.judged)),
    }
}
