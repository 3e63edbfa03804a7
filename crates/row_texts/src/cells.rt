//! What a row has in its columns.

ghost use Rattle.std.specs.Prelude.{◌≡◌, ◌++◌, ◌||◌, OnOk, Some, codes, decimal};
ghost use Rattle.fsb_trace.specs.Requests.{is_reply_kind};
ghost use Rattle.row_texts.specs.Cells.{agent_text, between_text, clock_text, kind_text, kind_word, outcome_text, outcome_word, sign_text, signs_text, target_text};

use crate::text::{put, put_hexadecimal, put_number};
use fsb_encode::{Kind, Request};
use fsb_owner_table::Snooped;
use fsb_trace::{Outcome, Who};
use std::alloc::AllocError;

/// Appends a clock, which comes behind so many, if there is one.
#[tactic(auto, unfolding(crate::specs::Cells::clock_text))]
pub fn put_clock(text: &mut Vec<u8>, clock: Option<u32>, before: u32) -> Result<(), AllocError>
    ensures { OnOk result (text.new.items ≡ text.old.items ++ clock_text before clock) }
{
    match clock {
        None => Ok(()),
        Some(clock) => put_number(text, u64::from(before) + u64::from(clock)),
    }
}

/// Appends how many clocks lie between two, if both are there.
#[tactic(auto, unfolding(crate::specs::Cells::between_text))]
pub(crate) fn put_between(
    text: &mut Vec<u8>,
    begin: Option<u32>,
    end: Option<u32>,
) -> Result<(), AllocError>
    ensures { OnOk result (text.new.items ≡ text.old.items ++ between_text begin end) }
{
    match begin {
        None => Ok(()),
        Some(begin) => match end {
            None => Ok(()),
            Some(end) => put_number(text, u64::from(end.saturating_sub(begin))),
        },
    }
}

/// Appends who began a request: the number of a symmetric agent, or p.
#[tactic(auto, unfolding(crate::specs::Cells::agent_text))]
pub fn put_agent(text: &mut Vec<u8>, who: Option<Who>) -> Result<(), AllocError>
    ensures { OnOk result (text.new.items ≡ text.old.items ++ agent_text who) }
{
    match who {
        None => Ok(()),
        Some(Who::Symmetric(agent)) => put_number(text, u64::from(agent)),
        Some(Who::Priority) => put(text, "p"),
    }
}

#[tactic(auto, unfolding(crate::specs::Cells::kind_word))]
fn kind_word(kind: Kind) -> &'static str
    ensures { result.now ≡ kind_word kind }
{
    match kind {
        Kind::Reply => "reply",
        Kind::Invalidate => "invalidate",
        Kind::Read => "read",
        Kind::WriteBack => "writeback",
        Kind::Upgrade => "upgrade",
    }
}

/// Appends the kind of a request, once it is decoded.
#[tactic(auto, unfolding(crate::specs::Cells::kind_text))]
pub fn put_kind(text: &mut Vec<u8>, request: Option<Request>) -> Result<(), AllocError>
    ensures { OnOk result (text.new.items ≡ text.old.items ++ kind_text request) }
{
    match request {
        None => Ok(()),
        Some(request) => put(text, kind_word(request.kind)),
    }
}

// Appends the deferred ID of a reply.
fn put_id(text: &mut Vec<u8>, id: u8) -> Result<(), AllocError>
    ensures { OnOk result (text.new.items ≡ text.old.items ++ (codes "ID " ++ decimal id)) }
{
    put(text, "ID ")?;
    put_number(text, u64::from(id))
}

/// Appends what a request names: the address of its line, or, of a reply, the deferred ID.
#[tactic(auto, unfolding(crate::specs::Cells::target_text))]
pub fn put_target(text: &mut Vec<u8>, request: Option<Request>) -> Result<(), AllocError>
    ensures { OnOk result (text.new.items ≡ text.old.items ++ target_text request) }
{
    match request {
        None => Ok(()),
        Some(request) => {
            if is_reply_kind(request.kind) {
                put_id(text, request.did)
            } else {
                put_hexadecimal(text, request.line.saturating_mul(32))
            }
        }
    }
}

#[tactic(auto, unfolding(fsb_trace::specs::Requests::is_reply_kind))]
fn is_reply_kind(kind: Kind) -> bool
    ensures { result ≡ is_reply_kind kind }
{
    match kind {
        Kind::Reply => true,
        Kind::Invalidate | Kind::Read | Kind::WriteBack | Kind::Upgrade => false,
    }
}

// Appends the name of a line, if it is asserted, behind a space where something stands before it.
#[tactic(auto, unfolding(crate::specs::Cells::sign_text))]
fn put_sign(
    text: &mut Vec<u8>,
    behind: bool,
    name: &str,
    is_asserted: bool,
) -> Result<(), AllocError>
    ensures { OnOk result
        (text.new.items ≡ text.old.items ++ sign_text behind name.now is_asserted) }
{
    if !is_asserted {
        return Ok(());
    }
    if behind {
        put(text, " ")?;
    }
    put(text, name)
}

fn either(one: bool, other: bool) -> bool
    ensures { result ≡ (one || other) }
{
    one || other
}

// Appends which lines are asserted at this snoop end.
fn put_asserted(text: &mut Vec<u8>, behind: bool, snoop: Snooped) -> Result<(), AllocError>
    ensures { OnOk result
        (text.new.items ≡ text.old.items ++ signs_text behind (Some snoop)) }
{
    let second = either(behind, snoop.hit);
    let third = either(second, snoop.hitm);
    put_sign(text, behind, "HIT", snoop.hit)?;
    put_sign(text, second, "HITM", snoop.hitm)?;
    put_sign(text, third, "DEFER", snoop.defer)
}

/// Appends which of HIT#, HITM# and DEFER# are asserted at a snoop end, if there is one, behind a space where something stands
/// before them.
#[tactic(auto, unfolding(crate::specs::Cells::signs_text))]
pub fn put_signs(text: &mut Vec<u8>, behind: bool, snoop: Option<Snooped>) -> Result<(), AllocError>
    ensures { OnOk result (text.new.items ≡ text.old.items ++ signs_text behind snoop) }
{
    match snoop {
        None => Ok(()),
        Some(snoop) => put_asserted(text, behind, snoop),
    }
}

#[tactic(auto, unfolding(crate::specs::Cells::outcome_word))]
fn outcome_word(outcome: Outcome) -> &'static str
    ensures { result.now ≡ outcome_word outcome }
{
    match outcome {
        Outcome::Granted => "granted",
        Outcome::Handed => "handed",
        Outcome::Retried => "retried",
        Outcome::Deferred => "deferred",
        Outcome::Written => "written",
        Outcome::Replied => "replied",
        Outcome::Failed => "failed",
        Outcome::Upgraded => "upgraded",
    }
}

/// Appends the outcome that is told, or that an address error cancelled the request.
#[tactic(auto, unfolding(crate::specs::Cells::outcome_text))]
pub fn put_outcome(
    text: &mut Vec<u8>,
    cancelled: bool,
    outcome: Option<Outcome>,
) -> Result<(), AllocError>
    ensures { OnOk result (text.new.items ≡ text.old.items ++ outcome_text cancelled outcome) }
{
    match outcome {
        None => { if cancelled { put(text, "aerr") } else { Ok(()) } }
        Some(outcome) => put(text, outcome_word(outcome)),
    }
}
