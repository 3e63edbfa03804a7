ghost use Rattle.std.specs.Prelude.{◌≡◌, ◌<◌, ◌≤◌, ◌-◌, ◌+◌, ◌^◌, length, take, drop};
ghost use Rattle.fsb_script.specs.Parsing.{Gives, stop_at};
ghost use Rattle.fsb_script.specs.TextWords.{line_len};
ghost use Rattle.fsb_script.specs.Drafts.{plan_at_end, said_plan};
ghost use Rattle.fsb_script.specs.View.{progress, plan_view};

use crate::draft::PlanDraft;
use crate::fault::{Cause, LineStop, ScriptFault, ScriptStop};
use crate::place::Place;
use crate::plan::Plan;
use memchr::memchr;
use std::alloc::Global;

/// Reads a bench file: its plan, or its first bad line and that line's first cause from left to right.
pub fn read_bench(alloc: Global, text: &[u8]) -> Result<Plan, ScriptStop>
    requires { length text.now < 2 ^ 32 - 1 }
    ensures { Gives plan_view result (said_plan text.now) }
{
    let mut draft = PlanDraft::new(alloc);
    let mut number: u32 = 1;
    let mut rest = text;
    while !rest.is_empty() {
        let (line, after) = split_line(rest);
        match draft.take(alloc, line) {
            Ok(()) => {}
            Err(stop) => return Err(stop_at(number, stop)),
        }
        number += 1;
        rest = after;
    }
    plan_at_end(number, draft)
}

/// How many bytes stand before the first line feed.
fn line_len(text: &[u8]) -> usize
    ensures value { result ≡ line_len text.now }
    ensures within { result ≤ length text.now }
{
    memchr(b'\n', text).unwrap_or(text.len())
}

/// The first line, and what follows its line feed.
fn split_line(text: &[u8]) -> (&[u8], &[u8])
    ensures line { result.0.now ≡ take (line_len text.now) text.now }
    ensures after { result.1.now ≡ drop (line_len text.now + 1) text.now }
{
    let len = line_len(text);
    if len < text.len() {
        (&text[..len], &text[len + 1..])
    } else {
        (text, &[])
    }
}

/// Why the text is not read, where a line was not taken.
fn stop_at(number: u32, stop: LineStop) -> ScriptStop
    ensures { result ≡ stop_at number stop }
{
    match stop {
        LineStop::Bad(cause) => ScriptStop::Bad(ScriptFault {
            line: number,
            cause,
        }),
        LineStop::Memory => ScriptStop::Memory,
    }
}

/// The plan, where the text may end there.
#[tactic(auto, unfolding(crate::specs::Drafts::plan_at_end))]
fn plan_at_end(number: u32, draft: PlanDraft) -> Result<Plan, ScriptStop>
    ensures { Gives plan_view result (plan_at_end number (progress draft)) }
{
    match draft.place {
        Place::First => Err(ScriptStop::Bad(ScriptFault {
            line: number,
            cause: Cause::FirstLine,
        })),
        Place::Hazards => Ok(Plan {
            scripts: draft.scripts,
            clocks: draft.clocks,
            cache: draft.cache,
            ahead: draft.ahead,
            profile: draft.profile,
            bridge: draft.bridge,
            mem: draft.mem,
            hazards: draft.hazards,
        }),
        _ => Err(ScriptStop::Bad(ScriptFault {
            line: number,
            cause: Cause::Missing,
        })),
    }
}
