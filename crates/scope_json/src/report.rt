//! The report of a dump that was judged.

ghost use Rattle.std.specs.Prelude.{◌≡◌, IfOk, OnOk};
ghost use Rattle.serde_json.specs.View.{members_view, view};
ghost use Rattle.scope_report.specs.Endings.{ending_after, verdict_over};
ghost use Rattle.scope_json.specs.Reports.{IsLineOf, scale_data, with_head, with_verdict};

use crate::findings::findings_value;
use crate::hints::hints_value;
use crate::lines::{lines_beside, lines_value};
use crate::parts::{parts_value, verdict_word};
use crate::places::{put_place, unit_name};
use crate::text::text_value;
use fsb_recent::Around;
use reason_facts::{maybe, put_count, put_flag, put_word};
use reason_texts::Sentence;
use request_facts::put_requests;
use scope_parts::PartsFound;
use scope_pick::Variable;
use scope_report::{Ending, ending_of, status, verdict_over};
use scope_time::{Scale, factor_of, scale_of};
use scope_tries::Hint;
use scope_watch::{Header, JudgedText, Sampling};
use scope_wiring::{Choice, Home, Wiring};
use serde_json::{Map, Value, put};
use std::alloc::{AllocError, Global};
use vcd_way::Edge;

/// The number of this form of reports.
const SCHEMA: u64 = 1;

/// What was judged of a dump, and found.
#[derive(Clone, Copy)]
pub struct Judging<'a> {
    pub file: &'a str,
    pub header: &'a Header,
    pub choice: &'a Choice,
    pub sampling: &'a Sampling,
    pub wiring: &'a Wiring,
    pub told: &'a JudgedText,
    /// The reasons of the first broken clock.
    pub reasons: &'a [Sentence],
    /// The requests around that clock.
    pub around: &'a Around,
    /// How many clocks of the dump come before those of these requests.
    pub before: u32,
    /// The ways in which a rejected dump gets further.
    pub hints: &'a [Hint],
}

/// The report of a dump that was judged, in one line.
pub fn report_text(alloc: Global, judging: &Judging<'_>) -> Result<Vec<u8>, AllocError> {
    let value = report_value(alloc, judging)?;
    line_of(alloc, &value)
}

/// A value as a line of text.
pub(crate) fn line_of(alloc: Global, value: &Value) -> Result<Vec<u8>, AllocError>
    ensures { IfOk result (λ text. IsLineOf text.items (view value.now)) }
{
    let text = value.to_string(alloc)?;
    let mut line = Vec::from_slice(alloc, text.as_bytes())?;
    line.push(b'\n')?;
    Ok(line)
}

// The report as an object.
fn report_value(alloc: Global, judging: &Judging<'_>) -> Result<Value, AllocError> {
    let found = &judging.told.judged;
    let scale = scale_of(alloc, &judging.header.remarks)?;
    let mut object = Map::new(alloc);
    put_head(
        &mut object,
        alloc,
        judging.file,
        ending_of(&verdict_over(found)),
    )?;
    put_wires(&mut object, alloc, judging)?;
    put_sampling(&mut object, alloc, judging.sampling)?;
    put(&mut object, alloc, "timescale", scale_value(alloc, scale)?)?;
    put_verdict(&mut object, alloc, found)?;
    let faults = found.faults.as_slice();
    let findings = findings_value(alloc, faults, scale, judging.reasons)?;
    put(&mut object, alloc, "findings", findings)?;
    put_requests(&mut object, alloc, judging.before, judging.around)?;
    put(
        &mut object,
        alloc,
        "hints",
        hints_value(alloc, judging.hints)?,
    )?;
    put_holes(&mut object, alloc, found, scale)?;
    put_ends(&mut object, alloc, judging.told)?;
    Ok(Value::Object(object))
}

/// Puts what each report begins with: the number of its form, the file and the exit status.
pub(crate) fn put_head(
    object: &mut Map<String, Value>,
    alloc: Global,
    file: &str,
    ending: Ending,
) -> Result<(), AllocError>
    ensures { OnOk result (members_view object.new.entries
        ≡ with_head file.now ending (members_view object.old.entries)) }
{
    put_count(object, alloc, "schema", SCHEMA)?;
    put_word(object, alloc, "file", file)?;
    put_count(object, alloc, "status", u64::from(status(ending)))
}

// Puts the scope, the lines that are not there, and those that are left out.
fn put_wires(
    object: &mut Map<String, Value>,
    alloc: Global,
    judging: &Judging<'_>,
) -> Result<(), AllocError> {
    let without = judging.choice.without.as_slice();
    let scope = scope_value(alloc, &judging.header.variables, judging.wiring.home)?;
    let absent = lines_beside(alloc, &judging.wiring.absent, without)?;
    put(object, alloc, "scope", scope)?;
    put(object, alloc, "absent", absent)?;
    put(object, alloc, "left_out", lines_value(alloc, without)?)
}

// The path of the scope that was judged, or null where each line was named.
fn scope_value(alloc: Global, variables: &[Variable], home: Home) -> Result<Value, AllocError> {
    match home {
        Home::Nowhere | Home::Refused(_) => Ok(Value::Null),
        Home::At(scope) => path_value(alloc, variables, scope),
    }
}

/// The path of the scope of a variable; the root is a dot.
pub(crate) fn path_value(
    alloc: Global,
    variables: &[Variable],
    scope: usize,
) -> Result<Value, AllocError> {
    match variables.get(scope) {
        None => Ok(Value::Null),
        Some(variable) => {
            if variable.scope.is_empty() {
                Value::try_from_str(alloc, ".")
            } else {
                text_value(alloc, &variable.scope)
            }
        }
    }
}

// Puts when the lines are sampled.
fn put_sampling(
    object: &mut Map<String, Value>,
    alloc: Global,
    sampling: &Sampling,
) -> Result<(), AllocError> {
    put_word(object, alloc, "edge", edge_word(sampling.edge))?;
    put_flag(object, alloc, "first", sampling.takes_first)?;
    put(object, alloc, "after", lines_value(alloc, &sampling.late)?)
}

fn edge_word(edge: Edge) -> &'static str {
    match edge {
        Edge::Rising => "rise",
        Edge::Falling => "fall",
    }
}

// How long a step of the dump is.
#[tactic(auto, unfolding(crate::specs::Reports::scale_data))]
fn scale_value(alloc: Global, scale: Option<Scale>) -> Result<Value, AllocError>
    ensures { IfOk result (λ v. view v ≡ scale_data scale) }
{
    match scale {
        None => Ok(Value::Null),
        Some(scale) => {
            let mut object = Map::new(alloc);
            put_count(&mut object, alloc, "factor", factor_of(scale.factor))?;
            put_word(&mut object, alloc, "unit", unit_name(scale.unit))?;
            Ok(Value::Object(object))
        }
    }
}

// Puts the verdict, and how many clocks and parts there are.
fn put_verdict(
    object: &mut Map<String, Value>,
    alloc: Global,
    found: &PartsFound,
) -> Result<(), AllocError>
    ensures { OnOk result (members_view object.new.entries
        ≡ with_verdict found.now (members_view object.old.entries)) }
{
    put_word(object, alloc, "verdict", verdict_word(&verdict_over(found)))?;
    put_count(object, alloc, "clocks", found.clocks)?;
    put_count(object, alloc, "judged", found.judged)?;
    put_count(object, alloc, "part_count", found.parts)?;
    put_count(object, alloc, "broken_count", u64::from(found.broken))?;
    let parts = parts_value(alloc, found.first.as_slice())?;
    put(object, alloc, "parts", parts)
}

// Puts how often the dump stops, and where it does so first.
fn put_holes(
    object: &mut Map<String, Value>,
    alloc: Global,
    found: &PartsFound,
    scale: Option<Scale>,
) -> Result<(), AllocError> {
    put_count(object, alloc, "holes", found.holes)?;
    let first = match found.first_hole {
        None => Value::Null,
        Some(stamp) => {
            let mut place = Map::new(alloc);
            put_place(&mut place, alloc, scale, Some(stamp))?;
            Value::Object(place)
        }
    };
    put(object, alloc, "first_hole", first)
}

// Puts where a file is cut, and where it says that the simulator's limit is exceeded.
fn put_ends(
    object: &mut Map<String, Value>,
    alloc: Global,
    told: &JudgedText,
) -> Result<(), AllocError> {
    let cut = match told.early_end {
        None => None,
        Some(end) => Some(end.open_from.unwrap_or(end.fault.place)),
    };
    put(object, alloc, "cut_at", maybe(cut))?;
    put(object, alloc, "limit_at", maybe(told.limit))
}
