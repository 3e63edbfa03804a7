//! What was found, part by part.

ghost use Rattle.std.specs.Prelude.{◌≡◌, IfOk, OnOk};
ghost use Rattle.serde_json.specs.View.{members_view, view};
ghost use Rattle.scope_json.specs.Findings.{broken_at, broken_data, reason_data, with_rule};

use crate::places::put_place;
use reason_facts::{facts_value, kind_of, put_count, put_word};
use reason_texts::Sentence;
use rule_texts::title;
use scope_check::Verdict;
use scope_parts::PartFound;
use scope_time::Scale;
use serde_json::{Map, Value, put};
use std::alloc::{AllocError, Global};
use vcd_course::Stamp;

/// The title of a rule; none where there is no such rule.
pub(crate) fn title_of(rule: u8) -> &'static str {
    match title(rule) {
        None => "",
        Some(title) => title,
    }
}

// Puts a rule with its title.
fn put_rule(
    object: &mut Map<String, Value>,
    alloc: Global,
    rule: u8,
    title: &str,
) -> Result<(), AllocError>
    ensures { OnOk result (members_view object.new.entries
        ≡ with_rule rule title.now (members_view object.old.entries)) }
{
    put_count(object, alloc, "rule", u64::from(rule))?;
    put_word(object, alloc, "title", title)
}

// A reason, whose sentence and title are these: its rule, its kind, and the numbers that it rests on.
#[tactic(auto, unfolding(crate::specs::Findings::reason_data))]
fn reason_value(
    alloc: Global,
    reason: &Sentence,
    sentence: &str,
    title: &str,
) -> Result<Value, AllocError>
    ensures { IfOk result (λ v. view v ≡ reason_data reason.now sentence.now title.now) }
{
    let mut object = Map::new(alloc);
    put_rule(&mut object, alloc, reason.reason.rule(), title)?;
    put_word(&mut object, alloc, "kind", kind_of(&reason.reason))?;
    put_word(&mut object, alloc, "sentence", sentence)?;
    let facts = facts_value(alloc, reason.clock, &reason.reason)?;
    put(&mut object, alloc, "facts", facts)?;
    Ok(Value::Object(object))
}

// The reasons, in order.
fn reasons_value(alloc: Global, reasons: &[Sentence]) -> Result<Value, AllocError> {
    let mut list = Vec::new(alloc);
    for reason in reasons {
        let sentence = format!(in alloc; "{reason}")?;
        let title = title_of(reason.reason.rule());
        list.push(reason_value(alloc, reason, sentence.as_str(), title)?)?;
    }
    Ok(Value::Array(list))
}

// A rule that is broken at this clock, with this title and these reasons.
#[tactic(auto, unfolding(crate::specs::Findings::broken_at))]
fn broken_at(
    alloc: Global,
    scale: Option<Scale>,
    start: u64,
    clock: u64,
    rule: u8,
    stamp: Option<Stamp>,
    title: &str,
    reasons: Value,
) -> Result<Value, AllocError>
    ensures { IfOk result (λ v. view v
        ≡ broken_at scale start clock rule stamp title.now (view reasons)) }
{
    let mut object = Map::new(alloc);
    put_count(&mut object, alloc, "part_start", start)?;
    put_count(&mut object, alloc, "clock", clock)?;
    put_rule(&mut object, alloc, rule, title)?;
    put_place(&mut object, alloc, scale, stamp)?;
    put(&mut object, alloc, "reasons", reasons)?;
    Ok(Value::Object(object))
}

// A broken part with this title and these reasons.
fn broken_value(
    alloc: Global,
    fault: &PartFound,
    scale: Option<Scale>,
    title: &str,
    reasons: Value,
) -> Result<Value, AllocError>
    ensures { IfOk result (λ v. view v
        ≡ broken_data scale fault.now.start fault.now.verdict title.now (view reasons)) }
{
    match fault.verdict {
        Verdict::Nothing | Verdict::Accepted => Ok(Value::Null),
        Verdict::Broken { clock, rule, stamp } => {
            broken_at(
                alloc,
                scale,
                fault.start,
                clock,
                rule,
                stamp,
                title,
                reasons,
            )
        }
    }
}

// The title of the rule that a part breaks.
fn fault_title(fault: &PartFound) -> &'static str {
    match fault.verdict {
        Verdict::Nothing | Verdict::Accepted => "",
        Verdict::Broken { rule, .. } => title_of(rule),
    }
}

/// The broken parts, in order; the reasons are those of the first one.
pub(crate) fn findings_value(
    alloc: Global,
    faults: &[PartFound],
    scale: Option<Scale>,
    reasons: &[Sentence],
) -> Result<Value, AllocError> {
    let mut list = Vec::new(alloc);
    if let Some((first, rest)) = faults.split_first() {
        let reasons = reasons_value(alloc, reasons)?;
        let title = fault_title(first);
        list.push(broken_value(alloc, first, scale, title, reasons)?)?;
        put_later(&mut list, alloc, rest, scale)?;
    }
    Ok(Value::Array(list))
}

// Appends broken parts whose reasons are not looked for.
fn put_later(
    list: &mut Vec<Value>,
    alloc: Global,
    faults: &[PartFound],
    scale: Option<Scale>,
) -> Result<(), AllocError> {
    for fault in faults {
        let none = Value::Array(Vec::new(alloc));
        let title = fault_title(fault);
        list.push(broken_value(alloc, fault, scale, title, none)?)?;
    }
    Ok(())
}
