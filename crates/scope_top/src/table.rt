//! `table`: the requests of a dump, a line each.

ghost use Rattle.std.specs.Prelude.{◌≡◌, ◌≢◌, ◌≤◌, Err, IsTrue, IfOk, length};
ghost use Rattle.fsb_io.specs.Faults.{Rose};
ghost use Rattle.scope_words.specs.Orders.{KeepsWires};
ghost use Rattle.scope_top.specs.Ends.{ending_over, ending_tabled};
ghost use Rattle.scope_top.specs.Performing.{EndsTable, EndsTableOf, EndsTabled, EndsTabledAs, form_of};

use crate::answer::{Answer, Stream};
use crate::check::edge_of;
use crate::listed::{Listed, listed_choice};
use crate::pick::cut_text;
use crate::settled::{Settled, settled_part};
use crate::stop::Stop;
use crate::stopped::{PIECE, stop_answer};
use fsb_io::{Sink, Source};
use fsb_rules::Broken;
use row_texts::Form;
use rule_texts::title;
use scope_report::{Ending, refusal_text, unread_text};
use scope_table::{TableFinding, Tabled, TabledPart, table_of};
use scope_watch::{Sampling, ScopeStop};
use scope_wiring::Choice;
use scope_words::{Part, TableForm, Wires};
use std::alloc::{AllocError, Global};

/// Writes the requests of the part of a dump that the words name to the sink, and tells where their table ends early.
pub(crate) fn table_answer<L: Source, S: Source, O: Sink>(
    alloc: Global,
    name: &str,
    wires: Wires<'_>,
    words: &Part,
    form: TableForm,
    named: &mut L,
    dump: &mut S,
    out: &mut O,
) -> Result<Answer, Stop>
    requires named { length name.now ≤ 4096 }
    requires wires { KeepsWires wires }
    ensures ends { IsTrue L.tells → IsTrue S.tells → IsTrue O.tells → IfOk result (λ answer.
        EndsTable wires.entry words.now form (L.holds named.old) (S.holds dump.old)
        (O.holds out.old) (O.holds out.new) answer.ending) }
    ensures lines_fault { result ≡ Err Stop.Lines →
        Rose (L.faults named.old) (L.faults named.new) }
    ensures dump_fault { result ≡ Err Stop.Dump → Rose (S.faults dump.old) (S.faults dump.new) }
    ensures out_fault { IsTrue S.tells → result ≡ Err Stop.Out →
        Rose (O.faults out.old) (O.faults out.new) }
{
    let sampling = Sampling {
        edge: edge_of(wires.edge),
        takes_first: wires.is_first,
        late: wires.after,
    };
    match listed_choice(alloc, wires.choice, wires.file, named)? {
        Listed::Unlisted(answer) => Ok(answer),
        Listed::Chosen(choice) => {
            let form = form_of(form);
            parted_answer(alloc, name, &choice, words, form, sampling, dump, out)
        }
    }
}

fn form_of(form: TableForm) -> Form
    ensures { result ≡ form_of form }
{
    match form {
        TableForm::Text => Form::Text,
        TableForm::Csv => Form::Csv,
    }
}

// Writes the requests of the part that the words name, of a dump whose wires are chosen so.
fn parted_answer<S: Source, O: Sink>(
    alloc: Global,
    name: &str,
    choice: &Choice,
    words: &Part,
    form: Form,
    sampling: Sampling,
    dump: &mut S,
    out: &mut O,
) -> Result<Answer, Stop>
    requires { length name.now ≤ 4096 }
    ensures ends { IsTrue S.tells → IsTrue O.tells → IfOk result (λ answer.
        EndsTableOf words.now form sampling (S.holds dump.old) (O.holds out.old)
        (O.holds out.new) choice.now answer.ending) }
    ensures not_lines { result ≢ Err Stop.Lines }
    ensures dump_fault { result ≡ Err Stop.Dump → Rose (S.faults dump.old) (S.faults dump.new) }
    ensures out_fault { IsTrue S.tells → result ≡ Err Stop.Out →
        Rose (O.faults out.old) (O.faults out.new) }
{
    match settled_part(alloc, name, words, dump)? {
        Settled::Unsettled(answer) => Ok(answer),
        Settled::Part(part) => {
            tabled_answer(alloc, name, choice, part, form, sampling, dump, out)
        }
    }
}

// Writes the requests of this part of a dump whose wires are chosen so.
fn tabled_answer<S: Source, O: Sink>(
    alloc: Global,
    name: &str,
    choice: &Choice,
    part: scope_check::Part,
    form: Form,
    sampling: Sampling,
    dump: &mut S,
    out: &mut O,
) -> Result<Answer, Stop>
    requires { length name.now ≤ 4096 }
    ensures ends { IsTrue S.tells → IsTrue O.tells → IfOk result (λ answer.
        EndsTabled choice.now form sampling (S.holds dump.old) (O.holds out.old)
        (O.holds out.new) part answer.ending) }
    ensures not_lines { result ≢ Err Stop.Lines }
    ensures dump_fault { result ≡ Err Stop.Dump → Rose (S.faults dump.old) (S.faults dump.new) }
    ensures out_fault { IsTrue S.tells → result ≡ Err Stop.Out →
        Rose (O.faults out.old) (O.faults out.new) }
{
    let mut room = vec![in alloc; 0; PIECE]?;
    let end = table_of(
        alloc, name, dump, &mut room, choice, part, form, sampling, out,
    );
    end_answer(alloc, name, choice, end)
}

// Tells how a table ended.
fn end_answer(
    alloc: Global,
    name: &str,
    choice: &Choice,
    end: Result<Tabled, ScopeStop>,
) -> Result<Answer, Stop>
    ensures ends { IfOk result (λ answer. EndsTabledAs end answer.ending) }
    ensures not_lines { result ≢ Err Stop.Lines }
    ensures dump_fault { result ≡ Err Stop.Dump → end ≡ Err ScopeStop.ReadFault }
    ensures out_fault { result ≡ Err Stop.Out → end ≡ Err ScopeStop.WriteFault }
{
    match end {
        Ok(tabled) => Ok(told_answer(alloc, name, choice, &tabled)?),
        Err(ScopeStop::WriteFault) => Err(Stop::Out),
        Err(stop) => stop_answer(alloc, name, stop),
    }
}

// Tells where a table ends early.
fn told_answer(
    alloc: Global,
    name: &str,
    choice: &Choice,
    tabled: &Tabled,
) -> Result<Answer, AllocError>
    ensures { IfOk result (λ answer. answer.ending ≡ ending_tabled tabled.now.finding) }
{
    let ending = ending_tabled(&tabled.finding);
    let text = told_text(alloc, name, choice, tabled)?;
    Ok(Answer {
        ending,
        stream: Stream::Err,
        text,
    })
}

// The text of what is not in a table.
fn told_text(
    alloc: Global,
    name: &str,
    choice: &Choice,
    tabled: &Tabled,
) -> Result<Vec<u8>, AllocError> {
    match &tabled.finding {
        TableFinding::Refused(refusal) => {
            refusal_text(alloc, name, &tabled.header.variables, choice, refusal)
        }
        TableFinding::Tabled(_, told) => tabled_text(alloc, name, told),
    }
}

// The text of what is not in the table of a part: it is broken, or has no clock; and what is cut of its dump.
fn tabled_text(alloc: Global, name: &str, told: &TabledPart) -> Result<Vec<u8>, AllocError> {
    let mut text = match told.found {
        Some(broken) => broken_text(alloc, name, told.start, broken)?,
        None => clocks_text(alloc, name, told.clocks)?,
    };
    if let Some(end) = told.early_end {
        let place = end.open_from.unwrap_or(end.fault.place);
        text.extend_from_slice(&cut_text(alloc, name, place)?)?;
    }
    Ok(text)
}

// The text of a table of so many clocks: nothing, where there is one.
fn clocks_text(alloc: Global, name: &str, clocks: u64) -> Result<Vec<u8>, AllocError> {
    if clocks == 0 {
        unread_text(
            alloc,
            name,
            "no clock of the part is there, so no request is: p6scope check tells why",
        )
    } else {
        Ok(Vec::new(alloc))
    }
}

// The text of a table that ends at this broken rule, in a part that begins at this clock.
fn broken_text(
    alloc: Global,
    name: &str,
    start: u64,
    broken: Broken,
) -> Result<Vec<u8>, AllocError> {
    let clock = start.saturating_add(u64::from(broken.clock));
    let rule = broken.rule;
    let title = title(rule).unwrap_or("");
    let reason = format!(in alloc;
        "a rule is broken at clock {clock}: rule {rule}, {title}; the table ends there"
    )?;
    unread_text(alloc, name, reason.as_str())
}

/// How a table ends that was written so.
pub fn ending_tabled(finding: &TableFinding) -> Ending
    ensures { result ≡ ending_tabled finding.now }
{
    match finding {
        TableFinding::Refused(_) => Ending::Unjudged,
        TableFinding::Tabled(_, told) => ending_over(told.clocks, told.found),
    }
}

// How the table of a part of so many clocks ends, in which this phase rule is broken first, if one is.
fn ending_over(clocks: u64, found: Option<Broken>) -> Ending
    ensures { result ≡ ending_over clocks found }
{
    match found {
        Some(_) => Ending::Broken,
        None => {
            if clocks == 0 {
                Ending::Unjudged
            } else {
                Ending::Clean
            }
        }
    }
}
