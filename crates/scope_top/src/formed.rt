//! Reports in the form that an order asks for.

ghost use Rattle.std.specs.Prelude.{◌≡◌, IfOk};
ghost use Rattle.scope_top.specs.Ends.{ending_found};

use crate::answer::{Answer, Stream};
use crate::check::ending_found;
use scope_check::Verdict;
use scope_json::{Judging, error_report, findings_table, refusal_report, report_text};
use scope_parts::PartsFound;
use scope_report::{Grounds, check_text, refusal_text, verdict_over};
use scope_tries::{Hint, hints_text};
use scope_watch::{Checked, Finding, Sampling};
use scope_wiring::Choice;
use scope_words::Format;
use std::alloc::{AllocError, Global};

/// What was found of a dump, and how.
#[derive(Clone, Copy)]
pub(crate) struct Report<'a> {
    pub(crate) name: &'a str,
    pub(crate) choice: &'a Choice,
    pub(crate) sampling: &'a Sampling,
    pub(crate) checked: &'a Checked,
    pub(crate) grounds: &'a Grounds,
    pub(crate) hints: &'a [Hint],
}

/// Tells what was found, in this form.
pub(crate) fn found_answer(
    alloc: Global,
    format: Format,
    report: &Report<'_>,
) -> Result<Answer, AllocError>
    ensures { IfOk result (λ answer. answer.ending ≡ ending_found report.now.checked.now.finding) }
{
    let ending = ending_found(&report.checked.finding);
    let (stream, text) = match format {
        Format::Text => plain_text(alloc, report)?,
        Format::Json => (Stream::Out, object_text(alloc, report)?),
        Format::Csv => table_text(alloc, report)?,
    };
    Ok(Answer {
        ending,
        stream,
        text,
    })
}

// The text for people, and where it goes.
fn plain_text(alloc: Global, report: &Report<'_>) -> Result<(Stream, Vec<u8>), AllocError> {
    let header = &report.checked.header;
    match &report.checked.finding {
        Finding::Refused(refusal) => {
            let variables = &header.variables;
            let text = refusal_text(alloc, report.name, variables, report.choice, refusal)?;
            Ok((Stream::Err, text))
        }
        Finding::Judged(wiring, told) => {
            let mut text = check_text(
                alloc,
                report.name,
                &header.variables,
                &header.remarks,
                report.choice,
                wiring,
                &told.judged,
                told.early_end,
                told.limit,
                &told.last,
                report.grounds,
            )?;
            let hints = hints_text(alloc, report.hints)?;
            text.extend_from_slice(hints.as_bytes())?;
            Ok((Stream::Out, text))
        }
    }
}

// The object of JSON.
fn object_text(alloc: Global, report: &Report<'_>) -> Result<Vec<u8>, AllocError> {
    let header = &report.checked.header;
    match &report.checked.finding {
        Finding::Refused(refusal) => {
            refusal_report(
                alloc,
                report.name,
                &header.variables,
                report.choice,
                refusal,
            )
        }
        Finding::Judged(wiring, told) => report_text(
            alloc,
            &Judging {
                file: report.name,
                header,
                choice: report.choice,
                sampling: report.sampling,
                wiring,
                told,
                reasons: report.grounds.sentences.as_slice(),
                around: &report.grounds.around,
                before: report.grounds.before,
                hints: report.hints,
            },
        ),
    }
}

// The lines of CSV. A refusal is a text for people, and so is why nothing could be judged.
fn table_text(alloc: Global, report: &Report<'_>) -> Result<(Stream, Vec<u8>), AllocError> {
    match &report.checked.finding {
        Finding::Refused(_) => plain_text(alloc, report),
        Finding::Judged(_, told) => judged_lines(alloc, report, &told.judged),
    }
}

fn judged_lines(
    alloc: Global,
    report: &Report<'_>,
    judged: &PartsFound,
) -> Result<(Stream, Vec<u8>), AllocError> {
    if let Verdict::Nothing = verdict_over(judged) {
        let (_, text) = plain_text(alloc, report)?;
        return Ok((Stream::Err, text));
    }
    let faults = judged.faults.as_slice();
    let sentences = report.grounds.sentences.as_slice();
    Ok((
        Stream::Out,
        findings_table(alloc, report.name, faults, sentences)?,
    ))
}

/// A refusal in this form: an object of JSON goes to where an answer goes.
pub(crate) fn formed(
    alloc: Global,
    format: Format,
    name: &str,
    answer: Answer,
) -> Result<Answer, AllocError>
    ensures { IfOk result (λ formed. formed.ending ≡ answer.ending) }
{
    if format == Format::Json && answer.stream == Stream::Err {
        return Ok(Answer {
            ending: answer.ending,
            stream: Stream::Out,
            text: error_report(alloc, name, &answer.text)?,
        });
    }
    Ok(answer)
}
