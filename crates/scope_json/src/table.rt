//! The table of findings.

ghost use Rattle.std.specs.Prelude.{◌≡◌, IfOk};
ghost use Rattle.csv.specs.Records.{fields_of};
ghost use Rattle.csv.specs.Writing.{default_writer, row_text};

use crate::findings::title_of;
use csv::{ByteRecord, WriterBuilder};
use reason_facts::{facts_value, kind_of};
use reason_texts::Sentence;
use scope_check::Verdict;
use scope_parts::PartFound;
use std::alloc::{AllocError, Global};
use vcd_course::Stamp;

/// A line with the names of the columns, and a line for each broken part; the reason is that of the first one.
pub fn findings_table(
    alloc: Global,
    file: &str,
    faults: &[PartFound],
    reasons: &[Sentence],
) -> Result<Vec<u8>, AllocError> {
    let mut text = Vec::from_slice(alloc, HEAD)?;
    if let Some((first, rest)) = faults.split_first() {
        put_row(&mut text, alloc, file, first, reasons.first())?;
        for fault in rest {
            put_row(&mut text, alloc, file, fault, None)?;
        }
    }
    Ok(text)
}

const HEAD: &[u8] = b"file,clock,step,line,rule,title,kind,sentence,facts\n";

// Appends the line of a broken part.
fn put_row(
    text: &mut Vec<u8>,
    alloc: Global,
    file: &str,
    fault: &PartFound,
    reason: Option<&Sentence>,
) -> Result<(), AllocError> {
    match fault.verdict {
        Verdict::Nothing | Verdict::Accepted => Ok(()),
        Verdict::Broken { clock, rule, stamp } => {
            let mut fields = ByteRecord::new(alloc);
            fields.push_field(file.as_bytes())?;
            push_number(&mut fields, alloc, clock)?;
            push_stamp(&mut fields, alloc, stamp)?;
            push_number(&mut fields, alloc, u64::from(rule))?;
            fields.push_field(title_of(rule).as_bytes())?;
            push_reason(&mut fields, alloc, reason)?;
            let row = row_bytes(alloc, &fields)?;
            text.extend_from_slice(&row)
        }
    }
}

fn push_number(fields: &mut ByteRecord, alloc: Global, number: u64) -> Result<(), AllocError> {
    let digits = format!(in alloc; "{number}")?;
    fields.push_field(digits.as_bytes())
}

// Appends the step and the line, or two empty fields.
fn push_stamp(
    fields: &mut ByteRecord,
    alloc: Global,
    stamp: Option<Stamp>,
) -> Result<(), AllocError> {
    match stamp {
        None => {
            fields.push_field(b"")?;
            fields.push_field(b"")
        }
        Some(stamp) => {
            push_number(fields, alloc, stamp.time)?;
            push_number(fields, alloc, stamp.line)
        }
    }
}

// Appends the kind, the sentence and the numbers of a reason, or three empty fields.
fn push_reason(
    fields: &mut ByteRecord,
    alloc: Global,
    reason: Option<&Sentence>,
) -> Result<(), AllocError> {
    match reason {
        None => {
            fields.push_field(b"")?;
            fields.push_field(b"")?;
            fields.push_field(b"")
        }
        Some(reason) => {
            let sentence = format!(in alloc; "{reason}")?;
            let facts = facts_value(alloc, reason.clock, &reason.reason)?.to_string(alloc)?;
            fields.push_field(kind_of(&reason.reason).as_bytes())?;
            fields.push_field(sentence.as_bytes())?;
            fields.push_field(facts.as_bytes())
        }
    }
}

// The text of one record.
fn row_bytes(alloc: Global, fields: &ByteRecord) -> Result<Vec<u8>, AllocError>
    ensures { IfOk result (λ v. v.items ≡ row_text default_writer (fields_of fields.now)) }
{
    let mut writer = WriterBuilder::new().from_writer(Vec::new(alloc));
    if writer.write_byte_record(fields).is_err() {
        return Err(AllocError);
    }
    match writer.into_inner() {
        Ok(text) => Ok(text),
        Err(_) => Err(AllocError),
    }
}
