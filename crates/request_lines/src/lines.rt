//! The machine.

ghost use Rattle.std.specs.Prelude.{◌≡◌, ◌<◌, ◌≤◌, ◌^◌, ◌∷◌, ◌++◌, ℕ, false, true, [], IfOk, OnOk, filter, length};
ghost use Rattle.fsb_signal.specs.declared.marks.Marks.{Marks as MarksAre};
ghost use Rattle.fsb_trace.specs.At.{Trace};
ghost use Rattle.fsb_trace.specs.Verdict.{verdict};
ghost use Rattle.fsb_rules.specs.Checker.{as_broken};
ghost use Rattle.fsb_owner_feed.specs.Table.{Stands as TableStands, fed};
ghost use Rattle.fsb_recent.specs.Over.{flight_of, is_newly_over, newly_over};
ghost use Rattle.row_texts.specs.declared.line.Form.{Form as FormIs};
ghost use Rattle.row_texts.specs.Lines.{head_text, lines_text};
ghost use Rattle.request_lines.specs.Standing.{IsSound, Stands, is_full};
ghost use Rattle.request_lines.specs.Tables.{over_text, sound_part};

use fsb_io::Memory;
use fsb_owner_feed::Table;
use fsb_owner_table::Row;
use fsb_recent::{is_newly_over, rows_in_flight};
use fsb_rules::{Broken, Checker};
use fsb_signal::{Marks, Sample};
use row_texts::{Form, put_head, put_lines};
use std::alloc::{AllocError, Global};

/// How many samples are fed, at most.
const MOST: u64 = 4_294_967_280;

/// How many are counted, at most.
const MOST_COUNTED: u64 = 4_294_967_295;

/// Hands out the lines of the requests of a trace, up to its first broken phase rule.
#[derive(Drop)]
pub struct RequestLines {
    alloc: Global,
    form: Form,
    checker: Checker,
    /// The requests of the samples before the broken rule.
    table: Table,
    found: Option<Broken>,
}

/// The line of the names, with which each table begins.
pub fn head_line(alloc: Global, form: Form) -> Result<Vec<u8>, Memory>
    ensures { IfOk result (λ text. (before : ℕ) (m : MarksAre) →
        text.items ≡ over_text form before m []) }
{
    let mut text = Vec::new(alloc);
    put_head(&mut text, form)?;
    Ok(text)
}

/// Those of the rows whose requests are newly over in so many clocks.
fn over_now(alloc: Global, rows: &[Row], clocks: u32) -> Result<Vec<Row>, AllocError>
    ensures { IfOk result (λ over.
        over.items ≡ filter (λ row. is_newly_over row clocks) rows.now) }
{
    rows.iter()
        .copied()
        .filter(|row| is_newly_over(row, clocks))
        .collect(alloc)
}

/// The lines of these rows, whose clocks come behind so many.
fn lines_of(alloc: Global, form: Form, rows: &[Row], before: u32) -> Result<Vec<u8>, AllocError>
    ensures { IfOk result (λ text. text.items ≡ lines_text form before rows.now) }
{
    let mut text = Vec::new(alloc);
    put_lines(&mut text, alloc, form, rows, before)?;
    Ok(text)
}

impl RequestLines {
    /// Before the first sample of a dump with these marks. It takes no memory.
    pub fn new(alloc: Global, form: Form, marks: Marks) -> RequestLines
        ensures { Stands result form marks [] }
    {
        RequestLines {
            alloc,
            form,
            checker: Checker::new(marks),
            table: Table::new(alloc),
            found: None,
        }
    }

    /// Whether so many samples were fed that no more are counted.
    pub fn is_full(&self) -> bool
        ensures value { result ≡ is_full self.now }
        ensures many { result ≡ true → (form : FormIs) (m : MarksAre) (w : Trace) →
            Stands self.now form m w → 4294967280 ≤ length w }
    {
        self.found.is_none() && MOST <= self.table.clock()
    }

    /// Takes the next sample, and hands out the lines of the requests that are over with it, where the clocks come behind so
    /// many. With a sample with which a phase rule is broken, and behind it, there are none.
    pub fn feed(&mut self, sample: &Sample, before: u32) -> Result<Vec<u8>, Memory>
        requires stands { (form : FormIs) × (m : MarksAre) × (w : Trace)
            × Stands self.old form m w }
        requires room { is_full self.old ≡ false }
        ensures stands { OnOk result ((form : FormIs) (m : MarksAre) (w : Trace) →
            Stands self.old form m w → Stands self.new form m (w ++ sample.now ∷ [])) }
        ensures text { IfOk result (λ text. (form : FormIs) (m : MarksAre) (w : Trace) →
            Stands self.old form m w → over_text form before m (w ++ sample.now ∷ [])
            ≡ over_text form before m w ++ text.items) }
    {
        if self.found.is_some() {
            return Ok(Vec::new(self.alloc));
        }
        match self.checker.feed(sample) {
            Some(broken) => {
                self.found = Some(broken);
                Ok(Vec::new(self.alloc))
            }
            None => self.take(sample, before),
        }
    }

    // Takes the next sample, with which no phase rule is broken.
    fn take(&mut self, sample: &Sample, before: u32) -> Result<Vec<u8>, Memory>
        requires { fed self.old.table < 4294967280 }
        ensures stands { OnOk result ((form : FormIs) (m : MarksAre) (w : Trace) →
            IsSound self.old form m w sample.now →
            Stands self.new form m (w ++ sample.now ∷ [])) }
        ensures text { IfOk result (λ text. (form : FormIs) (m : MarksAre) (w : Trace) →
            IsSound self.old form m w sample.now → over_text form before m (w ++ sample.now ∷ [])
            ≡ over_text form before m w ++ text.items) }
    {
        self.table.feed(sample)?;
        self.over(before)
    }

    // The lines of the requests that are over with the last sample.
    fn over(&self, before: u32) -> Result<Vec<u8>, Memory>
        requires { fed self.now.table < 2 ^ 32 }
        ensures { IfOk result (λ text. (v : Trace) → TableStands self.now.table v →
            text.items ≡ lines_text self.now.form before (newly_over v)) }
    {
        let clocks = self.table.clock() as u32;
        let rows = over_now(self.alloc, self.table.rows(), clocks)?;
        Ok(lines_of(self.alloc, self.form, &rows, before)?)
    }

    /// The lines of the requests in flight behind the samples that break no phase rule. Where more samples were fed than are
    /// counted, there are none.
    pub fn rest(&self, before: u32) -> Result<Vec<u8>, Memory>
        ensures { IfOk result (λ text. (form : FormIs) (m : MarksAre) (w : Trace) →
            Stands self.now form m w →
            text.items ≡ lines_text form before (flight_of (sound_part m w))) }
    {
        if MOST_COUNTED < self.table.clock() {
            return Ok(Vec::new(self.alloc));
        }
        let rows = rows_in_flight(self.alloc, &self.table)?;
        Ok(lines_of(self.alloc, self.form, &rows, before)?)
    }

    /// The first broken phase rule, if one is.
    pub fn found(&self) -> Option<Broken>
        ensures { (form : FormIs) (m : MarksAre) (w : Trace) → Stands self.now form m w →
            result ≡ as_broken (verdict m w) }
    {
        self.found
    }
}
