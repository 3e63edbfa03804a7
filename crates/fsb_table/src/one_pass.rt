//! The table of a trace.
ghost use Rattle.std.specs.Prelude.{◌≡◌, ◌<◌, ◌^◌, None, length, IfOk};
ghost use Rattle.fsb_trace.specs.Verdict.{verdict};
ghost use Rattle.fsb_table.specs.Rows.{rows_of};

use crate::going::Going;
use crate::row::Row;
use fsb_arbiter::Arbiter;
use fsb_io::Memory;
use fsb_signal::{Lines, Marks, Sample};
use fsb_trace::seen_at;
use std::alloc::Global;

/// The table of a trace that breaks no rule, of a dump with these marks: a row for each request, in
/// order.
///
/// Where no rule is broken, snoops and transfers do not overlap, so each sample is looked at a few
/// times, however many requests there are.
pub fn table(alloc: Global, marks: Marks, w: &[Sample]) -> Result<Vec<Row>, Memory>
    requires few { length w.now < 2 ^ 32 }
    requires accepted { verdict marks w.now ≡ None }
    ensures { IfOk result (λ rows. rows.items ≡ rows_of w.now) }
{
    let _ = marks;
    let mut rows = Vec::new(alloc);
    let mut arbiter = Arbiter::new();
    let mut going = Going::new();
    for q in 0..w.len() {
        let sample = &w[q];
        if sample.has(Lines::ADS) {
            let seen = seen_at(w, q, arbiter.winner());
            rows.push(going.row(w, seen))?;
        }
        arbiter.absorb(sample);
    }
    Ok(rows)
}
