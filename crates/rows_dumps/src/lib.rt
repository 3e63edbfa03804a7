//! Worked waveforms, written as dumps, and what verdicts, audits and tables tell of them: tests of `fsb_check`, `fsb_audit`,
//! `fsb_audit_dump`, `fsb_table` and `fsb_show`.
//!
//! `audits` and `tables` go over the waveforms of rows_store, `audited_dumps` and `shown` over their dumps, `checked_dumps` over
//! dumps of other tools too. `written` is the one way in which tests, here and above, write the dump of a waveform. Nothing is
//! promised. rows_calls has one such dump for each way in which a command ends.
#![tactic(auto)]

pub use dumps::written;

#[cfg(test)]
mod audited_dumps;
#[cfg(test)]
mod audits;
#[cfg(test)]
mod checked_dumps;
mod dumps;
#[cfg(test)]
mod shown;
#[cfg(test)]
mod tables;
