//! Lines of text that are read and written, worked out by hand: tests of `fsb_script`, `fsb_report`, `fsb_wave`, `fsb_trigger`,
//! `fsb_probe` and `fsb_command`.
//!
//! `scripts` has bench files that are read or refused, `plans` those that are written and made, `settings` the memory lines;
//! `reports`, `waves` and `triggers` go over the worked waveforms of rows_store, `probes` over four samples, and `commands` over
//! the words of command lines.
//!
//! Nothing is promised. Read rows_texts next, which has the texts of dumps.
#![tactic(auto)]

#[cfg(test)]
mod commands;
#[cfg(test)]
mod plans;
#[cfg(test)]
mod probes;
#[cfg(test)]
mod reports;
#[cfg(test)]
mod scripts;
#[cfg(test)]
mod settings;
#[cfg(test)]
mod triggers;
#[cfg(test)]
mod waves;
