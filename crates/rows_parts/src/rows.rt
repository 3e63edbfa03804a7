//! What the tables share.

use std::process::Abort;

/// Asserts that a step of a row is as expected. The steps only tell whether they are: one place that stops is proved once.
pub(crate) fn expect(rt: &impl Abort, name: &str, step: usize, holds: bool) {
    assert!(rt; holds, "{name}, step {step}");
}
