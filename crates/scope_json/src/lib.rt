//! What p6scope found of a dump, for machines: an object of JSON, or lines of CSV.
//!
//! `report_text` is the report of a dump that was judged, `refusal_report` and `error_report` those of one that was not, and
//! `findings_table` a line for each broken part. What stands in them is the value of a definition: `specs/` has the members
//! by their names, and docs/reference/report-json.md shows them to users.
//!
//! Next: reason_facts, which has the numbers of a reason, and scope_parts, which found all this.
#![tactic(auto)]

pub use errors::{error_report, refusal_report};
pub use report::{Judging, report_text};
pub use table::findings_table;

mod errors;
mod findings;
mod hints;
mod lines;
mod parts;
mod places;
mod report;
mod table;
mod text;
