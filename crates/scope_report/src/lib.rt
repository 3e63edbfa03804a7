//! What p6scope says of a dump, as text, and how each of its commands ends.
//!
//! `lines_text` tells what a dump declares, `check_text` what was judged and found, `refusal_text` why the wires are not
//! picked and what helps, `fault_text` and its siblings why a dump was not read. Nothing is read here. `status` is the
//! exit status: 0 only where a clock was judged and no rule is broken, or where what was asked for was printed.
//!
//! The line of a verdict has its text in `specs/`, and so has which lines are drawn (`named_by`); the other texts are
//! tested, in rows_program.
//!
//! Next: scope_wiring and scope_parts, whose answers these are.
#![tactic(auto)]

pub use check::check_text;
pub use coherence::{CoherenceTold, coherence_text};
pub use ending::{Ending, ending_of, status};
pub use fault::{fault_text, limit_text, unread_text, unscaled_text};
pub use lines::lines_text;
pub use reasons::{Grounds, named_by};
pub use refusal::refusal_text;
pub use rules::{rule_list, rule_text};
pub use verdict::{put_verdict, verdict_over};
pub use views::views_text;

mod check;
mod coherence;
mod ending;
mod fault;
mod lines;
mod near;
mod notices;
mod parts;
mod reasons;
mod refusal;
mod rules;
mod scale;
mod scopes;
mod text;
mod verdict;
mod views;
