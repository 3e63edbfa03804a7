//! The bench file: its text, its plan, and the first fault of a text that is no bench file; and the plan of a seed.
#![tactic(auto)]

pub use fault::{Cause, ScriptFault, ScriptStop};
pub use lawful::is_lawful_script;
pub use laws::one_answer;
pub use made::plan_of;
pub use plan::{Plan, Scripts, Settings, Window};
pub use read::read_bench;
pub use write::write_bench;

mod bounds;
mod draft;
mod fault;
mod lawful;
mod laws;
mod line;
mod made;
mod place;
mod plan;
mod read;
mod statement;
mod word;
mod write;
