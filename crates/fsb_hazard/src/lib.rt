//! Hazards: what may go wrong or take longer on the bus, as choices, as lines of a bench file, and as objects that are
//! asked.
#![tactic(auto)]

pub use asking::{ask_all, load_all};
pub use choice::{Ask, Choice, Turn, effective, join, join_laws, quiet_choice};
pub use entry::{entry_laws, entry_of};
pub use hazard::Hazard;
pub use kinds::{QuietHazard, ScriptHazard, SeedHazard};
pub use line::{HazardLine, HazardLines};
pub use seed::{next_state, seed_entry, seed_line};

mod asking;
mod choice;
mod entry;
mod found;
mod hazard;
mod kinds;
mod line;
mod seed;
