//! The reading of a dump of any tool: its header, the wires that are picked of it, and the events of its values, shown
//! to a watcher one after another.
//!
//! `read_header` reads up to the end of the header, `pick_bus` picks the wires among its variables, `watch_values` reads
//! on to the end of the source, and `check_dump` does all of it with the judge as the watcher. What is answered is what
//! vcd_way defines of the whole text in the way of the picked wires; of a dump that ends early, of what is whole of it.
//! Of the events the last few samples are kept: memory does not grow with them.
//!
//! Next: scope_wiring, which picks, vcd_scan, which reads values, and scope_check, which judges.
#![tactic(auto)]

pub use begin::read_header;
pub use bus::{Bus, Picked, marks_of, pick_bus};
pub use check::{Checked, Finding, JudgedText, check_dump, judge_values};
pub use header::{Begun, Behind, Header};
pub use stop::{ScopeStop, WatchStop};
pub use values::{Ended, Sampling, watch_values};
pub use watcher::EventWatcher;

mod begin;
mod bus;
mod check;
mod feed;
mod header;
mod laws;
mod parts;
mod piece;
mod preface;
mod stop;
mod values;
mod watcher;
