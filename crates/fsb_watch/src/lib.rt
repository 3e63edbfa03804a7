//! The reading of a dump in pieces, each parsed as it comes, and its samples shown to a watcher one after another.
//!
//! By the code, though no contract says it, no trace is kept. After a fault of the text the rest is still read, so that a
//! fault of the source or too long a file is told before it. A [`Watcher`] keeps what it wants of the samples; each
//! command that looks at a dump has one.
#![tactic(auto)]

pub use stop::DumpStop;
pub use watch::watch_dump;
pub use watcher::Watcher;

mod pieces;
mod show;
mod stop;
mod watch;
mod watcher;
