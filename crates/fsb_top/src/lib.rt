//! The top call: from the words of a command line to the printed log and the dump of a run, or to the
//! summary of one; to the verdict on a dump, or to what is audited, told, searched or drawn in it.
//!
//! How a call ends is one relation, `CallEnds` in `specs/CallEnds.antt`, with a row for each form of the
//! words. What a caller hands in and gets back is passed on here. Read fsb_calls next for what follows
//! from the relation, and fsb_headline for the sentence of the README.
#![tactic(auto)]

pub use fsb_command::{Command, Task, Words, read_words};
pub use fsb_hazard::{
    Ask, Choice, Hazard, HazardLine, HazardLines, QuietHazard, ScriptHazard, SeedHazard, Turn,
    quiet_choice,
};
pub use fsb_io::{
    Failed, FileSink, FileSource, MemSink, MemSource, Memory, Sink, Source, StdoutSink, put_all,
};
pub use fsb_play::{Played, Print, play};
pub use fsb_probe::{DataProbe, LineProbe, Probe};
pub use fsb_signal::Sample;
pub use fsb_table::{Row, table};
pub use laws::files_have_one_answer;
pub use status::{Status, code, status_line};
pub use top::{bench, carry_out};

mod audit;
mod check;
mod find;
mod laws;
mod read;
mod run;
mod show;
mod status;
mod stop;
mod told;
mod top;
mod wave;
