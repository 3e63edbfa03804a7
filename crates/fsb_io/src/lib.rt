//! The outside of the bench: where bytes come from, where they go, and numbers as text.
#![tactic(auto)]

pub use file::{FileSink, FileSource, StdoutSink};
pub use mem_sink::MemSink;
pub use mem_source::MemSource;
pub use number::{Line, put_bytes, put_decimal, put_hex, put_text};
pub use read::{ReadStop, read_all};
pub use refusal::{Failed, Memory};
pub use sink::{Sink, put_all};
pub use source::Source;

mod calls;
mod file;
mod mem_sink;
mod mem_source;
mod number;
mod place;
mod read;
mod refusal;
mod sink;
mod source;
