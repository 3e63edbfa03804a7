//! Reading a value change dump: in pieces of any size, or whole.
//!
//! A `Reader` takes the bytes of a dump as they come, and appends each sample once a greater time stamp has ended its
//! block. It keeps the declared codes, the sample before the open block and the values of the lines in it, and one token at
//! most; how the text was cut into pieces shows in nothing that it answers. It tells the marks of the dump, which of the two
//! parity lines its header declares, once the header is over, also where the piece that ends it is refused for what follows.
//! `read_dump` reads a whole text.
#![tactic(auto)]

pub use dump::read_dump;
pub use reader::Reader;
pub use stop::VcdStop;
pub use vcd_grammar::{VcdCause, VcdFault};

mod codes;
mod digits;
mod direct;
mod dump;
mod lanes;
mod levels;
mod machine;
mod mode;
mod open_block;
mod reader;
mod run;
mod scan;
mod stop;
mod words;
