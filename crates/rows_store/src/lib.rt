//! The store that tests draw on: worked waveforms, clock by clock, and dumps as texts, each of which stands here once.
//!
//! `runs` has waveforms of runs and some that break a rule, up to the last clock at which something is asserted; `lines` has the
//! control lines by name, as bits; `samples` makes samples of them, and there is no other builder.
//!
//! `written` has dumps of p6bench itself, `simulator` a small one of a simulator, `icarus` and `verilator` those of Icarus Verilog
//! and Verilator, which are files too, in `crates/rows_texts/data/`: the program `rows_texts` compares each file with its text here,
//! and `examples/dumps/` has the benches that they were written of. `draws` has numbers drawn from a seed.
//!
//! Nothing is promised. The crates whose names begin with `rows_` try others with these; read rows_judged next.
#![tactic(auto)]

pub use draws::Draws;
pub use icarus::{FALLING, SAME_TIME, SCOPES};
pub use lines::{
    ADS, AERR, BNR, BPRI, BREQ0, BREQ1, BREQ2, BREQ3, DBSY, DEFER, DRDY, HIT, HITM, LOCK, RS0, RS1,
    RS2, TRDY,
};
pub use runs::{
    CANCELLED_BY_ADDRESS_ERROR, Clock, DEFERRED_AND_REPLIED, DIRTY_VICTIM_WRITTEN_BACK,
    HANDED_ON_WITH_WAITS, LEAST_RULE_NAMED, LOAD_THEN_STORE_HIT, LOCKED_INCREMENTS, LOCKED_ITEM,
    LOOK_AHEAD_TWO, QUEUE_DEPTH_BROKEN, REQUEST_SPACING_BROKEN, REQUEST_WITHOUT_WINNER,
    SECOND_STALLED, SHARED_LINE_INVALIDATED, STALLED_SNOOP, STORE_HANDED_OVER_BEFORE_ARRIVAL,
    TWO_AGENTS_OVERLAP, UPGRADE_LOST_AND_HANDED, UPGRADE_OF_A_SHARED_LINE, WRITE_BACK_HELD_OFF,
};
pub use samples::{
    Blur, CLEAR, Extra, UNMARKED, blurred, sample, sample_at, sample_with, trace, trace_of,
    with_parity,
};
pub use simulator::{
    SIMULATOR_HEAD, SIMULATOR_RISES, SIMULATOR_START, UNKNOWN_AFTER_FALL, UNKNOWN_AFTER_RISE,
};
pub use verilator::FALLING_VERILATOR;
pub use written::{NO_SAMPLES, PARITY_OF_A_LOAD};

mod draws;
mod icarus;
mod lines;
mod runs;
mod samples;
mod simulator;
mod verilator;
mod written;
