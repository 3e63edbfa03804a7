//! The bench: agents with their caches, the bridge and memory on one bus, clock by clock.
//!
//! [`Bench::make`] takes all the memory that a run needs. A bench lends what came of the plan so
//! far, the agents' caches and memory, and hazard objects are plugged and unplugged between two
//! clocks. Contracts see a bench as its view (`bench_view`, `specs/Benches.antt`): a `BenchView` of
//! the crate fsb_bench_view, whose run has the plan, the choices, the holds, the trace and the log;
//! and as the objects that stand on it (`objects_of`).
//!
//! What [`Bench::make`] makes is the first bench of the plan, with its objects loaded; each lending
//! call gives what the view has; plugging and unplugging change the objects alone. A clock is
//! [`Bench::step`], which asks for a clock of the plan that is left, and for nothing else: the new
//! view is `bench_stepped` of the old one, and the run has one clock more, for what the objects that
//! stand at the clock answer together (`IsStepped`, `IsAskedNext`, `specs/Stepping.antt`).
//!
//! Every bench keeps three promises at every clock, whatever its objects answer: its run is a
//! simulation ([`Bench::is_simulated`]), its caches and its memory have what the log makes of them
//! ([`Bench::keeps_its_lines`]), and its trace breaks no phase rule ([`Bench::breaks_no_rule`]).
//! They are facts of the type: the bench stands for its run, and its bytes are those of one byte
//! memory, before the first clock and after each one, by the laws of fsb_bench_run and
//! fsb_bench_values.
//!
//! A step takes no memory and has no refusal. The code looks for nothing in the log, in a script or
//! in the trace, so that a step costs the same however long the run is already (measured in
//! docs/proof/speed.md, said by no contract). It goes in this order: the
//! objects are asked for BNR#; what the phases drive, and the bytes that move from a response on;
//! the hits, agent 0 first; what the agents want and what begins; the snoop result; the sample;
//! what the objects choose for the request that begins; then what the clock brings: that request,
//! the one that an address error cancels, the snoop end, the response and the end of a request; and
//! last the bus lock, the queue and the arbiter take the clock. The agents know a request by its
//! first clock.
#![tactic(auto)]

pub use bench::Bench;

mod asking;
mod bare;
mod bench;
mod stepping;
