//! The events of the lines of worked runs, clock by clock: the prover computes them, and that they may happen to the
//! pure machine.
//!
//! There is no code; the modules are in `proofs/`. `Dated` has events with their clocks, and each module of a run its
//! lines. The runs are those of rows_timely, which is read before. `WorkedLoads` has loads as events, in a few clocks
//! by hand, and `CoherentMore` a line that is not coherent in one thing alone, and events that do not meet what they
//! owe.
//!
//! Nothing is promised: the definitions of fsb_line and fsb_coherent are tried here. Read fsb_coherent next, whose
//! theorems say of every run what is computed here of some.
#![tactic(auto)]
