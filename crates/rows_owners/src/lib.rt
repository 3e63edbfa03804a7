//! Worked runs, judged by the rules of ownership: the prover computes the verdicts.
//!
//! There is no code; the module is `proofs/Rows.antt`. The runs are those of rows_timely, which is read before: none
//! breaks a rule. With one line changed, some do, and some may still be a coherent system's.
//!
//! Nothing is promised: the definitions of fsb_owners are tried here. Read fsb_owners next.
#![tactic(auto)]
