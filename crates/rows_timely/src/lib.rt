//! Worked runs of both profiles, clock by clock: the prover computes that they are simulations, and that they are none where
//! one thing is changed.
//!
//! There is no code; the modules are in `proofs/`. Each stored run of rows_benches is a module with one definition, which
//! `lab/worked_runs.py` writes in the words of `Words`: the run `four_owners` is `FourOwners.run`. `PlainRuns`, `OwnedRuns`,
//! `HazardRuns`, `LockedRuns`, `UpgradeRuns`, `MixedRuns` and `MoreMixedRuns` compute of each what `Computed` asks, with the
//! changes that must not be. `Worked` says once what follows: the run is a simulation, and none with one thing changed.
//! `Opened` has all that is computed with, and `Tests`, `AskedLines` and `ParityByDigits` how much has to be computed. `WildObject` has two runs that no bench file
//! gives, `BrokenRules` waveforms that break a phase rule, `ChangedMore` and `ChangedLogs` what is wrong in another way; the
//! other modules try `Kept` and `Asked`.
//!
//! Nothing is promised: the definitions of fsb_timely are tried here, and its theorems are its own. Read rows_coherent next,
//! which has the events of the lines of such runs.
#![tactic(auto)]
