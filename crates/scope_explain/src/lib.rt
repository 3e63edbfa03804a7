//! Why a dump is rejected: the reasons of all rules that are broken at the first broken clock of a part.
//!
//! `explained_of` reads a dump once more, judges the samples of one part as they come, and answers at the first broken clock
//! a reason for each broken rule that is explained, the least rule's first. What is answered holds of the samples up to
//! there, as `IsExplained` in `specs/Explained.antt` says, and no reason of an explained rule is lacking. Beside them it
//! answers the requests in flight, and the last ten that were over. Memory does not grow with the dump.
//!
//! Next: fsb_reasons, which says what each reason claims, fsb_recent, which says which requests these are, and scope_watch, which reads.
#![tactic(auto)]

pub use explain::{Explanation, explained_of};
pub use explained::{Explained, is_answered};

mod explain;
mod explained;
mod explainer;
mod explaining;
mod requests;
