//! Could a coherent system have made the wires of a dump: the first broken rule of all, 1 to 31, of a part.
//!
//! `coherence_of` reads a dump once, judges the samples of one part by the phase rules and the rules of ownership as they
//! come, and answers the least clock at which one is broken, with the least rule there: the `coherence_verdict` of the part,
//! as `IsCohered` in `specs/Answers.antt` says. A part that begins later begins with lines of which nothing is known. Memory
//! grows with the lines that somebody asks for, and not with the clocks.
//!
//! Next: fsb_cohere, which judges ownership, fsb_owner_verdict, whose verdict this is, and scope_watch, which reads.
#![tactic(auto)]

pub use answer::{Cohered, CoheredPart, CoherenceFinding, coherence_of};
pub use cohering::Incoherent;
pub use laws::coherent_parts_could_be_made;

mod answer;
mod coherer;
mod cohering;
mod laws;
mod part;
