//! One agent of the bus, as a record: what it has, what it wants, what it answers, and how each of its events moves it on.
//!
//! `AgentView` (`specs/AgentViews.antt`) is all that an agent keeps. It has no history: the record after a list of events is a
//! fold over the list, from the first record on (`specs/AgentEvents.antt`). The answers are functions of the record: the want
//! (`want_by`), a hit and an arrival (`is_hit_by`, `is_arrival_by`), the snoop answer (`answer_by`), the bytes that are
//! handed on (`hand_by`), the entries of the log (`performed_entries`, `arrived_entries`). All of them compute. They are in
//! the words of a simulated run, so that both sides can be compared word by word.
#![tactic(auto)]

pub use laws::{agents_stand_for_their_events, agents_stay_sound, handed_over_store};
pub use want::{Finished, OwnRequest, Want};

mod laws;
mod want;
