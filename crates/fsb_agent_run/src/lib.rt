//! The view of an agent in a run: what its record has of a simulated run at a clock, beside the
//! definitions of runs. Laws over the definitions, and no code. They say nothing of values: not of
//! the bytes that are in a line, kept for an upgrade or pushed, not of the value that was loaded
//! last, and not of the values of entries.
//!
//! `specs/RunViews.antt` says what a record has of a run: of its script, of its lines, of its
//! requests. `specs/Stages.antt` puts them together for the moments of a clock between which
//! something happens to an agent: as the clock finds it, after its hit, after the request that it
//! begins, before the clock's snoop end, and after it. The laws say that what the record answers at
//! these is what the run has there, and that each event of the clock leads from one to the next.
//! `specs/AgentClocks.antt` lists the events of an agent at a clock of a run: after them the record
//! is the agent as the next clock finds it.
//!
//! `specs/BytesOwed.antt` says to which requests an agent owes bytes in a run, and how its record
//! has them. The laws lead that too from one moment to the next, and they say that each call of an
//! agent may come where the run has its event: so a sound agent may see all its events of a clock
//! (`specs/EventsSeen.antt`), and stays sound.
#![tactic(auto)]

pub use calls::{
    clocks_keep_agents_sound, ends_may_be_seen, requests_may_begin_and_be_cancelled,
    requests_tell_grants, snoop_ends_may_be_seen,
};
pub use clocks::{clocks_keep_views, views_of_runs_are_their_events};
pub use laws::{
    begun_requests_are_wants, entries_go_by_the_run, first_views_are_of_the_run,
    hits_go_by_the_run, places_of_views_step, snoop_answers_go_by_the_run, views_go_by_the_run,
    wants_go_by_the_run,
};
pub use owed::{
    agents_begin_owing_no_bytes, bytes_are_handed_on, bytes_are_owed_to_few,
    bytes_owed_stay_as_runs_grow, clocks_keep_bytes_owed, ends_bring_what_is_promised,
    givers_give_the_bytes, own_snoop_ends_leave_bytes_owed, snoop_ends_of_others_leave_bytes_owed,
};
pub use requests::{
    agents_owe_few, completions_are_of_items, ends_come_to_agents, requests_are_apart,
};
pub use stages::{
    begun_requests_lead_on, cancelled_requests_lead_on, ends_lead_on, hits_lead_on,
    own_snoop_ends_lead_on, snoop_ends_of_others_lead_on,
};

mod calls;
mod clocks;
mod laws;
mod owed;
mod requests;
mod stages;
