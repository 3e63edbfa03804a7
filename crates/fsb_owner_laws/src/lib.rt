//! Laws of the rules of ownership, on which a judge of coherence in one pass rests: where the set of joint states of a line
//! loses its last one, what rests on the past, and how a verdict goes on. The definitions are those of fsb_owners; `Losses` says
//! what a reply fits.
#![tactic(auto)]

pub use laws::{
    joint_states_end_where_a_rule_is_broken, ownership_verdict_goes_on,
    possible_states_rest_on_the_past, quiet_lines_keep_their_states, sound_traces_are_orderly,
    steps_keep_lines_coherent, unbroken_lines_keep_a_joint_state,
    untouched_lines_stay_as_they_begin,
};

mod laws;
