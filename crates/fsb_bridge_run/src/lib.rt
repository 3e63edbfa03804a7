//! The deferrals of a timely run as one list, clock by clock: laws over the definitions, and no
//! code.
//!
//! A list has the deferrals of the run below a clock, where a reply is under way from its first
//! clock on. The clock finds them so, and changes them by what happens at it: a reply begins, a
//! reply is cancelled, a snoop end comes, a Deferred request responds. Each of these is a call of
//! the bridge. What a timely run says of pending lines, of due replies and of replies' snoop ends
//! is what the list says.
#![tactic(auto)]

pub use laws::{
    clocks_change_the_deferrals, deferrals_are_few, deferrals_start_and_stay,
    due_replies_are_those_of_the_list, growing_runs_have_the_deferrals,
    pending_lines_are_those_of_the_list, replies_begin_as_due, replies_take_their_deferrals,
    runs_have_what_the_list_needs, words_show_what_began,
};

mod laws;
