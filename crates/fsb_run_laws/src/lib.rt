//! What a timely run has at a clock, and one clock on: laws over the definitions, and no code.
//!
//! The moments of a run say what its whole trace says; and each list and each state that the agents
//! go by is, one clock on, that of before with what happens at the clock. `specs/` has the few
//! words that the steps need.
#![tactic(auto)]

pub use lines::{
    ends_bring_lines, last_puts_step, line_states_step, replies_serve_deferrals,
    victims_are_dirty_rivals,
};
pub use moments::{
    last_clocks_are_told, moments_have_the_answers, open_lists_are_told, open_lists_step,
    outstanding_lists_are_told, outstanding_lists_step, turns_step,
};
pub use scripts::{completions_have_clocks, idling_starts, next_items_step};

mod lines;
mod moments;
mod scripts;
