//! What a verdict of coherence means: no rule of ownership is broken exactly where a coherent system could have made the trace.
//!
//! The rules of fsb_owners keep sets of joint states. A course has one: it says which state each of the four agents has of a
//! line before each clock. It begins with one of the first joint states. Each agent moves as the machine of fsb_line moves it:
//! what it asks suits its state, it answers a snoop by its state, and a snoop end changes its state. Unseen it may store
//! into an Exclusive line whose bytes have come, and drop a clean copy while it waits for nothing. At each moment an agent that
//! may write has the line alone. What is in no state is said beside: requests wait for their turn, and a reply repeats HIT#.
//!
//! [`possible_states_end_courses`] says that the sets of fsb_owners are the ends of courses, and
//! [`ownership_is_a_course_of_each_line`] that no rule is broken exactly where each line has one and its requests wait for their
//! turn. A line is judged until one of its requests fails hard. [`runs_of_the_machine_are_courses`] says that a run of the
//! machine is one, with its links and bytes left out, if it fits the wires, and stores, drops and upgrades as a course may.
//!
//! Read `Courses`, `Turns` and `Coherent` of `specs/`, then `Machine` and `Runs`.
#![tactic(auto)]

pub use laws::{
    broken_ownership_ends_the_courses, coherence_is_a_course_of_each_line,
    coherent_lines_have_one_course, first_states_are_coherent, ownership_is_a_course_of_each_line,
    possible_states_end_courses, runs_of_the_machine_are_courses,
    snoops_are_answered_by_the_others, the_machine_moves_as_courses,
};

mod laws;
