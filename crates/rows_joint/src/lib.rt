//! Courses of one line, with the joint states that they leave: tests of fsb_joint by its public calls.
//!
//! Each row says what the wires show of the line, event by event, and which event leaves no joint state, if one does. The
//! answers were worked out by hand. Nothing is promised. Read fsb_joint next.
#![tactic(auto)]

#[cfg(test)]
mod courses;
