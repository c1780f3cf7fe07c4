// A sound table, the open round as a value, whether a round is heard, and what the open round has found.
#![tactic(auto)]

pub mod found;
pub mod heard;
pub mod round;
pub mod sound;
