// Frames: calls as lines of hexadecimal (document 01, "Frames").
#![tactic(auto)]

pub mod frame;
pub mod hex;
