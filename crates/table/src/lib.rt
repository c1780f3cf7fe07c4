// The bytes of the table.
#![tactic(auto)]

pub mod copy;
pub mod head;
pub mod number;
