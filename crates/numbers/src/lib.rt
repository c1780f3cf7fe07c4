// The tests of the calls, but commit's and plan's last: document 01's, in its order. On a sound table, but for lay's. Nothing is changed here.
#![tactic(auto)]

pub mod alone;
pub mod arguments;
pub mod checks;
