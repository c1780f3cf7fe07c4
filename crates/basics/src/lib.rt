// What every crate above shares: tests that are made of tests, bytes and the numbers in them. Definitions and laws, no code.
#![tactic(auto)]
