// Sessions and runs: definitions and theorems, no code.
#![tactic(auto)]
