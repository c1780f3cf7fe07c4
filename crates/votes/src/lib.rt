// From votes to a configuration (document 02, 2026-01): definitions and theorems, no code.
#![tactic(auto)]
