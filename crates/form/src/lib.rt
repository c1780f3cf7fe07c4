// The standard form of a configuration (document 02, 2026-06): definitions and laws, no code.
#![tactic(auto)]
