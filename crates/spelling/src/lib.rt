// The writer of standard forms, and what spellings of a configuration come to (document 02, 2026-06): definitions and theorems, no code.
#![tactic(auto)]
