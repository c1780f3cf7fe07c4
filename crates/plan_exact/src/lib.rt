// Plan is exact: theorems on rounds.
#![tactic(auto)]
