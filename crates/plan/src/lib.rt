// How many polls and puts a round will take: definitions and laws.
#![tactic(auto)]
