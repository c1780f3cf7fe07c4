// The starred cases of document 01, computed from the rules.
#![tactic(auto)]
