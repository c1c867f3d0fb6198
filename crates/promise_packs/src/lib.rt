// Order 8: theorems about the definitions that the contracts of Start, Take and Close cite; no code.
#![tactic(auto)]
