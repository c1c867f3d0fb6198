// Order 9: theorems about the receivers that lists of calls leave; no code.
#![tactic(auto)]
