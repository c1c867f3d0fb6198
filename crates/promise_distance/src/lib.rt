// Order 10: theorems about what the distance's contract cites, and about the spaces that two receivers hold; no code.
#![tactic(auto)]
