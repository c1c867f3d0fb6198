// Order 1's promise: theorems about the definitions that Pool's contract cites; no code.
#![tactic(auto)]
