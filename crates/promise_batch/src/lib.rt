// Order 6: theorems about the definitions that the contract of a batch cites; no code.
#![tactic(auto)]
