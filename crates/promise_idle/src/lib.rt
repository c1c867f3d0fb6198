// Order 5: theorems about the definitions that the contracts of Take and Close cite; no code.
#![tactic(auto)]
