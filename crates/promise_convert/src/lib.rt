// Order 4: theorems about the definitions that the contracts of Draw, Number and Convert cite; no code.
#![tactic(auto)]
