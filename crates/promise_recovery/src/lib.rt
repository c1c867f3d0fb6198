// Demand 3: theorems about the definitions that the public contracts cite; no code.
#![tactic(auto)]
