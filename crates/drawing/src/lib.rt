// What is given for an index, which the promises about drawn matrices take as a parameter: definitions and theorems, no code.
#![tactic(auto)]
