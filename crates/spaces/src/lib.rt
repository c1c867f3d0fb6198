// Two spaces of rows, joint and common: definitions and theorems, no code.
#![tactic(auto)]
