// Rows, spans and reduced matrices: definitions and theorems, no code.
#![tactic(auto)]
