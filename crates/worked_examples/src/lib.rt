// Document 01's marked examples, proved: all of this crate is in specs/.
#![tactic(auto)]
