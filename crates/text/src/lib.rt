// Text as bytes: decimal numerals and other pieces, put into a lent buffer.
#![tactic(auto)]

pub mod append;
