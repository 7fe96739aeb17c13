//! Where hidden files are: definitions and lemmas for the crates above. It has no code.
#![tactic(auto)]
