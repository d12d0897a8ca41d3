// The working table and its notes, slot by slot: what is found there, and how a slot is filled.
#![tactic(auto)]

pub mod fill;
pub mod find;
