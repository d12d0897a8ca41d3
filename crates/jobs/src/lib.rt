// What the calls of an open operation share: how they begin, and how a first version, a later one or an anti-payload takes a slot.
#![tactic(auto)]

pub mod make;
pub mod supersede;
pub mod way;
