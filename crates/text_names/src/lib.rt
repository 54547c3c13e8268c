// Strings of a JSON text as names: whether one is a given name, and the first bytes of one as a number.
#![tactic(auto)]

pub mod head;
pub mod name;
