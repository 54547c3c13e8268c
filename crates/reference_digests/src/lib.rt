// The digest algorithms and their digests (document 01, "References, names and rules"): read in place, as hexadecimal digits or as the bytes
// that these stand for.
#![tactic(auto)]

pub mod algorithm;
pub mod digest;
