// The parts of a reference (document 01, "References, names and rules"): what stands between two `/`, read in place, in a string of a JSON
// text and in plain bytes.
#![tactic(auto)]

pub mod part;
