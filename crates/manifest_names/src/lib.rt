// The aliases of two manifests compared: names that both have, names that stand under different keys, and the key of a name.
#![tactic(auto)]

pub mod asked;
pub mod conflict;
pub mod keyed;
pub mod object;
pub mod shared;
