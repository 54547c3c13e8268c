// Reading a manifest in place: its entries and single values, whether a list has a string, and when a rule's SIGNER matches.
#![tactic(auto)]

pub mod entries;
pub mod matching;
