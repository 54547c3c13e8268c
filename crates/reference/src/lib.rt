// References of ACON images (document 01, "References, names and rules"): read in place, in the strings of a JSON text or, for an
// Image ID, in plain bytes.
#![tactic(auto)]

pub mod id;
pub mod layer;
pub mod rule;

// An image by its place among the loaded ones, and a layer by its place in an image's list: two types, so that one cannot stand for
// the other.
#[derive(Clone, Copy)]
pub struct ImageIndex(pub usize);

#[derive(Clone, Copy)]
pub struct LayerIndex(pub usize);
