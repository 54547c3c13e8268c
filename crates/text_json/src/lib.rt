// Reading JSON (RFC 8259) in place: a position in the text goes in, and where the reading ended comes out.
#![tactic(auto)]

pub mod bytes;
pub mod space;

// The most arrays and objects that may stand inside each other, the outermost counted.
pub const MOST_NESTING: usize = 8;

// Where reading is stuck: the position of the first byte that does not fit, or of the text's end.
pub type Stuck = usize;

// A string, a number or a part of one that was read: where it ends, whether document 01 refuses it, and the length of its canonical form.
#[derive(Clone, Copy)]
pub struct Token {
    pub end: usize,
    pub refused: bool,
    pub size: usize,
}
