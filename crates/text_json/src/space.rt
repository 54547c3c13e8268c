// White space, and fixed runs of bytes.
ghost use Rattle.std.specs.Prelude.{◌≤◌, length, drop};
ghost use Rattle.text_json.specs.Read.{spaces, read_word};
ghost use Rattle.text_json.specs.Scan.{At, Steps};
ghost use Rattle.text_json.specs.Size.{reached};

use crate::Stuck;
use crate::bytes::is_space;

// The position after the white space that stands at a position.
pub fn skip_spaces(s: &[u8], at: usize) -> usize
    requires { at ≤ length s.now }
    ensures { (at ≤ result) × At s.now result (spaces (drop at s.now)) }
{
    for i in at..s.len() {
        if !is_space(s[i]) {
            return i;
        }
    }
    s.len()
}

// Reads the bytes of w, and stops at the first that differs.
pub fn word(s: &[u8], at: usize, w: &[u8]) -> Result<usize, Stuck>
    requires { at ≤ length s.now }
    ensures { (at ≤ reached result) × Steps s.now (read_word w.now (drop at s.now)) result }
{
    let mut i = at;
    for b in w {
        if s.len() <= i {
            return Err(i);
        }
        if s[i] != *b {
            return Err(i);
        }
        i += 1;
    }
    Ok(i)
}
