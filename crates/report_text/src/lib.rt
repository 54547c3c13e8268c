// The lines of a report as bytes: those of its input, taken from the parts in which the input comes, and those that are printed.
#![tactic(auto)]

pub mod print;

ghost use Rattle.std.specs.Prelude.{◌+◌, ◌≤◌, min, ◌≡◌, length};
ghost use Rattle.report_text.specs.Lines.{most_line};
ghost use Rattle.report_text.specs.Parts.{Divides, Takes};

// As many bytes are kept of a line: one more than it may have, so that a line that is too long is known by them.
const KEPT: usize = 16601;

// What was taken of a part: the place after it, how many bytes are kept of the line, and whether the line ended.
#[derive(Clone, Copy)]
pub struct Taken {
    pub at: usize,
    pub length: usize,
    pub ended: bool,
}

// What is kept of a line: an array with space for one byte more than a line may have.
pub fn line_buffer() -> [u8; KEPT]
    ensures { most_line + 1 ≡ length result }
{
    [0; KEPT]
}

// The place after `at`, or the end where `at` is there. It is no `min` of the two: no contract says that `at + 1` fits.
fn past(s: &[u8], at: usize) -> usize
    ensures { result ≡ min (at + 1) (length s.now) }
{
    if at < s.len() { at + 1 } else { s.len() }
}

// Where a line's Image ID ends, and where its manifest begins.
#[derive(Clone, Copy)]
pub struct Divided {
    pub end: usize,
    pub start: usize,
}

// Divides a line at its first space; one with no space has an empty manifest.
pub fn divide(line: &[u8]) -> Divided
    ensures { Divides line.now result }
{
    let end = lines::find(line, 0, b' ');
    let start = past(line, end);
    Divided { end, start }
}

// Takes the bytes of a part, from `at` on, up to the end of a line or of the part, and keeps them after the `size` bytes that are kept of
// the line already, as far as there is space. The byte 0A that ends a line is taken and not kept.
pub fn take_part(kept: &mut [u8], size: usize, part: &[u8], at: usize) -> Taken
    requires { (size ≤ length kept.old) × (at ≤ length part.now) }
    ensures { Takes kept.old size part.now at result kept.new }
{
    let end = lines::find(part, at, b'\n');
    let next = past(part, end);
    let n = (end - at).min(kept.len() - size);
    kept[size..size + n].copy_from_slice(&part[at..at + n]);
    Taken {
        at: next,
        length: size + n,
        ended: end < part.len(),
    }
}
