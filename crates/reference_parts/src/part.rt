// The parts of a reference, which are divided by `/`, in a string of a JSON text and in plain bytes.
ghost use Rattle.std.specs.Prelude.{◌≡◌, ℕ, ◌≤◌, ◌+◌, length, take, drop, get_or};
ghost use Rattle.laws.specs.Order.{same};
ghost use Rattle.text_chars.specs.Measure.{every};
ghost use Rattle.text_strings.specs.InString.{Inside, content_from};
ghost use Rattle.reference_parts.specs.Hex.{is_lower_hex};
ghost use Rattle.reference_parts.specs.Parts.{first_part, is_block};
ghost use Rattle.reference_parts.specs.Readings.{CharAt, StartAt, PartAt, PlainPart, parts_from, HasPart};

// What is counted of a part: its bytes, whether all of them are lower-case hexadecimal digits, and whether it is the last part. The
// next one begins at `next`.
#[derive(Clone, Copy)]
pub struct Part {
    pub next: usize,
    pub length: usize,
    pub hex: bool,
    pub last: bool,
}

pub fn is_lower_hex(c: u32) -> bool
    ensures { result ≡ is_lower_hex c }
{
    text_json::bytes::between(0x30, 0x39, c) || text_json::bytes::between(0x61, 0x66, c)
}

// Bytes at the start of a part: whether all of them are lower-case hexadecimal digits, and where the part goes on.
#[derive(Clone, Copy)]
pub struct Start {
    pub next: usize,
    pub hex: bool,
}

// `count` bytes are left from `at` on, they stand for themselves in a string, and none is a `/`.
fn undivided(s: &[u8], at: usize, count: usize) -> bool
    requires { at ≤ length s.now }
    ensures { result ≡ is_block count (drop at s.now) }
{
    if s.len() - at < count {
        return false;
    }
    text_chars::unmarked(s, at, count) & text_chars::none_is(s, at, count, b'/')
}

// The `count` bytes at `at` are lower-case hexadecimal digits.
fn all_hex(s: &[u8], at: usize, count: usize) -> bool
    requires { at + count ≤ length s.now }
    ensures { result ≡ every is_lower_hex (take count (drop at s.now)) }
{
    let mut all = true;
    for b in &s[at..at + count] {
        all &= (b'0' <= *b) & (*b <= b'9') | (b'a' <= *b) & (*b <= b'f');
    }
    all
}

// The start of a part by sixteen bytes at a time, as digests are long.
fn read_blocks(s: &[u8], i: usize) -> Start
    requires { Inside s.now i }
    ensures { StartAt s.now i result }
{
    // how many blocks there are is only known by the test of each, so no `for` counts them
    let mut k = i;
    let mut hex = true;
    while undivided(s, k, 16) {
        hex &= all_hex(s, k, 16);
        k += 16;
    }
    Start { next: k, hex }
}

// The same, and then eight bytes at once if they are of the part.
fn read_start(s: &[u8], i: usize) -> Start
    requires { Inside s.now i }
    ensures { StartAt s.now i result }
{
    let begun = read_blocks(s, i);
    let k = begun.next;
    if !undivided(s, k, 8) {
        return begun;
    }
    let hex = begun.hex & all_hex(s, k, 8);
    Start { next: k + 8, hex }
}

// The part at position i of a string's content.
pub fn read(s: &[u8], i: usize) -> Part
    requires { Inside s.now i }
    ensures { PartAt s.now i result }
{
    let begun = read_start(s, i);
    // the position jumps by what `one_char` answers, so no `for` counts it
    let mut k = begun.next;
    let mut length = k - i;
    let mut hex = begun.hex;
    loop {
        let b = s[k];
        if b == b'"' {
            return Part {
                next: k,
                length,
                hex,
                last: true,
            };
        }
        let x = one_char(s, k);
        k = x.next;
        if x.scalar == 0x2F {
            return Part {
                next: k,
                length,
                hex,
                last: false,
            };
        }
        length += x.length;
        hex &= is_lower_hex(x.scalar);
    }
}

// A character of a string's content that an escape stands for, or one byte of it: where the content goes on, and how many bytes it has.
#[derive(Clone, Copy)]
pub struct Char {
    pub next: usize,
    pub scalar: u32,
    pub length: usize,
}

fn one_char(s: &[u8], k: usize) -> Char
    requires { Inside s.now k × (get_or s.now k 0 ≡ 0x22 → ⊥) }
    ensures { CharAt s.now k result }
{
    let b = s[k];
    if b == b'\\' {
        let e = text_strings::read_escape(s, k);
        let scalar = e.scalar;
        let x = text_utf8::encoded(scalar);
        return Char {
            next: e.next,
            scalar,
            length: x.len,
        };
    }
    Char {
        next: k + 1,
        scalar: b as u32,
        length: 1,
    }
}

// The part at position i, which has `len` bytes, is `name`.
pub fn is(s: &[u8], i: usize, len: usize, name: &[u8]) -> bool
    requires { Inside s.now i × (len ≡ length (first_part (content_from s.now i))) }
    ensures { result ≡ same (first_part (content_from s.now i)) name.now }
{
    if len != name.len() {
        return false;
    }
    text_names::name::begins(s, i, name)
}

// The part at position i of plain bytes.
pub fn read_plain(s: &[u8], i: usize) -> Part
    requires { i ≤ length s.now }
    ensures { PlainPart s.now i result × (result.next ≤ length s.now) }
{
    let mut hex = true;
    for (length, b) in s[i..].iter().enumerate() {
        if *b == b'/' {
            return Part {
                next: i + length + 1,
                length,
                hex,
                last: false,
            };
        }
        hex &= is_lower_hex(u32::from(*b));
    }
    Part {
        next: s.len(),
        length: s.len() - i,
        hex,
        last: true,
    }
}

// The part at position i of plain bytes, which has `len` bytes, is `name`.
fn is_plain(s: &[u8], i: usize, len: usize, name: &[u8]) -> bool
    requires { (i ≤ length s.now) × (len ≡ length (first_part (drop i s.now))) }
    ensures { result ≡ same (first_part (drop i s.now)) name.now }
{
    if len != name.len() {
        return false;
    }
    for (k, b) in name.iter().enumerate() {
        if s[i + k] != *b {
            return false;
        }
    }
    true
}

// The part at position i, which has `len` bytes, is `name`: of plain bytes, or of a string of a JSON text.
pub fn is_named(s: &[u8], plain: bool, i: usize, len: usize, name: &[u8]) -> bool
    requires { HasPart plain s.now i len }
    ensures { result ≡ same (first_part (parts_from plain s.now i)) name.now }
{
    if plain {
        return is_plain(s, i, len, name);
    }
    is(s, i, len, name)
}
