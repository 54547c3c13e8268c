// UTF-8 (RFC 3629): the check of a text, with the place of the first fault, and the bytes of a scalar value.
#![tactic(auto)]

ghost use Rattle.std.specs.Prelude.{◌≡◌, true, cond, [], ◌∷◌, ◌+◌, ◌≤◌, ◌<◌, length, take, drop};
ghost use Rattle.text_utf8.specs.Utf8.{range, tail, verdict};
ghost use Rattle.text_utf8.specs.Scalar.{encode};
ghost use Rattle.text_utf8.specs.Char.{meets, char_len, Ascii};

//TODO Result<(), usize>
// The byte at `at` is there and is from low to high.
fn byte_in(text: &[u8], at: usize, low: u8, high: u8) -> bool
    ensures { result ≡ meets (range low high ∷ []) (drop at text.now) }
{
    if at < text.len() {
        let b = text[at];
        if low <= b {
            if b <= high {
                return true;
            }
        }
    }
    false
}

// 2 where one more byte of a character follows at `at`, else 0.
fn two(text: &[u8], at: usize) -> usize
    ensures { result ≡ cond (meets (tail ∷ []) (drop at text.now)) 2 0 }
{
    if byte_in(text, at, 0x80, 0xBF) {
        return 2;
    }
    0
}

// 3 where two more follow, the first of them from low to high, else 0.
fn three(text: &[u8], at: usize, low: u8, high: u8) -> usize
    requires { at ≤ length text.now }
    ensures { result ≡ cond (meets (range low high ∷ tail ∷ []) (drop at text.now)) 3 0 }
{
    if byte_in(text, at, low, high) {
        if byte_in(text, at + 1, 0x80, 0xBF) {
            return 3;
        }
    }
    0
}

// 4 where three more follow, the first of them from low to high, else 0.
fn four(text: &[u8], at: usize, low: u8, high: u8) -> usize
    requires { at ≤ length text.now }
    ensures { result ≡ cond (meets (range low high ∷ tail ∷ tail ∷ []) (drop at text.now)) 4 0 }
{
    if byte_in(text, at, low, high) {
        if byte_in(text, at + 1, 0x80, 0xBF) {
            if byte_in(text, at + 2, 0x80, 0xBF) {
                return 4;
            }
        }
    }
    0
}

// The length of the character at `at`, 1 to 4; 0 where it is not well-formed.
fn char_len(text: &[u8], at: usize) -> usize
    requires { at < length text.now }
    ensures { result ≡ char_len (drop at text.now) }
{
    let next = at + 1;
    match text[at] {
        0x00..=0x7F => 1,
        0xC2..=0xDF => two(text, next),
        0xE0 => three(text, next, 0xA0, 0xBF),
        0xED => three(text, next, 0x80, 0x9F),
        0xE1..=0xEF => three(text, next, 0x80, 0xBF),
        0xF0 => four(text, next, 0x90, 0xBF),
        0xF1..=0xF3 => four(text, next, 0x80, 0xBF),
        0xF4 => four(text, next, 0x80, 0x8F),
        _ => 0,
    }
}

// The sixteen bytes at `at` are ASCII: one test for all of them.
fn ascii_block(text: &[u8], at: usize) -> bool
    requires { at + 16 ≤ length text.now }
    ensures { result ≡ true → Ascii text.now at (at + 16) }
{
    let mut all = true;
    for n in 0..16 {
        all &= text[at + n] <= 0x7F;
    }
    all
}

// Where the whole blocks of sixteen ASCII bytes from `at` on end.
fn ascii_run(text: &[u8], at: usize) -> usize
    requires { at ≤ length text.now }
    ensures { Ascii text.now at result }
{
    let mut i = at;
    while 16 <= text.len() - i {
        if !ascii_block(text, i) {
            return i;
        }
        i += 16;
    }
    i
}

// The verdict on a text: well-formed, or where it is not. ASCII is passed sixteen bytes at a time; a run is tried only at
// every eighth byte, so that text with short runs does not pay for it.
pub fn check(text: &[u8]) -> Result<(), usize>
    ensures { result ≡ verdict text.now }
{
    let mut at = 0;
    // the position goes on by a character or by a run, so no `for` counts it
    while at < text.len() {
        if text[at] < 0x80 {
            at += 1;
            if at % 8 == 0 {
                at = ascii_run(text, at);
            }
        } else {
            let n = char_len(text, at);
            if n == 0 {
                return Err(at);
            }
            at += n;
        }
    }
    Ok(())
}

// The bytes of a scalar value: the first len of bytes.
#[derive(Clone, Copy)]
pub struct Encoding {
    pub len: usize,
    pub bytes: [u8; 4],
}

// A surrogate is encoded by the same rule, and its bytes are not well-formed: a caller rules it out where it matters.
pub fn encoded(c: u32) -> Encoding
    requires { c < 0x110000 }
    ensures { (result.len ≡ length (encode c)) × (take result.len result.bytes ≡ encode c) }
{
    if c < 0x80 {
        return Encoding {
            len: 1,
            bytes: [c as u8, 0, 0, 0],
        };
    }
    let last = (0x80 + c % 64) as u8;
    if c < 0x800 {
        return Encoding {
            len: 2,
            bytes: [(0xC0 + c / 64) as u8, last, 0, 0],
        };
    }
    let third = (0x80 + c / 64 % 64) as u8;
    if c < 0x10000 {
        return Encoding {
            len: 3,
            bytes: [(0xE0 + c / 4096) as u8, third, last, 0],
        };
    }
    Encoding {
        len: 4,
        bytes: [
            (0xF0 + c / 262144) as u8,
            (0x80 + c / 4096 % 64) as u8,
            third,
            last,
        ],
    }
}
