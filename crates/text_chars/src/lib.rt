// Strings (RFC 8259, section 7): where one ends, whether it is refused, and how long its canonical form is.
#![tactic(auto)]

ghost use Rattle.std.specs.Prelude.{◌≡◌, ◌||◌, [], ◌∷◌, ◌+◌, ◌≤◌, ◌<◌, leb, length, take, drop};
ghost use Rattle.text_utf8.specs.Scalar.{encode};
ghost use Rattle.text_json.specs.Syntax.{unit};
ghost use Rattle.text_json.specs.Read.{read_chars, char, escape, prepend, read_string};
ghost use Rattle.text_json.specs.Content.{is_surrogate, any_control, escaped, refused_string};
ghost use Rattle.text_json.specs.Scan.{ScansToken};
ghost use Rattle.text_json.specs.Size.{content_size, string_size, Within, Closed};
ghost use Rattle.text_chars.specs.Measure.{Hexes, Escapes, Lows, plain_length, every, is_not, is_unmarked, unmarked_run};

use text_json::bytes::{between, hex_value, is_control, is_hex, is_plain, is_short, short_value};
use text_json::{Stuck, Token};

//TODO Result<u32, usize>
// The number of the four digits of a \u escape.
pub fn hex4(s: &[u8], at: usize) -> Result<u32, Stuck>
    requires { at ≤ length s.now }
    ensures { Hexes s.now at result }
{
    let mut n: u32 = 0;
    for i in at..at + 4 {
        if s.len() <= i {
            return Err(i);
        }
        let b = s[i];
        if !is_hex(b) {
            return Err(i);
        }
        n = n * 16 + hex_value(b);
    }
    Ok(n)
}

// Whether a low surrogate's escape stands at a position.
pub fn low_half(s: &[u8], at: usize) -> bool
    requires { at ≤ length s.now }
    ensures { Lows s.now at result }
{
    if s.len() <= at {
        return false;
    }
    if s[at] != b'\\' {
        return false;
    }
    let next = at + 1;
    if s.len() <= next {
        return false;
    }
    if s[next] != b'u' {
        return false;
    }
    match hex4(s, at + 2) {
        Ok(v) => between(0xDC00, 0xDFFF, v),
        Err(_) => false,
    }
}

// The length of a byte in canonical form.
pub fn byte_size(b: u8) -> usize
    ensures { (result ≡ length (escaped (b ∷ []))) × (result ≤ 2) }
{
    match b {
        b'"' | b'\\' => 2,
        _ => 1,
    }
}

// The length in canonical form of the character that a \u escape names.
pub fn unit_size(u: u32) -> usize
    requires { u < 0x10000 }
    ensures { (result ≡ length (escaped (encode u))) × (result ≤ 3) }
{
    if u < 0x80 {
        byte_size(u as u8)
    } else if u < 0x800 {
        2
    } else {
        3
    }
}

// Whether a \u escape that is no half of a pair is refused.
pub fn unit_refused(u: u32) -> bool
    requires { u < 0x10000 }
    ensures { result ≡ is_surrogate u || any_control (encode u) }
{
    if u < 0x80 {
        is_control(u as u8)
    } else {
        between(0xD800, 0xDFFF, u)
    }
}

// What the \u escape at a position counts for, with the low surrogate's escape after it where the two are one character.
pub fn unit_escape(s: &[u8], at: usize, u: u32) -> Result<Token, Stuck>
    requires { (at + 6 ≤ length s.now) × (u < 0x10000) }
    ensures { Escapes s.now at (prepend (unit u) (read_chars char (drop (at + 6) s.now))) result }
{
    let end = at + 6;
    if between(0xD800, 0xDBFF, u) {
        if low_half(s, end) {
            return Ok(Token {
                end: end + 6,
                refused: false,
                size: 4,
            });
        }
    }
    Ok(Token {
        end,
        refused: unit_refused(u),
        size: unit_size(u),
    })
}

// The escape whose backslash stands at a position.
pub fn one_escape(s: &[u8], at: usize) -> Result<Token, Stuck>
    requires { at < length s.now }
    ensures { Escapes s.now at (read_chars escape (drop (at + 1) s.now)) result }
{
    let next = at + 1;
    if s.len() <= next {
        return Err(next);
    }
    let b = s[next];
    if is_short(b) {
        let v = short_value(b);
        return Ok(Token {
            end: next + 1,
            refused: is_control(v),
            size: byte_size(v),
        });
    }
    if b != b'u' {
        return Err(next);
    }
    let u = hex4(s, at + 2)?;
    unit_escape(s, at, u)
}

// The `count` bytes at `at` are 20 (hex) or more.
fn none_below_space(s: &[u8], at: usize, count: usize) -> bool
    requires { at + count ≤ length s.now }
    ensures { result ≡ every (leb 0x20) (take count (drop at s.now)) }
{
    let mut all = true;
    for n in 0..count {
        all &= 0x20 <= s[at + n];
    }
    all
}

// None of the `count` bytes at `at` is m. Where `count` is a numeral the compiler unrolls the loop, and the tests are done at once.
pub fn none_is(s: &[u8], at: usize, count: usize, m: u8) -> bool
    requires { at + count ≤ length s.now }
    ensures { result ≡ every (is_not m) (take count (drop at s.now)) }
{
    let mut all = true;
    for n in 0..count {
        all &= s[at + n] != m;
    }
    all
}

// None of the `count` bytes at `at` is a quotation mark or a backslash.
pub fn unmarked(s: &[u8], at: usize, count: usize) -> bool
    requires { at + count ≤ length s.now }
    ensures { result ≡ every is_unmarked (take count (drop at s.now)) }
{
    none_is(s, at, count, b'"') & none_is(s, at, count, b'\\')
}

// `count` bytes are left from `at` on, and none of them is a quotation mark or a backslash.
pub fn unmarked_left(s: &[u8], at: usize, count: usize) -> bool
    requires { at ≤ length s.now }
    ensures { result ≡ unmarked_run count (drop at s.now) }
{
    if s.len() - at < count {
        return false;
    }
    unmarked(s, at, count)
}

// At least `count` plain bytes stand from `at` on.
fn plain_left(s: &[u8], at: usize, count: usize) -> bool
    requires { at ≤ length s.now }
    ensures { result ≡ leb count (plain_length (drop at s.now)) }
{
    if s.len() - at < count {
        return false;
    }
    none_below_space(s, at, count)
        & none_is(s, at, count, b'"')
        & none_is(s, at, count, b'\\')
        & none_is(s, at, count, 0x7F)
}

// Where the plain bytes from `at` on end, one byte at a time.
fn plain_tail(s: &[u8], at: usize) -> usize
    requires { at ≤ length s.now }
    ensures { result ≡ at + plain_length (drop at s.now) }
{
    for i in at..s.len() {
        if !is_plain(s[i]) {
            return i;
        }
    }
    s.len()
}

// Where the plain bytes from `at` on end: eight at once if there are that many, then one byte at a time.
fn plain_rest(s: &[u8], at: usize) -> usize
    requires { at ≤ length s.now }
    ensures { result ≡ at + plain_length (drop at s.now) }
{
    if plain_left(s, at, 8) {
        return plain_tail(s, at + 8);
    }
    plain_tail(s, at)
}

// Where the plain bytes from `at` on end, sixteen at a time while there are that many.
pub fn plain_end(s: &[u8], at: usize) -> usize
    requires { at ≤ length s.now }
    ensures { result ≡ at + plain_length (drop at s.now) }
{
    let mut i = at;
    // where the run ends is what is asked, so no `for` counts it
    while plain_left(s, i, 16) {
        i += 16;
    }
    plain_rest(s, i)
}

// The lowest byte that may stand in a string as it is.
const LOWEST_RAW: u8 = 0x20;

// The chars of a string and its closing quotation mark.
pub fn chars(s: &[u8], at: usize) -> Result<Token, Stuck>
    requires { at ≤ length s.now }
    ensures { Closed at result × ScansToken refused_string content_size s.now (read_chars char (drop at s.now)) result }
{
    let mut i = at;
    let mut refused = false;
    let mut size = 0;
    // the position goes on by an escape or by a run of bytes, so no `for` counts it
    while i < s.len() {
        let b = s[i];
        if b == b'"' {
            return Ok(Token {
                end: i + 1,
                refused,
                size,
            });
        }
        if b == b'\\' {
            let escape = one_escape(s, i)?;
            i = escape.end;
            refused |= escape.refused;
            size += escape.size;
        } else if b < LOWEST_RAW {
            return Err(i);
        } else {
            refused |= b == 0x7F;
            let next = i + 1;
            i = plain_end(s, next);
            size += 1 + (i - next);
        }
    }
    Err(i)
}

// The string whose opening quotation mark stands at a position.
pub fn string(s: &[u8], at: usize) -> Result<Token, Stuck>
    requires { at ≤ length s.now }
    ensures { Within at result × ScansToken refused_string string_size s.now (read_string (drop at s.now)) result }
{
    if s.len() <= at {
        return Err(at);
    }
    if s[at] != b'"' {
        return Err(at);
    }
    let content = chars(s, at + 1)?;
    Ok(Token {
        size: content.size + 2,
        ..content
    })
}
