// Digests in hexadecimal digits, and the bytes that they stand for.
ghost use Rattle.std.specs.Prelude.{ℕ, ◌+◌, ◌-◌, ◌*◌, ◌≤◌, ◌≡◌, true, ◌&&◌, List, ◌++◌, eqb, length, drop};
ghost use Rattle.laws.specs.Order.{same};
ghost use Rattle.text_json.specs.Bytes.{hex_value};
ghost use Rattle.text_strings.specs.Cursor.{Left};
ghost use Rattle.text_strings.specs.InString.{Inside, content_from};
ghost use Rattle.reference_parts.specs.Hex.{is_lower_hex};
ghost use Rattle.reference_parts.specs.Parts.{first_part};
ghost use Rattle.reference_digests.specs.Algorithms.{digest_bytes, hex_digits};
ghost use Rattle.reference_digests.specs.Digests.{digest_of};
ghost use Rattle.reference_digests.specs.Readings.{DigestAt, PlainDigest, DigitsLeft, PlainPair};

use crate::algorithm::Algorithm;
use text_strings::Cursor;

// A part of that many bytes is a digest of the algorithm, where `hex` says that all of them are lower-case hexadecimal digits.
pub fn is_digest(a: Algorithm, digits: usize, hex: bool) -> bool
    ensures { result ≡ (eqb digits (hex_digits a) && hex) }
{
    if digits == a.hex_digits() { hex } else { false }
}

// Two runs of bytes, as those of two digests, are the same. Every byte is compared, without a branch, so that the compiler makes vector code of it.
pub fn equal(a: &[u8], b: &[u8]) -> bool
    ensures { result ≡ same a.now b.now }
{
    if a.len() != b.len() {
        return false;
    }
    let mut all = true;
    for (i, x) in a.iter().enumerate() {
        all &= *x == b[i];
    }
    all
}

// One byte by two digits.
fn byte_of(high: u8, low: u8) -> u8
    requires { (is_lower_hex high ≡ true) × (is_lower_hex low ≡ true) }
    ensures { result ≡ hex_value high * 16 + hex_value low }
{
    (text_json::bytes::hex_value(high) * 16 + text_json::bytes::hex_value(low)) as u8
}

// Writes the bytes of the digest at position i of a string's content at the start of `out`. Digits may stand there as escapes.
pub fn write(s: &[u8], i: usize, a: Algorithm, out: &mut [u8])
    requires { DigestAt s.now i a × (digest_bytes a ≤ length out.old) }
    ensures { out.new ≡ digest_of (first_part (content_from s.now i)) ++ drop (digest_bytes a) out.old }
{
    let n = a.digest_bytes();
    let mut c = Cursor::new(i);
    for k in 0..n {
        let high = c.next(s);
        let between = high.rest;
        let low = between.next(s);
        out[k] = byte_of(high.byte, low.byte);
        c = low.rest;
    }
}

// The same of the digest at position i of plain bytes, as of an Image ID.
pub fn write_plain(s: &[u8], i: usize, a: Algorithm, out: &mut [u8])
    requires { PlainDigest s.now i a × (digest_bytes a ≤ length out.old) }
    ensures { out.new ≡ digest_of (first_part (drop i s.now)) ++ drop (digest_bytes a) out.old }
{
    let n = a.digest_bytes();
    for k in 0..n {
        let j = i + 2 * k;
        out[k] = byte_of(s[j], s[j + 1]);
    }
}

// The two bytes at position j, of a content that has two at least, stand for themselves.
fn are_plain(s: &[u8], j: usize) -> bool
    requires { Inside s.now j × (2 ≤ length (content_from s.now j)) }
    ensures { result ≡ true → PlainPair s.now j }
{
    s[j] != b'\\' && s[j + 1] != b'\\'
}

// The digest at position i of a string's content has these bytes. Digits that stand for themselves are compared in place; at the first
// escape a cursor takes over.
pub fn is(s: &[u8], i: usize, a: Algorithm, bytes: &[u8]) -> bool
    requires { DigestAt s.now i a }
    ensures { result ≡ same (digest_of (first_part (content_from s.now i))) bytes.now }
{
    if bytes.len() != a.digest_bytes() {
        return false;
    }
    for (k, byte) in bytes.iter().enumerate() {
        let at = i + 2 * k;
        if !are_plain(s, at) {
            return cursor_is(s, Cursor::new(at), bytes, k);
        }
        if byte_of(s[at], s[at + 1]) != *byte {
            return false;
        }
    }
    true
}

// The digest whose digits are left before the cursor has the bytes from `at` on.
fn cursor_is(s: &[u8], from: Cursor, bytes: &[u8], at: usize) -> bool
    requires { DigitsLeft s.now from (length bytes.now - at) }
    ensures { (c : List ℕ) → Left s.now from c → result ≡ same (digest_of (first_part c)) (drop at bytes.now) }
{
    let mut c = from;
    for k in at..bytes.len() {
        let high = c.next(s);
        let between = high.rest;
        let low = between.next(s);
        if byte_of(high.byte, low.byte) != bytes[k] {
            return false;
        }
        c = low.rest;
    }
    true
}
