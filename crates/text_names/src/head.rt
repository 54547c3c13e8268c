// The first four bytes of a string's content as one number: comparing two numbers decides the order of most strings.
ghost use Rattle.std.specs.Prelude.{◌≡◌, List, ℕ, ◌<◌, ◌≤◌};
ghost use Rattle.text_strings.specs.InString.{Inside, content_from};
ghost use Rattle.text_order.specs.Compare.{order};
ghost use Rattle.text_strings.specs.Cursor.{Left, ReadableCursor};
ghost use Rattle.text_names.specs.Head.{head_from, head_of, head_bound};

use std::cmp::Ordering;
use text_strings::Cursor;

// The number that the first n bytes before the cursor make up behind those of `start`.
fn head_left(s: &[u8], from: Cursor, n: usize, start: u32) -> u32
    requires { ReadableCursor s.now from × (n ≤ 4) × (start < head_bound n) }
    ensures { (c : List ℕ) → Left s.now from c → result ≡ head_from n start c }
{
    let mut c = from;
    let mut left = n;
    let mut h = start;
    while 0 < left {
        let x = c.next(s);
        left -= 1;
        if x.found {
            h = h * 256 + x.byte as u32;
            c = x.rest;
        } else {
            h = h * 256;
        }
    }
    h
}

// The first four bytes of the content from position i on, 0 for each byte past its end. Bytes that stand for themselves are taken in place; at the
// first escape a cursor takes over.
pub fn head(s: &[u8], i: usize) -> u32
    requires { Inside s.now i }
    ensures { result ≡ head_of (content_from s.now i) }
{
    let mut at = i;
    let mut left: usize = 4;
    let mut h: u32 = 0;
    while 0 < left {
        let b = s[at];
        if b == b'\\' {
            return head_left(s, Cursor::new(at), left, h);
        }
        left -= 1;
        if b == b'"' {
            h = h * 256;
        } else {
            h = h * 256 + b as u32;
            at += 1;
        }
    }
    h
}

// The order of two strings' contents from position i of s and position j of t on, whose heads are g and h. Only where these are equal the strings are read.
pub fn compare_headed(s: &[u8], i: usize, g: u32, t: &[u8], j: usize, h: u32) -> Ordering
    requires { Inside s.now i × Inside t.now j × (g ≡ head_of (content_from s.now i)) × (h ≡ head_of (content_from t.now j)) }
    ensures { result ≡ order (content_from s.now i) (content_from t.now j) }
{
    if g < h {
        return Ordering::Less;
    }
    if h < g {
        return Ordering::Greater;
    }
    text_order::compare(s, i, t, j)
}
