// Whether a string of a JSON text is a given name or another string, or begins with a name.
ghost use Rattle.std.specs.Prelude.{◌≡◌, List, ℕ, ◌≤◌, length, take, drop};
ghost use Rattle.laws.specs.Order.{same};
ghost use Rattle.text_strings.specs.InString.{Inside, content_from};
ghost use Rattle.text_strings.specs.Cursor.{Left, ReadableCursor};
ghost use Rattle.text_names.specs.Named.{holds_name};

use std::cmp::Ordering;
use text_strings::Cursor;

// The content from position i on is `name`.
pub fn is_name(s: &[u8], i: usize, name: &[u8]) -> bool
    requires { Inside s.now i }
    ensures { result ≡ same (content_from s.now i) name.now }
{
    holds_name(s, i, name, true)
}

// The content from position i on begins with `name`.
pub fn begins(s: &[u8], i: usize, name: &[u8]) -> bool
    requires { Inside s.now i }
    ensures { result ≡ same (take (length name.now) (content_from s.now i)) name.now }
{
    holds_name(s, i, name, false)
}

// The `whole` content from position i on is `name`, or only its first bytes have to be. Bytes that stand for themselves are compared in place;
// at the first escape a cursor takes over.
fn holds_name(s: &[u8], i: usize, name: &[u8], whole: bool) -> bool
    requires { Inside s.now i }
    ensures { result ≡ holds_name whole (content_from s.now i) name.now }
{
    for k in 0..name.len() {
        let b = s[i + k];
        if b == b'\\' {
            return holds_left(s, Cursor::new(i + k), name, k, whole);
        }
        if b != name[k] {
            return false;
        }
        if b == b'"' {
            return false;
        }
    }
    (s[i + name.len()] == b'"') | !whole
}

// The same of what is left before the cursor and the name from byte `at` on.
fn holds_left(s: &[u8], from: Cursor, name: &[u8], at: usize, whole: bool) -> bool
    requires { ReadableCursor s.now from × (at ≤ length name.now) }
    ensures { (c : List ℕ) → Left s.now from c → result ≡ holds_name whole c (drop at name.now) }
{
    let mut c = from;
    for k in at..name.len() {
        let x = c.next(s);
        if !x.found {
            return false;
        }
        if x.byte != name[k] {
            return false;
        }
        c = x.rest;
    }
    let x = c.next(s);
    !x.found | !whole
}

// The content from position i of s on is that from position j of t on.
pub fn equal(s: &[u8], i: usize, t: &[u8], j: usize) -> bool
    requires { Inside s.now i × Inside t.now j }
    ensures { result ≡ same (content_from s.now i) (content_from t.now j) }
{
    match text_order::compare(s, i, t, j) {
        Ordering::Equal => true,
        Ordering::Less => false,
        Ordering::Greater => false,
    }
}
