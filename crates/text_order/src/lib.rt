// Strings of a JSON text compared by their content.
#![tactic(auto)]

ghost use Rattle.std.specs.Prelude.{◌≡◌, List, true, ◌||◌, eqb, ℕ, ◌+◌, ◌<◌, ◌≤◌, length, take, drop};
ghost use Rattle.laws.specs.Order.{same};
ghost use Rattle.text_strings.specs.InString.{InString, Inside};
ghost use Rattle.text_order.specs.Compare.{order, differs, alike, same_escape};
ghost use Rattle.text_strings.specs.Cursor.{Left, ReadableCursor};

use std::cmp::Ordering;
use text_strings::Cursor;

// The order of what is left before two cursors, one byte at a time.
fn compare_cursors(s: &[u8], a: Cursor, t: &[u8], b: Cursor) -> Ordering
    requires { ReadableCursor s.now a × ReadableCursor t.now b }
    ensures { (x y : List ℕ) → Left s.now a x → Left t.now b y → result ≡ order x y }
{
    let mut i = a;
    let mut j = b;
    // both cursors go on until one string ends or a byte differs: there is no list that a `for` would walk
    loop {
        let x = i.next(s);
        let y = j.next(t);
        if !x.found {
            if y.found {
                return Ordering::Less;
            }
            return Ordering::Equal;
        }
        if !y.found {
            return Ordering::Greater;
        }
        if x.byte < y.byte {
            return Ordering::Less;
        }
        if y.byte < x.byte {
            return Ordering::Greater;
        }
        i = x.rest;
        j = y.rest;
    }
}

// The order of two strings' contents from position i of s and position j of t on. Bytes that stand for themselves are compared
// in place, and so are escapes of two bytes that are the same; at any other escape the cursors take over.
fn compare_bytes(s: &[u8], i: usize, t: &[u8], j: usize) -> Ordering
    requires { Inside s.now i × Inside t.now j }
    ensures { (x y : List ℕ) → InString s.now i x → InString t.now j y → result ≡ order x y }
{
    let mut k = 0;
    // the place goes on by one byte or by an escape of two, so no `for` counts it
    loop {
        let x = s[i + k];
        let y = t[j + k];
        if either_escapes(x, y) {
            if same_escape(s, i + k, t, j + k) {
                k += 2;
                continue;
            }
            return compare_cursors(s, Cursor::new(i + k), t, Cursor::new(j + k));
        }
        if x != y {
            return differ(x, y);
        }
        let is_closed = x == b'"';
        if is_closed {
            return Ordering::Equal;
        }
        k += 1;
    }
}

// The same `count` bytes stand at i of s and at j of t. Where `count` is a numeral the compiler unrolls the loop, and the tests are
// done at once.
fn same_run(s: &[u8], i: usize, t: &[u8], j: usize, count: usize) -> bool
    requires { (i + count ≤ length s.now) × (j + count ≤ length t.now) }
    ensures { result ≡ same (take count (drop i s.now)) (take count (drop j t.now)) }
{
    let mut all = true;
    for n in 0..count {
        all &= s[i + n] == t[j + n];
    }
    all
}

// At i of s and at j of t the same `count` bytes stand, none of them a quotation mark or a backslash.
fn alike_run(s: &[u8], i: usize, t: &[u8], j: usize, count: usize) -> bool
    requires { (i ≤ length s.now) × (j ≤ length t.now) }
    ensures { result ≡ alike count (drop i s.now) (drop j t.now) }
{
    if s.len() - i < count {
        return false;
    }
    if t.len() - j < count {
        return false;
    }
    if !same_run(s, i, t, j, count) {
        return false;
    }
    text_chars::unmarked(s, i, count)
}

// The order of two strings' contents from position i of s and position j of t on: told at once by their first bytes where these differ
// and neither begins an escape.
fn compare_first(s: &[u8], i: usize, t: &[u8], j: usize) -> Ordering
    requires { Inside s.now i × Inside t.now j }
    ensures { (x y : List ℕ) → InString s.now i x → InString t.now j y → result ≡ order x y }
{
    let x = s[i];
    let y = t[j];
    if x == y {
        return compare_bytes(s, i, t, j);
    }
    if either_escapes(x, y) {
        return compare_bytes(s, i, t, j);
    }
    differ(x, y)
}

// The order of two strings' contents from position i of s and position j of t on: eight bytes at once if they are alike, then byte by
// byte.
fn compare_rest(s: &[u8], i: usize, t: &[u8], j: usize) -> Ordering
    requires { Inside s.now i × Inside t.now j }
    ensures { (x y : List ℕ) → InString s.now i x → InString t.now j y → result ≡ order x y }
{
    if alike_run(s, i, t, j, 8) {
        return compare_bytes(s, i + 8, t, j + 8);
    }
    compare_bytes(s, i, t, j)
}

// The order of two strings' contents from position i of s and position j of t on: sixteen bytes at a time while they are alike. Most
// strings differ at once, so that is looked at first.
pub fn compare(s: &[u8], i: usize, t: &[u8], j: usize) -> Ordering
    requires { Inside s.now i × Inside t.now j }
    ensures { (x y : List ℕ) → InString s.now i x → InString t.now j y → result ≡ order x y }
{
    if s[i] != t[j] {
        return compare_first(s, i, t, j);
    }
    let mut k = 0;
    // where the strings stop being alike is what is asked, so no `for` counts it
    while alike_run(s, i + k, t, j + k, 16) {
        k += 16;
    }
    compare_rest(s, i + k, t, j + k)
}

// One of the bytes begins an escape.
fn either_escapes(x: u8, y: u8) -> bool
    ensures { result ≡ (eqb x 0x5C || eqb y 0x5C) }
{
    x == b'\\' || y == b'\\'
}

// The same escape of two bytes stands at p of s and at q of t. A canonical text has no others.
fn same_escape(s: &[u8], p: usize, t: &[u8], q: usize) -> bool
    requires { Inside s.now p × Inside t.now q }
    ensures { result ≡ same_escape s.now p t.now q }
{
    if s[p] != b'\\' {
        return false;
    }
    if t[q] != b'\\' {
        return false;
    }
    let letter = s[p + 1];
    if letter == b'u' {
        return false;
    }
    letter == t[q + 1]
}

// The order of two contents that begin with different bytes of the text, where a quotation mark is the end of a content.
fn differ(x: u8, y: u8) -> Ordering
    ensures { result ≡ differs x y }
{
    if x == b'"' {
        return Ordering::Less;
    }
    if y == b'"' {
        return Ordering::Greater;
    }
    if x < y {
        return Ordering::Less;
    }
    Ordering::Greater
}
