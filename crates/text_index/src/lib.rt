// An index of strings that stand in one byte list: `at` has the position where each string's content begins, and `order` the strings' numbers, sorted by
// content. A content is looked up by halves, so many lookups among strings of many texts cost some twelve comparisons each.
#![tactic(auto)]

ghost use Rattle.std.specs.Prelude.{◌≡◌, List, ◌∷◌, ℕ, ◌+◌, ◌≤◌, ◌<◌, length, take};
ghost use Rattle.text_strings.specs.InString.{Inside, content_from};
ghost use Rattle.text_index.specs.Index.{Entry, Index, SomeIndex, comes_before, Counted, Before, Holds, Moved};

use std::cmp::Ordering;

// A part of the index: the places from `from` to `to`, the last not included.
#[derive(Clone, Copy)]
pub struct Range {
    pub from: usize,
    pub to: usize,
}

// The string's content from position p of b on comes before the one from position q of t on; with `equal`, also if it is the same.
fn is_before(b: &[u8], p: usize, t: &[u8], q: usize, equal: bool) -> bool
    requires { Inside b.now p × Inside t.now q }
    ensures { result ≡ comes_before equal (content_from b.now p) (content_from t.now q) }
{
    match text_order::compare(b, p, t, q) {
        Ordering::Less => true,
        Ordering::Equal => equal,
        Ordering::Greater => false,
    }
}

// How many strings of the index come before the content from position q of t on; with `equal`, those that have that content count too. All before place
// `from` are known to come before it, and all from place `to` on are known not to.
fn count_between(
    b: &[u8],
    at: &[usize],
    order: &[u16],
    t: &[u8],
    q: usize,
    equal: bool,
    from: usize,
    to: usize,
) -> usize
    requires { SomeIndex b.now at.now order.now × Inside t.now q
        × Counted b.now at.now order.now equal equal (content_from t.now q) from to }
    ensures { Before b.now at.now order.now equal (content_from t.now q) result }
{
    let mut low = from;
    let mut high = to;
    while low < high {
        let mid = low + (high - low) / 2;
        let e = order[mid] as usize;
        if is_before(b, at[e], t, q, equal) {
            low = mid + 1;
        } else {
            high = mid;
        }
    }
    low
}

// The same where nothing is known.
fn count_before(b: &[u8], at: &[usize], order: &[u16], t: &[u8], q: usize, equal: bool) -> usize
    requires { SomeIndex b.now at.now order.now × Inside t.now q }
    ensures { Before b.now at.now order.now equal (content_from t.now q) result }
{
    count_between(b, at, order, t, q, equal, 0, order.len())
}

// The places of the strings that have the content from position q of t on. Most contents that are looked up are not in the index, so one search has to do
// for them; where it meets the content, the first and the last place of it are in what the search has left.
pub fn find(b: &[u8], at: &[usize], order: &[u16], t: &[u8], q: usize) -> Range
    requires { SomeIndex b.now at.now order.now × Inside t.now q }
    ensures { Holds b.now at.now order.now (content_from t.now q) result }
{
    let mut low = 0;
    let mut high = order.len();
    while low < high {
        let mid = low + (high - low) / 2;
        let e = order[mid] as usize;
        match text_order::compare(b, at[e], t, q) {
            Ordering::Less => low = mid + 1,
            Ordering::Greater => high = mid,
            Ordering::Equal => {
                let from = count_between(b, at, order, t, q, false, low, mid);
                let to = count_between(b, at, order, t, q, true, mid + 1, high);
                return Range { from, to };
            }
        }
    }
    Range { from: low, to: low }
}

// Moves the numbers from place k up to place n by one place, so that place k is free.
fn move_up(order: &mut [u16], k: usize, n: usize)
    requires { (k ≤ n) × (n < length order.old) }
    ensures { Moved order.old k n order.new }
{
    let mut i = n;
    while k < i {
        order[i] = order[i - 1];
        i -= 1;
    }
}

// Adds string e to the index of the first n.
pub fn insert(b: &[u8], at: &[usize], order: &mut [u16], n: usize, e: u16)
    requires { SomeIndex b.now at.now (take n order.old) × (n < length order.old) × Entry b.now at.now e }
    ensures { (length order.new ≡ length order.old)
        × ((es : List ℕ) → Index b.now at.now es (take n order.old)
        → Index b.now at.now (e ∷ es) (take (n + 1) order.new)) }
{
    let p = at[e as usize];
    let k = count_before(b, at, &order[..n], b, p, false);
    move_up(order, k, n);
    order[k] = e;
}
