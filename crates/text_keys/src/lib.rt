// The keys of an object in place: sorted by their contents, and the first one that repeats an earlier one. A key is given by the
// position of its opening quotation mark in the text.
#![tactic(auto)]

ghost use Rattle.std.specs.Prelude.{◌≡◌, List, true, ℕ, ◌+◌, ◌≤◌, max, length, take, drop};
ghost use Rattle.laws.specs.Sort.{sort, merge};
ghost use Rattle.text_strings.specs.InString.{Inside, key_le};
ghost use Rattle.text_keys.specs.Keys.{KeysAt, rising_keys};
ghost use Rattle.text_keys.specs.Repeats.{same_left, repeat_left};

use std::cmp::Ordering;

// What ordering the keys of an object finds: how much of the text is left from the first one on that is equal to an earlier one, 0 if
// there is none, and whether they stood in rising order.
#[derive(Clone, Copy)]
pub struct Ordered {
    pub left: usize,
    pub rising: bool,
}

// Sorts the keys, and answers which one repeats an earlier one and whether they were in order already.
pub fn order_keys(s: &[u8], keys: &mut [u16], spare: &mut [u16]) -> Ordered
    requires { KeysAt s.now keys.old × (length keys.old ≤ length spare.old) }
    ensures keys_after { keys.new ≡ sort (key_le s.now) keys.old }
    ensures left_value { (result.left ≡ repeat_left s.now keys.old) × (result.rising ≡ rising_keys s.now keys.old) }
{
    let found = check_order(s, keys);
    if found.rising {
        return found;
    }
    merge_sort(s, keys, spare);
    let left = repeat_left(s, keys);
    Ordered {
        left,
        rising: false,
    }
}

// Sorts the keys by their contents; equal keys keep their order. What `spare` holds is overwritten.
pub fn sort_keys(s: &[u8], keys: &mut [u16], spare: &mut [u16])
    requires { KeysAt s.now keys.old × (length keys.old ≤ length spare.old) }
    ensures { keys.new ≡ sort (key_le s.now) keys.old }
{
    let found = check_order(s, keys);
    if !found.rising {
        merge_sort(s, keys, spare);
    }
}

// The keys as they stand, each compared once with the next one: whether none comes after the next one and, if so, which one repeats an
// earlier one. Those of a text in canonical form are in order.
fn check_order(s: &[u8], keys: &[u16]) -> Ordered
    requires { KeysAt s.now keys.now }
    ensures rising_value { result.rising ≡ rising_keys s.now keys.now }
    ensures left_value { result.rising ≡ true → result.left ≡ repeat_left s.now keys.now }
{
    let mut most: usize = 0;
    for at in 1..keys.len() {
        let pair = check_pair(s, keys[at - 1], keys[at]);
        if !pair.rising {
            return pair;
        }
        most = most.max(pair.left);
    }
    Ordered {
        left: most,
        rising: true,
    }
}

// Two keys, the one at k in front of the one at l: whether the first does not come after the second, and how much of the text is left
// from the second on where they are equal, else 0.
fn check_pair(s: &[u8], k: u16, l: u16) -> Ordered
    requires { Inside s.now (k + 1) × Inside s.now (l + 1) }
    ensures { (result.left ≡ same_left s.now k l) × (result.rising ≡ key_le s.now k l) }
{
    let at = l as usize;
    match text_order::compare(s, (k as usize) + 1, s, at + 1) {
        Ordering::Less => Ordered {
            left: 0,
            rising: true,
        },
        Ordering::Equal => Ordered {
            left: s.len() - at,
            rising: true,
        },
        Ordering::Greater => Ordered {
            left: 0,
            rising: false,
        },
    }
}

// Sorts each half, and merges the two.
fn merge_sort(s: &[u8], keys: &mut [u16], spare: &mut [u16])
    requires { KeysAt s.now keys.old × (length keys.old ≤ length spare.old) }
    ensures { keys.new ≡ sort (key_le s.now) keys.old }
{
    if keys.len() < 2 {
        return;
    }
    let mid = keys.len() / 2;
    merge_sort(s, &mut keys[..mid], spare);
    merge_sort(s, &mut keys[mid..], spare);
    merge_halves(s, keys, mid, spare);
}

// Merges the keys before `mid` with those from there on.
fn merge_halves(s: &[u8], keys: &mut [u16], mid: usize, spare: &mut [u16])
    requires { KeysAt s.now keys.old × (mid ≤ length keys.old) × (mid ≤ length spare.old) }
    ensures { keys.new ≡ merge (key_le s.now) (take mid keys.old) (drop mid keys.old) }
{
    copy_keys(&keys[..mid], spare);
    merge_back(s, &spare[..mid], keys);
}

// Copies the keys to the start of `to`.
fn copy_keys(keys: &[u16], to: &mut [u16])
    requires { length keys.now ≤ length to.old }
    ensures { take (length keys.now) to.new ≡ keys.now }
{
    // a loop, since `copy_from_slice` calls libc's memmove, and the header promises that only memcpy and memset are called
    let mut i = 0;
    while i < keys.len() {
        to[i] = keys[i];
        i += 1;
    }
}

// Merges `left`, a copy of the first keys of `keys`, with the other ones. No key is overwritten before it is taken: the place that is
// written is as far before the next key of the right half as `left` has keys left.
fn merge_back(s: &[u8], left: &[u16], keys: &mut [u16])
    requires { KeysAt s.now left.now × KeysAt s.now keys.old × (length left.now ≤ length keys.old) }
    ensures { keys.new ≡ merge (key_le s.now) left.now (drop (length left.now) keys.old) }
{
    let mut i = 0;
    let mut j = left.len();
    let mut at = 0;
    // a turn takes a key of either half, so no `for` walks one of them
    while i < left.len() {
        if j < keys.len() {
            let pair = check_pair(s, left[i], keys[j]);
            if !pair.rising {
                keys[at] = keys[j];
                j += 1;
                at += 1;
                continue;
            }
        }
        keys[at] = left[i];
        i += 1;
        at += 1;
    }
}

// How much of the text is left from the first key on that is equal to an earlier one, 0 if there is none. Of sorted keys, equal ones
// stand side by side in the order in which they stand in the text.
pub fn repeat_left(s: &[u8], keys: &[u16]) -> usize
    requires { KeysAt s.now keys.now }
    ensures { (ks : List ℕ) → keys.now ≡ sort (key_le s.now) ks → result ≡ repeat_left s.now ks }
{
    let mut most: usize = 0;
    for i in 1..keys.len() {
        most = most.max(check_pair(s, keys[i - 1], keys[i]).left);
    }
    most
}
