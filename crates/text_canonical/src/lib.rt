// The canonical form of a value of a checked JSON text. Each function writes at the start of the slice that it is lent and says how
// many bytes it wrote; what is left of the slice is lent on to the next writer.
#![tactic(auto)]

ghost use Rattle.std.specs.Prelude.{◌≡◌, List, ◌++◌, ℕ, ◌+◌, ◌≤◌, length, take};
ghost use Rattle.text_content.specs.Value.{boolean};
ghost use Rattle.text_content.specs.Canonical.{canonical, comma};
ghost use Rattle.laws.specs.Writes.{Writes};
ghost use Rattle.text_canonical.specs.Members.{Collected, Sorted};
ghost use Rattle.text_canonical.specs.Space.{Writable, WritableArray, WritableObject, WritableMembers, WritableRoot, KeysFit, WritableScalar};
ghost use Rattle.text_canonical.specs.Space.{WritableMember, Written, WritesValue, WritesMember, NumberAt, DigitsEnd};

use text_json::MOST_NESTING;
use text_view::Kind;

// The value at `at`, whose arrays and objects are nested at most `depth` deep. `keys` and `spare` hold the keys of its objects
// while they are sorted and written; what they hold afterwards means nothing.
#[cycle(write_array_write_member_write_members_write_object_write_value)]
pub fn write_value(
    s: &[u8],
    at: usize,
    depth: usize,
    out: &mut [u8],
    keys: &mut [u16],
    spare: &mut [u16],
) -> usize
    requires { Writable s.now at depth out.old keys.old spare.old }
    ensures { WritesValue s.now at depth out.old out.new result }
{
    let kind = text_view::value::kind(s, at);
    match kind {
        Kind::Array => write_array(s, at, depth, out, keys, spare),
        Kind::Object => write_object(s, at, depth, out, keys, spare),
        _ => write_scalar(s, at, kind, out),
    }
}

// The value of a whole text, which stands at `at`. Where it is an object, its keys are given, sorted: the first `count` of `keys`. So the
// text is not walked to collect them.
pub fn write_root(
    s: &[u8],
    at: usize,
    count: usize,
    out: &mut [u8],
    keys: &mut [u16],
    spare: &mut [u16],
) -> usize
    requires { WritableRoot s.now at count out.old keys.old spare.old }
    ensures { WritesValue s.now at 8 out.old out.new result }
{
    match text_view::value::kind(s, at) {
        Kind::Object => write_members(s, at, MOST_NESTING, count, out, keys, spare),
        _ => write_value(s, at, MOST_NESTING, out, keys, spare),
    }
}

// The elements in the order of the text, separated by commas.
#[cycle(write_array_write_member_write_members_write_object_write_value)]
fn write_array(
    s: &[u8],
    at: usize,
    depth: usize,
    out: &mut [u8],
    keys: &mut [u16],
    spare: &mut [u16],
) -> usize
    requires { WritableArray s.now at depth out.old keys.old spare.old }
    ensures { WritesValue s.now at depth out.old out.new result }
{
    out[0] = b'[';
    let mut n = 1;
    let mut start = true;
    let mut i = at + 1;
    // where an element ends is known once it is passed, so no `for` walks them
    loop {
        match text_view::value::read_item(s, i, depth - 1, false) {
            text_view::value::Item::At {
                first: _,
                value,
                next,
            } => {
                n = separate(out, n, start);
                n += write_value(s, value, depth - 1, &mut out[n..], keys, spare);
                start = false;
                i = next;
            }
            text_view::value::Item::End(_) => {
                out[n] = b']';
                return n + 1;
            }
        }
    }
}

// The members in the order of their keys, which are collected and sorted first.
#[cycle(write_array_write_member_write_members_write_object_write_value)]
fn write_object(
    s: &[u8],
    at: usize,
    depth: usize,
    out: &mut [u8],
    keys: &mut [u16],
    spare: &mut [u16],
) -> usize
    requires { WritableObject s.now at depth out.old keys.old spare.old }
    ensures { WritesValue s.now at depth out.old out.new result }
{
    let count = sorted_keys(s, at, depth, keys, spare);
    write_members(s, at, depth, count, out, keys, spare)
}

// The members of the object at `at` in the order of the first `count` keys, which are its own: `at` only tells which object it is. The
// values' own objects have the rest of `keys`.
#[cycle(write_array_write_member_write_members_write_object_write_value)]
fn write_members(
    s: &[u8],
    at: usize,
    depth: usize,
    count: usize,
    out: &mut [u8],
    keys: &mut [u16],
    spare: &mut [u16],
) -> usize
    requires { WritableMembers s.now at depth count out.old keys.old spare.old }
    ensures { WritesValue s.now at depth out.old out.new result }
{
    out[0] = b'{';
    let mut n = 1;
    for i in 0..count {
        let key = keys[i] as usize;
        n = separate(out, n, i == 0);
        n += write_member(s, key, depth - 1, &mut out[n..], &mut keys[count..], spare);
    }
    out[n] = b'}';
    n + 1
}

// The member whose key's quotation mark stands at `at`.
#[cycle(write_array_write_member_write_members_write_object_write_value)]
fn write_member(
    s: &[u8],
    at: usize,
    depth: usize,
    out: &mut [u8],
    keys: &mut [u16],
    spare: &mut [u16],
) -> usize
    requires { WritableMember s.now at depth out.old keys.old spare.old }
    ensures { WritesMember s.now at depth out.old out.new result }
{
    let n = text_printer::write_string(s, at, out);
    out[n] = b':';
    let start = n + 1;
    let value = text_view::value::item_value(s, at, true);
    start + write_value(s, value, depth, &mut out[start..], keys, spare)
}

// Writes a comma at n, but none before the first element or member, and answers where writing goes on.
fn separate(out: &mut [u8], n: usize, first: bool) -> usize
    requires { n + length (comma first) ≤ length out.old }
    ensures value { result ≡ n + length (comma first) }
    ensures by_index { (before done : List ℕ) → n ≡ length done → Writes before out.old done
        → Writes before out.new (done ++ comma first) }
{
    if first {
        return n;
    }
    out[n] = b',';
    n + 1
}

// A value that is neither an array nor an object. A kind that is none of the first three is that of a string.
fn write_scalar(s: &[u8], at: usize, kind: Kind, out: &mut [u8]) -> usize
    requires { WritableScalar s.now at kind out.old }
    ensures { (depth : ℕ) → WritesValue s.now at depth out.old out.new result }
{
    match kind {
        Kind::Null => text_printer::copy(b"null", 0, 4, out),
        Kind::Boolean(b) => write_boolean(b, out),
        Kind::Number => text_printer::copy(s, at, digits_end(s, at), out),
        _ => text_printer::write_string(s, at, out),
    }
}

fn write_boolean(b: bool, out: &mut [u8]) -> usize
    requires { length (canonical (boolean b)) ≤ length out.old }
    ensures { Written out.old out.new result (canonical (boolean b)) }
{
    if b {
        text_printer::copy(b"true", 0, 4, out)
    } else {
        text_printer::copy(b"false", 0, 5, out)
    }
}

// The position after the sign and the digits of a number.
fn digits_end(s: &[u8], at: usize) -> usize
    requires { NumberAt s.now at }
    ensures { DigitsEnd s.now at result }
{
    let first = at + text_numbers::sign_size(s[at] == b'-');
    match text_numbers::int_part(s, first) {
        Ok(digits) => digits.end,
        Err(at) => at,
    }
}

// Puts the keys of an object at the start of `keys`, sorted by their contents, and answers how many there are.
fn sorted_keys(s: &[u8], at: usize, depth: usize, keys: &mut [u16], spare: &mut [u16]) -> usize
    requires { KeysFit s.now at depth keys.old × (length keys.old ≤ length spare.old) }
    ensures { Sorted s.now at depth result keys.new }
{
    let count = collect_keys(s, at, depth, keys);
    text_keys::sort_keys(s, &mut keys[..count], spare);
    count
}

// Puts the keys of an object at the start of `keys`, in the order of the text, and answers how many there are.
fn collect_keys(s: &[u8], at: usize, depth: usize, keys: &mut [u16]) -> usize
    requires { KeysFit s.now at depth keys.old }
    ensures { (result ≤ length keys.old) × Collected s.now at depth (take result keys.new) }
{
    let mut n = 0;
    let mut i = at + 1;
    // where a member ends is known once it is passed, so no `for` walks them
    loop {
        match text_view::value::read_item(s, i, depth - 1, true) {
            text_view::value::Item::At {
                first,
                value: _,
                next,
            } => {
                keys[n] = first as u16;
                n += 1;
                i = next;
            }
            text_view::value::Item::End(_) => {
                return n;
            }
        }
    }
}
