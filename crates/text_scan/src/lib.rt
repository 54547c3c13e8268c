// Reads a whole JSON text in one pass: is it one, which strings, numbers and keys are faulty, how long is its canonical form,
// and are the keys of its objects in rising order.
#![tactic(auto)]

ghost use Rattle.std.specs.Prelude.{◌+◌, ◌*◌, ◌<◌, length, drop};
ghost use Rattle.text_json.specs.Read.{read, read_text};
ghost use Rattle.text_tokens.specs.Scanned.{ScansValue};
ghost use Rattle.text_scan.specs.Scanned.{ScanSpace, LeavesKeys, read_array, read_object};

use text_json::{MOST_NESTING, Stuck};
use text_tokens::{
    After, Name, ScannedValue, Summary, added, after_item, closed, key, mark, member, plain,
    scalar, stands, string,
};

// A value with arrays and objects nested at most `depth` deep. The keys of its objects are kept in `keys` while they are read.
#[cycle(array_inner_object_value)]
fn value(
    s: &[u8],
    at: usize,
    depth: usize,
    keys: &mut [u16],
    spare: &mut [u16],
) -> Result<ScannedValue, Stuck>
    requires { ScanSpace s.now at keys.old spare.old }
    ensures { ScansValue s.now (read depth (drop at s.now)) result }
{
    if at < s.len() {
        if 0 < depth {
            let b = s[at];
            if b == b'[' {
                return array(s, at + 1, depth - 1, keys, spare);
            }
            if b == b'{' {
                return object(s, at + 1, depth - 1, keys, spare);
            }
        }
    }
    scalar(s, at)
}

// A value in an array or an object. Most are strings, and what is known of a string need not pass through `value`, which calls itself.
#[cycle(array_inner_object_value)]
fn inner(
    s: &[u8],
    at: usize,
    depth: usize,
    keys: &mut [u16],
    spare: &mut [u16],
) -> Result<ScannedValue, Stuck>
    requires { ScanSpace s.now at keys.old spare.old }
    ensures { ScansValue s.now (read depth (drop at s.now)) result }
{
    if stands(s, at, b'"') {
        return string(s, at);
    }
    value(s, at, depth, keys, spare)
}

// What follows the opening mark of an array.
#[cycle(array_inner_object_value)]
fn array(
    s: &[u8],
    at: usize,
    depth: usize,
    keys: &mut [u16],
    spare: &mut [u16],
) -> Result<ScannedValue, Stuck>
    requires { ScanSpace s.now at keys.old spare.old }
    ensures { ScansValue s.now (read_array depth (drop at s.now)) result }
{
    let mut i = text_json::space::skip_spaces(s, at);
    if stands(s, i, b']') {
        return plain(i + 1, 2);
    }
    let mut sum = Summary {
        string: 0,
        number: 0,
        key: 0,
        size: 1,
        ordered: true,
    };
    // where an item ends is known once it is read, so no `for` walks them
    loop {
        let v = inner(s, i, depth, keys, spare)?;
        sum = added(sum, v.sum);
        match after_item(s, v.end, b']')? {
            After::End(end) => {
                return Ok(ScannedValue { end, count: 0, sum });
            }
            After::More(j) => i = j,
        }
    }
}

// What follows the opening mark of an object. A member's key is kept as its position, in the part of `keys` before the one that is
// lent to the reading of its value. At the object's end its keys are left sorted.
#[cycle(array_inner_object_value)]
fn object(
    s: &[u8],
    at: usize,
    depth: usize,
    keys: &mut [u16],
    spare: &mut [u16],
) -> Result<ScannedValue, Stuck>
    requires scan_space { ScanSpace s.now at keys.old spare.old }
    requires s_len_bound { length s.now < at + 4 * length keys.old }
    ensures scans_value { ScansValue s.now (read_object depth (drop at s.now)) result }
    ensures leaves_keys { LeavesKeys s.now (read_object depth (drop at s.now)) keys.new result }
{
    let mut i = text_json::space::skip_spaces(s, at);
    if stands(s, i, b'}') {
        return plain(i + 1, 2);
    }
    let mut sum = Summary {
        string: 0,
        number: 0,
        key: 0,
        size: 1,
        ordered: true,
    };
    let mut n = 0;
    // where a member ends is known once it is read, so no `for` walks them
    loop {
        let token = key(s, i)?;
        let name = Name {
            value: token.end,
            fault: mark(token.refused, s.len(), i),
            size: token.size,
        };
        keys[n] = i as u16;
        n += 1;
        let v = inner(s, name.value, depth, &mut keys[n..], spare)?;
        sum = added(sum, member(name, v.sum));
        match after_item(s, v.end, b'}')? {
            After::End(end) => return closed(s, end, sum, &mut keys[..n], spare),
            After::More(j) => i = j,
        }
    }
}

// The value of a whole text. An object is read here, not by `value`, which says nothing of the keys that it leaves.
fn root(s: &[u8], at: usize, keys: &mut [u16], spare: &mut [u16]) -> Result<ScannedValue, Stuck>
    requires { ScanSpace s.now at keys.old spare.old }
    ensures scans_value { ScansValue s.now (read 8 (drop at s.now)) result }
    ensures leaves_keys { LeavesKeys s.now (read 8 (drop at s.now)) keys.new result }
{
    if stands(s, at, b'{') {
        return object(s, at + 1, 7, keys, spare);
    }
    value(s, at, MOST_NESTING, keys, spare)
}

// A whole text of at most 16,384 bytes: spaces, a value nested at most 8 deep, and spaces. `keys` and `spare` hold the keys of its
// objects while they are read. Where the value is an object, its own keys are left at the start of `keys`, sorted.
pub fn text(s: &[u8], keys: &mut [u16], spare: &mut [u16]) -> Result<ScannedValue, Stuck>
    requires { ScanSpace s.now 0 keys.old spare.old }
    ensures scans_value { ScansValue s.now (read_text 8 s.now) result }
    ensures leaves_keys { LeavesKeys s.now (read_text 8 s.now) keys.new result }
{
    let at = text_json::space::skip_spaces(s, 0);
    let v = root(s, at, keys, spare)?;
    let end = text_json::space::skip_spaces(s, v.end);
    if end < s.len() {
        return Err(end);
    }
    Ok(ScannedValue { end, ..v })
}
