// The strings of an array, or the keys of an object, by the positions where they begin: an item of either begins with a string.
#![tactic(auto)]

ghost use Rattle.std.specs.Prelude.{◌≡◌, ◌≤◌, length, Option};
ghost use Rattle.text_content.specs.Value.{Value};
ghost use Rattle.text_view.specs.Place.{ValueAt};
ghost use Rattle.manifest_fields.specs.Members.{Finds};
ghost use Rattle.manifest_strings.specs.Strings.{strings_of, found_strings, Placeable, PlaceableFound, Placed};

use text_view::value::Item;

// Writes where the strings of the array at position `at` of s begin or, if `object` is true, the keys of the object there: each position is behind the
// quotation mark, and in the bytes in which s stands from `start` on. They go to the start of `positions`; the answer is how many there are.
fn place_items(
    s: &[u8],
    start: usize,
    at: usize,
    depth: usize,
    object: bool,
    positions: &mut [usize],
) -> usize
    requires { Placeable s.now start at depth object positions.old }
    ensures { (result ≤ 64) × (length positions.new ≡ length positions.old) × ((v : Value) → ValueAt s.now at depth v
        → Placed s.now start positions.old positions.new result (strings_of object v)) }
{
    let inner = depth - 1;
    let mut left = at + 1;
    let mut n = 0;
    while let Item::At { first, next, .. } = text_view::value::read_item(s, left, inner, object) {
        positions[n] = start + first + 1;
        n += 1;
        left = next;
    }
    n
}

// The same of an array or an object that was looked for; where it is missing there are none.
pub fn place(
    s: &[u8],
    start: usize,
    found: Option<usize>,
    depth: usize,
    object: bool,
    positions: &mut [usize],
) -> usize
    requires { PlaceableFound s.now start depth object found positions.old }
    ensures { (result ≤ 64) × (length positions.new ≡ length positions.old)
        × ((o : Option Value) → Finds s.now depth o found
        → Placed s.now start positions.old positions.new result (found_strings object o)) }
{
    match found {
        None => 0,
        Some(at) => place_items(s, start, at, depth, object, positions),
    }
}
