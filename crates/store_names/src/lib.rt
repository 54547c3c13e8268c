// The `self` aliases of all images of a store in one index, by their numbers: alias k of image i has the number 64 * i + k.
#![tactic(auto)]

ghost use Rattle.std.specs.Prelude.{◌≡◌, List, ℕ, ◌+◌, ◌-◌, ◌*◌, ◌≤◌, ◌<◌, length, take};
ghost use Rattle.manifest_index.specs.Index.{NumberOf, NameIndex, SomeNameIndex};
ghost use Rattle.store_names.specs.Opened.{OpenedStore};
ghost use Rattle.store_names.specs.Placed.{with_numbers, numbers_of, Numbered, PlacedUpTo};

use manifest::{MOST_ENTRIES, Places};
use reference::ImageIndex;
use store_record::{MOST_IMAGES, Survey};

// Writes the positions of the aliases that each image has for itself. What `own` holds is overwritten.
pub fn place_all(
    b: &[u8],
    v: Survey,
    places: [Places; MOST_IMAGES],
    own: &mut [u16],
    at: &mut [usize],
    counts: &mut [u16],
)
    requires { OpenedStore b.now v places × (4096 ≤ length own.old) × (length at.old ≡ 4096) × (length counts.old ≡ 64) }
    ensures { PlacedUpTo v.count b.now v at.new counts.new }
{
    for i in 0..v.count {
        let r = v.records[i];
        let start = r.text;
        let end = r.end;
        let q = places[i];
        let first = MOST_ENTRIES * i;
        let n = manifest_index::place_self(b, start, end, q, own, &mut at[first..]);
        counts[i] = n as u16;
    }
}

// Adds the aliases of image i, which are `count`, to the index of the first n, and answers how many it then has.
fn index_image(
    b: &[u8],
    at: &[usize],
    i: ImageIndex,
    count: usize,
    order: &mut [u16],
    n: usize,
) -> usize
    requires { SomeNameIndex b.now at.now (take n order.old) × (i.0 < 64) × (count ≤ 64) × (n + count ≤ length order.old)
        × ((k : ℕ) → k < count → NumberOf b.now at.now (64 * i.0 + k)) }
    ensures { (result ≡ n + count) × (length order.new ≡ length order.old)
        × ((es : List ℕ) → NameIndex b.now at.now es (take n order.old)
        → NameIndex b.now at.now (with_numbers (64 * i.0) count es) (take result order.new)) }
{
    let first = MOST_ENTRIES * i.0;
    for k in 0..count {
        let e = first + k;
        manifest_index::add(b, at, order, n + k, e as u16);
    }
    n + count
}

// Makes the index of the aliases of the first `images` images, and answers how many these are.
pub fn index_all(b: &[u8], at: &[usize], counts: &[u16], images: usize, order: &mut [u16]) -> usize
    requires { Numbered images b.now at.now counts.now × (images ≤ 64) × (length counts.now ≡ 64) × (4096 ≤ length order.old) }
    ensures { (result ≤ 4096) × (length order.new ≡ length order.old)
        × NameIndex b.now at.now (numbers_of counts.now images) (take result order.new) }
{
    let mut n = 0;
    for (i, count) in counts[..images].iter().enumerate() {
        n = index_image(b, at, ImageIndex(i), *count as usize, order, n);
    }
    n
}
