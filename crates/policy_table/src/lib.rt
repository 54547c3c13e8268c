// Who accepts whom in a store, as a table: a row for each image, and the guards. The own aliases of all images stand in one index, which all rows use.
#![tactic(auto)]

ghost use Rattle.std.specs.Prelude.{◌≡◌, ◌+◌, ◌*◌, ◌^◌, ◌≤◌, ◌<◌, length};
ghost use Rattle.manifest.specs.Opened.{Opens};
ghost use Rattle.manifest.specs.Manifest.{rejects as rejects_by};
ghost use Rattle.policy_marks.specs.Words.{row_of, guards_in, rows_in};
ghost use Rattle.store_record.specs.Reading.{images_in};
ghost use Rattle.store_names.specs.Opened.{OpenedStore};
ghost use Rattle.policy_rows.specs.Accepting.{guards as guards_of, marks};

use manifest::Places;
use policy_marks::Table;
use reference::ImageIndex;
use store_record::{MOST_IMAGES, Survey};

// The image of a manifest is a guard.
fn rejects(manifest: &[u8], q: Places) -> bool
    requires { Opens manifest.now q }
    ensures { result ≡ rejects_by manifest.now }
{
    manifest::rejects(manifest, q)
}

// The guards, as a row of marks.
fn guards(b: &[u8], v: Survey, places: [Places; MOST_IMAGES]) -> u64
    requires { OpenedStore b.now v places }
    ensures result_value { row_of v.count result ≡ guards_of (images_in b.now v) }
    ensures upper_bound { result < 2 ^ v.count }
{
    let mut word = 0;
    for j in (0..v.count).rev() {
        let y = v.records[j];
        let start = y.text;
        let end = y.end;
        let q = places[j];
        word *= 2;
        if rejects(&b[start..end], q) {
            word += 1;
        }
    }
    word
}

// Who accepts whom in a store, and who is a guard. The arrays are lent; what they hold is overwritten.
pub fn table(
    b: &[u8],
    v: Survey,
    places: [Places; MOST_IMAGES],
    at: &mut [usize],
    order: &mut [u16],
    own: &mut [u16],
) -> Table
    requires { OpenedStore b.now v places × (length at.old ≡ 4096) × (4096 ≤ length order.old) × (4096 ≤ length own.old) }
    ensures { (result.count ≡ v.count) × (guards_in result ≡ guards_of (images_in b.now v)) × (rows_in result ≡ marks (images_in b.now v)) }
{
    let mut counts = [0u16; MOST_IMAGES];
    store_names::place_all(b, v, places, own, at, &mut counts);
    let n = store_names::index_all(b, at, &counts, v.count, order);
    let mut rows = [0u64; MOST_IMAGES];
    for i in 0..v.count {
        rows[i] = policy_rows::row(b, v, places, at, &order[..n], ImageIndex(i));
    }
    Table {
        count: v.count,
        guards: guards(b, v, places),
        rows,
    }
}
