// The images that one image of a store accepts, as a row of marks: each rule is read once, its alias is looked up once, and then it is asked of every
// image. Alias k of image i has the number 64 * i + k in the index of all own aliases.
#![tactic(auto)]

ghost use Rattle.std.specs.Prelude.{◌≡◌, ◌&&◌, map, ℕ, ◌+◌, ◌*◌, ◌/◌, ◌^◌, ◌<◌, eqb, length, get_or};
ghost use Rattle.laws.specs.Any.{any_of};
ghost use Rattle.reference.specs.References.{Rule as PolicyRule};
ghost use Rattle.manifest_index.specs.Index.{name_at, SomeNameIndex};
ghost use Rattle.manifest.specs.Asks.{asks_for};
ghost use Rattle.manifest.specs.Manifest.{self_names};
ghost use Rattle.manifest.specs.Opened.{ReadsRule, SomeRule};
ghost use Rattle.policy_marks.specs.Words.{bit_at, row_of};
ghost use Rattle.store_record.specs.Reading.{between, held_in, images_in, no_record, RecordIn, Fills};
ghost use Rattle.store_names.specs.Opened.{OpenedStore};
ghost use Rattle.policy_rows.specs.Accepting.{accepts_image, matches_image};
ghost use Rattle.store_names.specs.Placed.{Indexed};

use manifest::{MOST_ENTRIES, Places};
use reference::ImageIndex;
use reference::rule::Rule;
use store_record::{MOST_IMAGES, Record, Survey};

// The images that have the aliases with these numbers, as a row of marks.
fn owners(order: &[u16]) -> u64
    requires { (i : ℕ) → i < length order.now → get_or order.now i 0 < 4096 }
    ensures { (j : ℕ) → bit_at result j ≡ any_of (λ (e : ℕ). eqb (e / 64) j) order.now }
{
    let mut word = 0;
    for e in order {
        let image = *e as usize / MOST_ENTRIES;
        word |= 1u64 << image;
    }
    word
}

// A rule that was read in s matches the image of record r; `named` tells whether the image has the alias that the rule asks for.
fn matches_image(s: &[u8], x: Option<Rule>, b: &[u8], r: Record, named: bool) -> bool
    requires { SomeRule s.now x × RecordIn b.now r }
    ensures { (y : PolicyRule) → ReadsRule s.now x y → named ≡ any_of (asks_for y) (self_names (between b.now r.text r.end))
        → result ≡ matches_image y (held_in b.now r) }
{
    let a = r.algorithm;
    let signer = r.signer;
    let digest = r.manifest;
    let text = r.text;
    manifest_rules::matches(s, x, a, &b[signer..digest], &b[digest..text], named)
}

// The images that have an alias which the rule asks for, that was read in s, as a row of marks; `order` is the index of all aliases.
fn named_by(s: &[u8], x: Option<Rule>, b: &[u8], at: &[usize], order: &[u16]) -> u64
    requires { SomeRule s.now x × SomeNameIndex b.now at.now order.now × (length at.now ≡ 4096) }
    ensures { (y : PolicyRule) → ReadsRule s.now x y
        → (j : ℕ) → bit_at result j ≡ any_of (λ (e : ℕ). asks_for y (name_at b.now at.now e) && eqb (e / 64) j) order.now }
{
    let r = manifest_index::asked(b, at, order, s, x);
    let from = r.from;
    let to = r.to;
    owners(&order[from..to])
}

// The images that a rule which was read in s matches, as a row of marks.
fn matched(s: &[u8], x: Option<Rule>, b: &[u8], v: Survey, at: &[usize], order: &[u16]) -> u64
    requires { SomeRule s.now x × Fills b.now v × Indexed b.now v at.now order.now }
    ensures result_value { (y : PolicyRule) → ReadsRule s.now x y → row_of v.count result ≡ map (matches_image y) (images_in b.now v) }
    ensures upper_bound { result < 2 ^ v.count }
{
    let named = named_by(s, x, b, at, order);
    let mut word = 0;
    for j in (0..v.count).rev() {
        let r = v.records[j];
        word *= 2;
        if matches_image(s, x, b, r, policy_marks::has(named, j)) {
            word += 1;
        }
    }
    word
}

// The images that image i accepts, as a row of marks.
pub fn row(
    b: &[u8],
    v: Survey,
    places: [Places; MOST_IMAGES],
    at: &[usize],
    order: &[u16],
    i: ImageIndex,
) -> u64
    requires { OpenedStore b.now v places × Indexed b.now v at.now order.now × (i.0 < v.count) }
    ensures result_value { row_of v.count result ≡ map (accepts_image (held_in b.now (get_or v.records i.0 no_record))) (images_in b.now v) }
    ensures upper_bound { result < 2 ^ v.count }
{
    let k = i.0;
    let x = v.records[k];
    let start = x.text;
    let end = x.end;
    let s = &b[start..end];
    let p = places[k];
    let mut at_rules = [0usize; MOST_ENTRIES];
    let n = manifest_rules::place(s, p, &mut at_rules);
    let mut word = 0;
    for j in 0..n {
        let rule = manifest_rules::read(s, at_rules[j]);
        word |= matched(s, rule, b, v, at, order);
    }
    word
}
