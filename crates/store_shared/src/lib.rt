// Whether images of one signer share a `self` alias. In the index of all of them equal names stand side by side, so that one walk finds out.
#![tactic(auto)]

ghost use Rattle.std.specs.Prelude.{◌≡◌, ℕ, ◌+◌, ◌-◌, ◌/◌, ◌≤◌, ◌<◌, eqb, length, take, drop, get_or};
ghost use Rattle.laws.specs.Any.{any_of, any_pair};
ghost use Rattle.manifest_index.specs.Index.{SomeNameIndex};
ghost use Rattle.store_record.specs.Reading.{Fills};
ghost use Rattle.store_names.specs.Opened.{OpenedStore};
ghost use Rattle.store_names.specs.Shared.{FirstSigned, GroupsOf, group_of, shared, have_shared, Run, RunBefore};

use manifest::{MOST_ENTRIES, Places};
use reference_digests::algorithm::Algorithm;
use store_record::{MOST_IMAGES, Survey};

// The index of the first image of that algorithm and signer, if it is below k, and else k.
fn first_signed(b: &[u8], v: Survey, a: Algorithm, signer: &[u8], k: usize) -> usize
    requires { Fills b.now v × (k ≤ v.count) }
    ensures { FirstSigned b.now v a signer.now k result }
{
    for j in 0..k {
        let r = v.records[j];
        if r.is_signed_by(b, a, signer) {
            return j;
        }
    }
    k
}

// Writes for each image its group: the index of the first image of its algorithm and signer.
pub fn group_all(b: &[u8], v: Survey, groups: &mut [u16])
    requires { Fills b.now v × (length groups.old ≡ 64) }
    ensures { (length groups.new ≡ 64) × GroupsOf b.now v v.count groups.new }
{
    for i in 0..v.count {
        let r = v.records[i];
        let a = r.algorithm;
        let from = r.signer;
        let to = r.manifest;
        let g = first_signed(b, v, a, &b[from..to], i);
        groups[i] = g as u16;
    }
}

// The first place of the index that has the name at place m; `start` is that for place m - 1.
fn run_start(b: &[u8], at: &[usize], order: &[u16], start: usize, m: usize) -> usize
    requires { SomeNameIndex b.now at.now order.now × (m < length order.now) × RunBefore b.now at.now order.now start m }
    ensures { Run b.now at.now order.now result m }
{
    if m == 0 {
        return 0;
    }
    if manifest_index::is_same(b, at, order[m - 1], order[m]) {
        return start;
    }
    m
}

// The image of the number at place m is of the group of one whose number stands from place `start` on before it.
fn meets(order: &[u16], groups: &[u16], start: usize, m: usize) -> bool
    requires { ((i : ℕ) → i < length order.now → get_or order.now i 0 < 4096) × (length groups.now ≡ 64) × (start ≤ m) × (m < length order.now) }
    ensures { result ≡ any_of (λ (e : ℕ). eqb (group_of groups.now (get_or order.now m 0)) (group_of groups.now e))
        (take (m - start) (drop start order.now)) }
{
    let e = order[m] as usize;
    let g = groups[e / MOST_ENTRIES];
    for f in &order[start..m] {
        if g == groups[*f as usize / MOST_ENTRIES] {
            return true;
        }
    }
    false
}

// Some two numbers of the index are those of one name, of images of one group.
pub fn shares_any(b: &[u8], at: &[usize], order: &[u16], groups: &[u16]) -> bool
    requires { SomeNameIndex b.now at.now order.now × (length at.now ≡ 4096) × (length groups.now ≡ 64) }
    ensures { result ≡ any_pair (shared b.now at.now groups.now) order.now }
{
    let mut start = 0;
    for m in 0..order.len() {
        start = run_start(b, at, order, start, m);
        if meets(order, groups, start, m) {
            return true;
        }
    }
    false
}

// Some two images of one signer have a name in common that each has for itself. The arrays are lent; what they hold is overwritten.
pub fn any_shared(
    b: &[u8],
    v: Survey,
    places: [Places; MOST_IMAGES],
    at: &mut [usize],
    order: &mut [u16],
    own: &mut [u16],
) -> bool
    requires { OpenedStore b.now v places × (length at.old ≡ 4096) × (4096 ≤ length order.old) × (4096 ≤ length own.old) }
    ensures value { result ≡ any_pair (have_shared b.now) (take v.count v.records) }
    ensures at_len_unchanged { (length at.new ≡ length at.old) × (length order.new ≡ length order.old)
        × (length own.new ≡ length own.old) }
{
    let mut counts = [0u16; MOST_IMAGES];
    store_names::place_all(b, v, places, own, at, &mut counts);
    let n = store_names::index_all(b, at, &counts, v.count, order);
    let mut groups = [0u16; MOST_IMAGES];
    group_all(b, v, &mut groups);
    shares_any(b, at, &order[..n], &groups)
}
