// The names of the aliases among the references of a store in one index, so that each alias that an image defines is looked up once.
#![tactic(auto)]

ghost use Rattle.std.specs.Prelude.{◌≡◌, List, [], ℕ, ◌+◌, ◌≤◌, ◌<◌, length, get_or, take};
ghost use Rattle.reference.specs.References.{Layer as LayerReference};
ghost use Rattle.manifest_index.specs.Index.{NumberOf, NameIndex};
ghost use Rattle.manifest_objects.specs.Objects.{StandsAt, SomeReference, AllStand};
ghost use Rattle.lookup_links.specs.Links.{Links};
ghost use Rattle.lookup_index.specs.Table.{AllNamed, SomeReferences, Marks, undefined_in, Table};

use lookup_links::{BAD, DIGEST, UNDEFINED};
use reference::layer::Layer;

// Marks the reference with number e, which stands from position k of b on, and puts the position of its name into `at` if it is an alias.
fn mark(b: &[u8], k: usize, e: usize, at: &mut [usize], next: &mut [u16])
    requires { SomeReference b.now k × (e < length at.old) × (e < length next.old) }
    ensures { (l : LayerReference) → StandsAt b.now k l
        → Marks b.now e l at.old next.old at.new next.new }
{
    match manifest_objects::read(b, k) {
        None => next[e] = BAD,
        Some(Layer::Digest(_, _)) => next[e] = DIGEST,
        Some(Layer::Alias { alias, .. }) => {
            next[e] = UNDEFINED;
            at[e] = alias;
        }
    }
}

// Marks all references, as if no image defined an alias.
pub fn mark_all(b: &[u8], keys: &[usize], at: &mut [usize], next: &mut [u16])
    requires { SomeReferences b.now keys.now × (length keys.now ≤ length at.old) × (length keys.now ≤ length next.old) }
    ensures { (refs : List LayerReference) → AllStand b.now keys.now refs
        → Links [] refs next.new × AllNamed b.now refs at.new }
{
    for (e, key) in keys.iter().enumerate() {
        mark(b, *key, e, at, next);
    }
}

// Makes the index of the aliases, which are marked as not defined, and answers how many these are.
pub fn index_refs(b: &[u8], at: &[usize], next: &[u16], order: &mut [u16]) -> usize
    requires { ((e : ℕ) → e < length next.now → get_or next.now e 0 ≡ 65534 → NumberOf b.now at.now e) × (length next.now ≤ 4160)
        × (length next.now ≤ length order.old) }
    ensures { (result ≤ length next.now) × (length order.new ≡ length order.old)
        × NameIndex b.now at.now (undefined_in next.now (length next.now)) (take result order.new) }
{
    let mut n = 0;
    for (e, mark) in next.iter().enumerate() {
        if *mark == UNDEFINED {
            manifest_index::add(b, at, order, n, e as u16);
            n += 1;
        }
    }
    n
}

// Marks the references and makes the index of the aliases among them; answers how many these are.
pub fn tabulate(
    b: &[u8],
    keys: &[usize],
    at: &mut [usize],
    next: &mut [u16],
    order: &mut [u16],
) -> usize
    requires { SomeReferences b.now keys.now × (length keys.now ≤ length at.old) × (length next.old ≡ length keys.now)
        × (length keys.now ≤ length order.old) }
    ensures { (result ≤ length keys.now) × ((refs : List LayerReference) → AllStand b.now keys.now refs
        → Links [] refs next.new × Table b.now keys.now at.new (take result order.new) refs) }
{
    mark_all(b, keys, at, next);
    index_refs(b, at, next, order)
}
