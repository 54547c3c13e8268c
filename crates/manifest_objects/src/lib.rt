// The objects of a manifest by number, in the text's order: what following aliases through the images of a store needs. Positions are those in the
// byte list b in which the manifest stands from `start` to `end`, so that references of many manifests are kept in one array.
#![tactic(auto)]

ghost use Rattle.std.specs.Prelude.{◌≡◌, List, ℕ, ◌-◌, ◌≤◌, length, take, drop};
ghost use Rattle.reference.specs.References.{Layer as LayerReference};
ghost use Rattle.text_content.specs.Value.{Values, Fields, array, object};
ghost use Rattle.text_view.specs.Place.{ValueAt};
ghost use Rattle.manifest_index.specs.Index.{SomeNameIndex};
ghost use Rattle.manifest.specs.Manifest.{aliases_of, layers, contents};
ghost use Rattle.manifest.specs.Names.{objects};
ghost use Rattle.manifest.specs.Opened.{Opens, Denotes};
ghost use Rattle.manifest_objects.specs.Objects.{StandsAt, SomeReference, is_alias_of, AllStand, Listed, NameStands, SomeName, Named};
ghost use Rattle.manifest_objects.specs.Walks.{Listable, AddsListed, ListableGroup};

use manifest::Places;
use manifest_index::Range;
use reference::layer::Layer;
use reference_digests::algorithm::Algorithm;
use text_view::{Member, Members};

// The reference that stands from position k of b on.
pub fn read(b: &[u8], k: usize) -> Option<Layer>
    requires { SomeReference b.now k }
    ensures { (l : LayerReference) → StandsAt b.now k l → Denotes b.now result l }
{
    reference::layer::read(b, k)
}

// The reference that stands from position k of b on is an alias of that algorithm and signer.
pub fn is_alias_of(b: &[u8], k: usize, a: Algorithm, signer: &[u8]) -> bool
    requires { SomeReference b.now k }
    ensures { (l : LayerReference) → StandsAt b.now k l → result ≡ is_alias_of a signer.now l }
{
    match reference::layer::read(b, k) {
        None => false,
        Some(Layer::Digest(_, _)) => false,
        Some(
            Layer::Alias {
                algorithm,
                signer: g,
                ..
            },
        ) => {
            if algorithm != a {
                return false;
            }
            reference_digests::digest::is(b, g, algorithm, signer)
        }
    }
}

// Writes the positions of the objects of `contents`, which are its keys, at the start of `keys`, and answers how many there are.
pub fn place_objects(b: &[u8], start: usize, end: usize, p: Places, keys: &mut [usize]) -> usize
    requires { (start ≤ end) × (end ≤ length b.now) × Opens (take (end - start) (drop start b.now)) p × (64 ≤ length keys.old) }
    ensures { (result ≤ 64) × (length keys.new ≡ length keys.old) × (drop result keys.new ≡ drop result keys.old)
        × AllStand b.now (take result keys.new) (objects (take (end - start) (drop start b.now))) }
{
    let objects = p.contents;
    manifest_strings::place(&b[start..end], start, objects, 6, true, keys)
}

// Writes the positions of the layers at the start of `keys`, and answers how many there are.
pub fn place_layers(b: &[u8], start: usize, end: usize, p: Places, keys: &mut [usize]) -> usize
    requires { (start ≤ end) × (end ≤ length b.now) × Opens (take (end - start) (drop start b.now)) p × (64 ≤ length keys.old) }
    ensures { (result ≤ 64) × (length keys.new ≡ length keys.old) × (drop result keys.new ≡ drop result keys.old)
        × AllStand b.now (take result keys.new) (layers (take (end - start) (drop start b.now))) }
{
    let list = p.layers;
    manifest_strings::place(&b[start..end], start, list, 7, false, keys)
}

// Puts the positions of the strings of an array behind the first n of `names`, and for each the number of their object into `owners`; answers how many
// there are then.
fn list_under(
    s: &[u8],
    at: usize,
    depth: usize,
    object: usize,
    names: &mut [u16],
    owners: &mut [u16],
    n: usize,
) -> usize
    requires { Listable s.now at depth object names.old owners.old n }
    ensures { (vs : Values) → ValueAt s.now at depth (array vs)
        → AddsListed s.now object vs names.old owners.old n names.new owners.new result }
{
    let added = manifest_repeat::collect_entries(s, at, depth, names, n);
    let r = added.count;
    owners[n..r].fill(object as u16);
    r
}

// Puts the positions of a group's aliases at the start of `names`, and for each the number of its object into `owners`; answers how many there are.
fn list_group(s: &[u8], at: usize, depth: usize, names: &mut [u16], owners: &mut [u16]) -> usize
    requires { ListableGroup s.now at depth names.old owners.old }
    ensures { (result ≤ 4096) × ((fs : Fields) → ValueAt s.now at depth (object fs)
        → Listed s.now (take result names.new) (take result owners.new) (aliases_of fs)) }
{
    let mut left = Members::new(s, at, depth);
    let mut n = 0;
    let mut object = 0;
    while let Some(Member { value, rest, .. }) = left.next(s) {
        n = list_under(s, value, left.depth, object, names, owners, n);
        object += 1;
        left = rest;
    }
    n
}

// Puts the positions of the aliases of layers at the start of `names`, in the text's order, and for each the number of its object into `owners`;
// answers how many there are.
pub fn list_aliases(s: &[u8], p: Places, names: &mut [u16], owners: &mut [u16]) -> usize
    requires { Opens s.now p × (4096 ≤ length names.old) × (4096 ≤ length owners.old) }
    ensures { (result ≤ 4096) × (length names.new ≡ length names.old) × (length owners.new ≡ length owners.old)
        × Listed s.now (take result names.new) (take result owners.new) (contents s.now) }
{
    let group = p.contents;
    match group {
        None => 0,
        Some(at) => list_group(s, at, 6, names, owners),
    }
}

// The places of an index that have the name from position p of b on.
pub fn find(b: &[u8], at: &[usize], order: &[u16], p: usize) -> Range
    requires { SomeNameIndex b.now at.now order.now × SomeName b.now p }
    ensures { (n : List ℕ) → NameStands b.now p n → Named b.now at.now order.now n result }
{
    let r = text_index::find(b, at, order, b, p);
    let from = r.from;
    let to = r.to;
    Range { from, to }
}
