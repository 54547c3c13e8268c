// The references of a store in tables, and their links. References are the objects of all images, image by image, and then the layers of one image; each
// has a number. The names of the aliases among them stand in one index, so that each alias that an image defines is looked up once.
#![tactic(auto)]

ghost use Rattle.std.specs.Prelude.{◌≡◌, List, [], ◌∷◌, ◌++◌, ℕ, ◌+◌, ◌≤◌, ◌<◌, length, get_or, take};
ghost use Rattle.reference.specs.References.{Layer as LayerReference, no_layer};
ghost use Rattle.manifest.specs.Manifest.{layers};
ghost use Rattle.manifest.specs.Names.{objects};
ghost use Rattle.manifest_objects.specs.Objects.{AllStand, NameStands, SomeName};
ghost use Rattle.store_record.specs.Reading.{between, held_in, images_in, no_record};
ghost use Rattle.store_keys.specs.Keys.{LayerKey, layer_keys};
ghost use Rattle.store_names.specs.Opened.{OpenedStore};
ghost use Rattle.lookup_paths.specs.Follow.{keys_in, objects_of, object_count};
ghost use Rattle.lookup_links.specs.Links.{Links};
ghost use Rattle.lookup_index.specs.Table.{SomeReferences, Table, SomeTable};
ghost use Rattle.lookup_table.specs.Linking.{layer_key, Relinked, ObjectsFrom, LinkableImage, LinkableStore};
ghost use Rattle.lookup_table.specs.Placed.{CountedTo};

use manifest::Places;
use reference::ImageIndex;
use reference_digests::algorithm::Algorithm;
use store_record::{MOST_IMAGES, Record, Survey};

// How many references are objects, and how many there are.
#[derive(Clone, Copy)]
pub struct Numbers {
    pub objects: usize,
    pub total: usize,
}

// Links those of the chosen references that are aliases of that algorithm and signer to the object with that number.
fn link(
    b: &[u8],
    keys: &[usize],
    chosen: &[u16],
    a: Algorithm,
    signer: &[u8],
    number: u16,
    next: &mut [u16],
)
    requires { SomeReferences b.now keys.now × ((i : ℕ) → i < length chosen.now → get_or chosen.now i 0 < length keys.now)
        × (length keys.now ≤ length next.old) }
    ensures { (refs : List LayerReference) → AllStand b.now keys.now refs
        → Relinked a signer.now refs number chosen.now next.old next.new }
{
    for i in 0..chosen.len() {
        let e = chosen[i] as usize;
        if manifest_objects::is_alias_of(b, keys[e], a, signer) {
            next[e] = number;
        }
    }
}

// Links the alias of that algorithm and signer whose name stands from position p of b on to the object with that number.
fn link_name(
    b: &[u8],
    keys: &[usize],
    at: &[usize],
    order: &[u16],
    p: usize,
    a: Algorithm,
    signer: &[u8],
    number: u16,
    next: &mut [u16],
)
    requires { SomeTable b.now keys.now at.now order.now × SomeName b.now p × (length keys.now ≤ length next.old) }
    ensures { (refs : List LayerReference) (ks : List LayerKey) (n : List ℕ)
        → Table b.now keys.now at.now order.now refs
        → NameStands b.now p n → number < length refs → Links ks refs next.old
        → Links (ks ++ (layer_key a signer.now n (get_or refs number no_layer) ∷ [])) refs next.new }
{
    let r = manifest_objects::find(b, at, order, p);
    let from = r.from;
    let to = r.to;
    link(b, keys, &order[from..to], a, signer, number, next);
}

// Links the aliases that the image of record r defines to its objects, which have the numbers from `first` on.
fn link_image(
    b: &[u8],
    r: Record,
    q: Places,
    first: usize,
    keys: &[usize],
    at: &[usize],
    order: &[u16],
    next: &mut [u16],
    names: &mut [u16],
    owners: &mut [u16],
)
    requires { LinkableImage b.now r q first keys.now at.now order.now next.old names.old owners.old }
    ensures { (refs : List LayerReference) (ks : List LayerKey) → Table b.now keys.now at.now order.now refs
        → ObjectsFrom refs first (objects (between b.now r.text r.end)) → Links ks refs next.old
        → Links (ks ++ layer_keys (held_in b.now r)) refs next.new }
{
    let start = r.text;
    let end = r.end;
    let signer = r.signer;
    let digest = r.manifest;
    let a = r.algorithm;
    let n = manifest_objects::list_aliases(&b[start..end], q, names, owners);
    for k in 0..n {
        let p = start + names[k] as usize + 1;
        let number = first + owners[k] as usize;
        link_name(
            b,
            keys,
            at,
            order,
            p,
            a,
            &b[signer..digest],
            number as u16,
            next,
        );
    }
}

// Links all aliases that the images define; `names` and `owners` are room for those of one image.
pub fn link_all(
    b: &[u8],
    v: Survey,
    places: [Places; MOST_IMAGES],
    counts: &[u16],
    keys: &[usize],
    at: &[usize],
    order: &[u16],
    next: &mut [u16],
    names: &mut [u16],
    owners: &mut [u16],
)
    requires { LinkableStore b.now v places counts.now keys.now at.now order.now next.old names.old owners.old }
    ensures { (ls : List LayerReference)
        → Table b.now keys.now at.now order.now (objects_of (images_in b.now v) ++ ls)
        → Links [] (objects_of (images_in b.now v) ++ ls) next.old
        → Links (keys_in (images_in b.now v)) (objects_of (images_in b.now v) ++ ls) next.new }
{
    let mut first = 0;
    for j in 0..v.count {
        let r = v.records[j];
        let q = places[j];
        link_image(b, r, q, first, keys, at, order, next, names, owners);
        first += counts[j] as usize;
    }
}

// Writes the positions of the objects of all images, and how many each image has; answers how many they are.
fn place_all(
    b: &[u8],
    v: Survey,
    places: [Places; MOST_IMAGES],
    keys: &mut [usize],
    counts: &mut [u16],
) -> usize
    requires { OpenedStore b.now v places × (4096 ≤ length keys.old) × (length counts.old ≡ 64) }
    ensures { (result ≤ 4096) × CountedTo v.count b.now v counts.new
        × AllStand b.now (take result keys.new) (objects_of (images_in b.now v)) }
{
    let mut n = 0;
    for i in 0..v.count {
        let r = v.records[i];
        let start = r.text;
        let end = r.end;
        let q = places[i];
        let m = manifest_objects::place_objects(b, start, end, q, &mut keys[n..]);
        counts[i] = m as u16;
        n += m;
    }
    n
}

// Writes the positions of the objects of all images and of the layers of image i.
pub fn place_refs(
    b: &[u8],
    v: Survey,
    places: [Places; MOST_IMAGES],
    i: ImageIndex,
    keys: &mut [usize],
    counts: &mut [u16],
) -> Numbers
    requires { OpenedStore b.now v places × (i.0 < v.count) × (length keys.old ≡ 4160) × (length counts.old ≡ 64) }
    ensures { (result.objects ≡ object_count (images_in b.now v)) × (result.total ≤ 4160) × CountedTo v.count b.now v counts.new
        × AllStand b.now (take result.total keys.new)
        (objects_of (images_in b.now v) ++ layers (held_in b.now (get_or v.records i.0 no_record)).text) }
{
    let objects = place_all(b, v, places, keys, counts);
    let k = i.0;
    let r = v.records[k];
    let start = r.text;
    let end = r.end;
    let q = places[k];
    let m = manifest_objects::place_layers(b, start, end, q, &mut keys[objects..]);
    Numbers {
        objects,
        total: objects + m,
    }
}
