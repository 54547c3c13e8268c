// Whether images of a store define one layer key for different objects. An image's layer names are sorted once, and those of other images looked up.
// The same search serves the names that images have for themselves.
#![tactic(auto)]

ghost use Rattle.std.specs.Prelude.{◌≡◌, ◌+◌, ◌≤◌, ◌<◌, length, take, drop, get_or};
ghost use Rattle.laws.specs.Any.{any_of, any_pair};
ghost use Rattle.manifest_heads.specs.Heads.{HeadsOf};
ghost use Rattle.manifest.specs.Names.{NameSpace};
ghost use Rattle.manifest.specs.Opened.{Opens};
ghost use Rattle.store_record.specs.Reading.{between, held_in, images_in, no_record, RecordIn, Fills};
ghost use Rattle.store_names.specs.Opened.{OpenedStore};
ghost use Rattle.store_keys.specs.Signed.{is_signed, layers_clash};
ghost use Rattle.store_conflict.specs.Asked.{SortedAliases, clashes_in};
ghost use Rattle.store_conflict.specs.Lent.{ClashSpace};

use manifest::Places;
use reference::ImageIndex;
use reference_digests::algorithm::Algorithm;
use store_record::{MOST_IMAGES, Record, Survey};

// The aliases of a manifest that are asked about: those of the image itself, or those of its layers.
#[derive(Clone, Copy)]
pub enum Aliases {
    Own,
    Layers,
}

// The image of a record is of that signer, and has an alias of s for itself, or one of a layer that stands in s for another object, as `which` says.
// `names` are the aliases of s that are asked about, sorted, with their heads; `keys` is what sorting the aliases of layers gave, and else not read.
fn clashes_in(
    which: Aliases,
    s: &[u8],
    names: &[u16],
    heads: &[u32],
    keys: &[u16],
    a: Algorithm,
    signer: &[u8],
    b: &[u8],
    r: Record,
    q: Places,
) -> bool
    requires { SortedAliases which s.now names.now keys.now × HeadsOf s.now names.now heads.now × RecordIn b.now r
        × Opens (between b.now r.text r.end) q }
    ensures { result ≡ clashes_in which a signer.now s.now (held_in b.now r) }
{
    if !r.is_signed_by(b, a, signer) {
        return false;
    }
    let start = r.text;
    let end = r.end;
    let t = &b[start..end];
    match which {
        Aliases::Own => manifest_aliases::shares_self(s, names, heads, t, q),
        Aliases::Layers => manifest_aliases::conflicts(s, names, heads, keys, t, q),
    }
}

// Some image of the store from index i on clashes with s in these aliases.
fn any_clashes_in(
    which: Aliases,
    s: &[u8],
    names: &[u16],
    heads: &[u32],
    keys: &[u16],
    a: Algorithm,
    signer: &[u8],
    b: &[u8],
    v: Survey,
    places: [Places; MOST_IMAGES],
    i: ImageIndex,
) -> bool
    requires { SortedAliases which s.now names.now keys.now × HeadsOf s.now names.now heads.now × OpenedStore b.now v places }
    ensures { result ≡ any_of (clashes_in which a signer.now s.now) (drop i.0 (images_in b.now v)) }
{
    for j in i.0..v.count {
        let r = v.records[j];
        let q = places[j];
        if clashes_in(which, s, names, heads, keys, a, signer, b, r, q) {
            return true;
        }
    }
    false
}

// Some image from index i on is of that signer.
pub fn has_signer(b: &[u8], v: Survey, a: Algorithm, signer: &[u8], i: ImageIndex) -> bool
    requires { Fills b.now v }
    ensures { result ≡ any_of (is_signed a signer.now) (drop i.0 (images_in b.now v)) }
{
    for j in i.0..v.count {
        let r = v.records[j];
        if r.is_signed_by(b, a, signer) {
            return true;
        }
    }
    false
}

// Puts the positions of the aliases of the manifest s that are asked about, sorted by name, at the start of `sorted`, and for those of layers the
// positions of their keys into `keys`; answers how many there are.
fn sort_names(
    which: Aliases,
    s: &[u8],
    p: Places,
    sorted: &mut [u16],
    spare: &mut [u16],
    keys: &mut [u16],
) -> usize
    requires { Opens s.now p × NameSpace sorted.old spare.old × (length s.now ≤ length keys.old) }
    ensures { (result ≤ length sorted.new) × SortedAliases which s.now (take result sorted.new) keys.new }
{
    match which {
        Aliases::Own => manifest_aliases::sort_self(s, p, sorted, spare),
        Aliases::Layers => manifest_aliases::sort_contents(s, p, sorted, spare, keys),
    }
}

// The same, with the heads of the names. It takes no part of the store, so that its caller's copy of that is the only one.
fn sort_asked(
    which: Aliases,
    s: &[u8],
    p: Places,
    sorted: &mut [u16],
    spare: &mut [u16],
    heads: &mut [u32],
    keys: &mut [u16],
) -> usize
    requires { Opens s.now p × ClashSpace (length s.now) sorted.old spare.old heads.old keys.old }
    ensures { (result ≤ length sorted.new) × SortedAliases which s.now (take result sorted.new) keys.new
        × HeadsOf s.now (take result sorted.new) heads.new }
{
    let n = sort_names(which, s, p, sorted, spare, keys);
    manifest_aliases::fill_heads(s, &sorted[..n], heads);
    n
}

// Some image of the store from index i on clashes with the image of that algorithm and signer with the manifest s, in the aliases that are asked
// about. What the arrays hold is overwritten.
pub fn any_clashes_with(
    which: Aliases,
    s: &[u8],
    p: Places,
    a: Algorithm,
    signer: &[u8],
    b: &[u8],
    v: Survey,
    places: [Places; MOST_IMAGES],
    i: ImageIndex,
    sorted: &mut [u16],
    spare: &mut [u16],
    heads: &mut [u32],
    keys: &mut [u16],
) -> bool
    requires { Opens s.now p × OpenedStore b.now v places × ClashSpace (length s.now) sorted.old spare.old heads.old keys.old }
    ensures { result ≡ any_of (clashes_in which a signer.now s.now) (drop i.0 (images_in b.now v)) }
{
    let n = sort_asked(which, s, p, sorted, spare, heads, keys);
    any_clashes_in(
        which,
        s,
        &sorted[..n],
        heads,
        keys,
        a,
        signer,
        b,
        v,
        places,
        i,
    )
}

// The store's image with index i has an alias of a layer for another object than a later image of its signer.
fn conflicts_later(
    b: &[u8],
    v: Survey,
    all: [Places; MOST_IMAGES],
    i: ImageIndex,
    sorted: &mut [u16],
    spare: &mut [u16],
    heads: &mut [u32],
    keys: &mut [u16],
) -> bool
    requires { OpenedStore b.now v all × (i.0 < v.count) × ClashSpace 16384 sorted.old spare.old heads.old keys.old }
    ensures { result ≡ any_of (layers_clash (held_in b.now (get_or v.records i.0 no_record))) (drop (i.0 + 1) (images_in b.now v)) }
{
    let k = i.0;
    let r = v.records[k];
    let a = r.algorithm;
    let from = r.signer;
    let to = r.manifest;
    let next = ImageIndex(k + 1);
    if !has_signer(b, v, a, &b[from..to], next) {
        return false;
    }
    let start = r.text;
    let end = r.end;
    let p = all[k];
    let s = &b[start..end];
    let signer = &b[from..to];
    any_clashes_with(
        Aliases::Layers,
        s,
        p,
        a,
        signer,
        b,
        v,
        all,
        next,
        sorted,
        spare,
        heads,
        keys,
    )
}

// Some two images of the store have one layer key for different objects.
pub fn any_conflict(
    b: &[u8],
    v: Survey,
    places: [Places; MOST_IMAGES],
    sorted: &mut [u16],
    spare: &mut [u16],
    heads: &mut [u32],
    keys: &mut [u16],
) -> bool
    requires { OpenedStore b.now v places × ClashSpace 16384 sorted.old spare.old heads.old keys.old }
    ensures { result ≡ any_pair layers_clash (images_in b.now v) }
{
    for i in 0..v.count {
        if conflicts_later(b, v, places, ImageIndex(i), sorted, spare, heads, keys) {
            return true;
        }
    }
    false
}
