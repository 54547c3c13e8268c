// When images define one key: an image beside those of a store, and the images of a store among themselves. Keys hold the algorithm and the signer,
// so images of another signer are passed over; of one side the names are sorted once, and those of the other side are looked up there. The names that
// the images of a store have for themselves are compared in one index of all. Arrays are lent by the caller, who makes them once.
#![tactic(auto)]

ghost use Rattle.std.specs.Prelude.{◌≡◌, length};
ghost use Rattle.laws.specs.Any.{any_of};
ghost use Rattle.manifest.specs.Opened.{Opens};
ghost use Rattle.store_record.specs.Reading.{images_in};
ghost use Rattle.store_keys.specs.Clash.{clash, any_clash};
ghost use Rattle.store_names.specs.Opened.{OpenedStore};
ghost use Rattle.store_keys.specs.Signed.{one};
ghost use Rattle.store_conflict.specs.Lent.{ClashSpace};

use manifest::Places;
use reference::ImageIndex;
use reference_digests::algorithm::Algorithm;
use store_conflict::Aliases;
use store_record::{MOST_IMAGES, Survey};

// The image of that algorithm and signer with the manifest s clashes with one of the store's images. What the arrays hold is overwritten. A caller
// that knows of no image of that signer in the store need not ask.
pub fn clashes_with_any(
    s: &[u8],
    p: Places,
    a: Algorithm,
    signer: &[u8],
    b: &[u8],
    v: Survey,
    places: [Places; MOST_IMAGES],
    sorted: &mut [u16],
    spare: &mut [u16],
    heads: &mut [u32],
    keys: &mut [u16],
) -> bool
    requires { Opens s.now p × OpenedStore b.now v places × ClashSpace (length s.now) sorted.old spare.old heads.old keys.old }
    ensures { result ≡ any_of (clash (one a signer.now s.now)) (images_in b.now v) }
{
    let i = ImageIndex(0);
    if store_conflict::any_clashes_with(
        Aliases::Own,
        s,
        p,
        a,
        signer,
        b,
        v,
        places,
        i,
        sorted,
        spare,
        heads,
        keys,
    ) {
        return true;
    }
    store_conflict::any_clashes_with(
        Aliases::Layers,
        s,
        p,
        a,
        signer,
        b,
        v,
        places,
        i,
        sorted,
        spare,
        heads,
        keys,
    )
}

// Some two images of the store clash. What the arrays hold is overwritten.
pub fn any_clash(
    b: &[u8],
    v: Survey,
    places: [Places; MOST_IMAGES],
    at: &mut [usize],
    sorted: &mut [u16],
    spare: &mut [u16],
    heads: &mut [u32],
    keys: &mut [u16],
) -> bool
    requires { OpenedStore b.now v places × (length at.old ≡ 4096) × ClashSpace 16384 sorted.old spare.old heads.old keys.old }
    ensures { result ≡ any_clash (images_in b.now v) }
{
    if v.count < 2 {
        return false;
    }
    if store_shared::any_shared(b, v, places, at, sorted, spare) {
        return true;
    }
    store_conflict::any_conflict(b, v, places, sorted, spare, heads, keys)
}
