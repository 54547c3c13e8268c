// Whether the bytes of a buffer are a well-formed store, and what is found on the way.
#![tactic(auto)]

ghost use Rattle.std.specs.Prelude.{◌≡◌, true, false, not, ◌||◌, MatchOption, length};
ghost use Rattle.laws.specs.Any.{any_of};
ghost use Rattle.manifest.specs.Names.{NameSpace};
ghost use Rattle.store_record.specs.Ids.{id_twice};
ghost use Rattle.store_record.specs.Store.{most_images, read_records};
ghost use Rattle.store_keys.specs.Clash.{any_clash};
ghost use Rattle.store_conflict.specs.Lent.{ClashSpace};
ghost use Rattle.store_record.specs.Reading.{Fills, images_in};
ghost use Rattle.store_names.specs.Opened.{OpenedStore};
ghost use Rattle.store_open.specs.Held.{is_unfit, is_broken};

use manifest::Places;
use store_record::{MOST_IMAGES, Survey};

// A well-formed store's records, and the places in its manifests.
#[derive(Clone, Copy)]
pub struct Opened {
    pub survey: Survey,
    pub places: [Places; MOST_IMAGES],
}

// Opens each manifest of a store: the places in them, or none where one is not canonical or gets one of 1 to 9. What the arrays hold is overwritten.
// It is not inlined, so that its array has left the stack when the images are compared.
#[inline(never)]
pub fn open_all(
    b: &[u8],
    v: Survey,
    names: &mut [u16],
    spare: &mut [u16],
) -> Option<[Places; MOST_IMAGES]>
    requires { Fills b.now v × NameSpace names.old spare.old }
    ensures { MatchOption result (any_of is_unfit (images_in b.now v) ≡ true)
        (λ places. (any_of is_unfit (images_in b.now v) ≡ false) × OpenedStore b.now v places) }
{
    let mut places = [Places::none(); MOST_IMAGES];
    for i in 0..v.count {
        let r = v.records[i];
        let start = r.text;
        let end = r.end;
        let Ok(good) = manifest::check_with(&b[start..end], names, spare) else {
            return None;
        };
        if !good.canonical {
            return None;
        }
        places[i] = good.places;
    }
    Some(places)
}

// No ID stands twice, and no two images clash. What the arrays hold is overwritten.
pub fn are_apart(
    b: &[u8],
    v: Survey,
    places: [Places; MOST_IMAGES],
    at: &mut [usize],
    sorted: &mut [u16],
    spare: &mut [u16],
    heads: &mut [u32],
    keys: &mut [u16],
) -> bool
    requires { OpenedStore b.now v places × (length at.old ≡ 4096) × ClashSpace 16384 sorted.old spare.old heads.old keys.old }
    ensures { result ≡ not (id_twice (images_in b.now v) || any_clash (images_in b.now v)) }
{
    if store_ids::id_twice(b, v) {
        return false;
    }
    !store_clash::any_clash(b, v, places, at, sorted, spare, heads, keys)
}

// Opens the bytes b as a store, if they are a well-formed one. The arrays are lent, so that a caller that needs them again has them on its stack once;
// what they hold is overwritten.
pub fn open(
    b: &[u8],
    at: &mut [usize],
    sorted: &mut [u16],
    spare: &mut [u16],
    heads: &mut [u32],
    keys: &mut [u16],
) -> Option<Opened>
    requires { (length at.old ≡ 4096) × ClashSpace 16384 sorted.old spare.old heads.old keys.old }
    ensures { MatchOption result (is_broken (length b.now) (read_records most_images b.now) ≡ true)
        (λ o. (is_broken (length b.now) (read_records most_images b.now) ≡ false) × OpenedStore b.now o.survey o.places) }
{
    let survey = Survey::of(b)?;
    let places = open_all(b, survey, sorted, spare)?;
    if !are_apart(b, survey, places, at, sorted, spare, heads, keys) {
        return None;
    }
    Some(Opened { survey, places })
}
