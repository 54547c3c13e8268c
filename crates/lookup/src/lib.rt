// Resolve: the layers of one image of a store as digests, each found by following aliases through the store's images.
#![tactic(auto)]

ghost use Rattle.std.specs.Prelude.{◌≡◌, true, false, MatchOption, length};
ghost use Rattle.store_record.specs.Store.{most_images, read_records};
ghost use Rattle.store_names.specs.Opened.{OpenedStore};
ghost use Rattle.store_open.specs.Held.{is_broken};
ghost use Rattle.lookup.specs.Resolve.{resolve_number, held_outcome};
ghost use Rattle.lookup_answer.specs.Answers.{Resolves};

use answer::Answer;
use lookup_image::MOST_REFERENCES;
use manifest::MOST_NAMES;
use reference::ImageIndex;
use store_open::Opened;
use text::MOST_BYTES;

// Opens the store, with parts of the arrays that resolving needs afterwards. The one that it does not need is made here, so that its place on the stack
// is free again.
fn open_store(
    b: &[u8],
    at: &mut [usize],
    order: &mut [u16],
    names: &mut [u16],
    keys: &mut [u16],
) -> Option<Opened>
    requires { (length at.old ≡ 4160) × (length order.old ≡ 4160) × (length names.old ≡ 4096) × (length keys.old ≡ 16384) }
    ensures { MatchOption result (is_broken (length b.now) (read_records most_images b.now) ≡ true)
        (λ o. (is_broken (length b.now) (read_records most_images b.now) ≡ false) × OpenedStore b.now o.survey o.places) }
{
    let mut heads = [0u32; MOST_NAMES];
    store_open::open(
        b,
        &mut at[..MOST_NAMES],
        &mut order[..MOST_NAMES],
        names,
        &mut heads,
        keys,
    )
}

// Resolves the layers of an image among those in the first `used` bytes of a store, of which `layers` lists those that are present: writes their digests
// at the start of `out`. A refusal changes no byte. The arrays are made once, for opening the store and then for resolving.
pub fn resolve(
    store: &[u8],
    used: usize,
    layers: &[u8],
    image: ImageIndex,
    out: &mut [u8],
) -> Answer
    ensures { Resolves (resolve_number store.now used layers.now image.0 (length out.old))
        (held_outcome store.now used layers.now image.0) out.old result out.new }
{
    if store.len() < used {
        return answer::refused(out, 11);
    }
    let b = &store[..used];
    let mut at = [0usize; MOST_REFERENCES];
    let mut order = [0u16; MOST_REFERENCES];
    let mut names = [0u16; MOST_NAMES];
    let mut keys = [0u16; MOST_BYTES];
    let Some(opened) = open_store(b, &mut at, &mut order, &mut names, &mut keys) else {
        return answer::refused(out, 11);
    };
    if !lookup_layers::is_list(layers) {
        return answer::refused(out, 15);
    }
    let survey = opened.survey;
    if image.0 >= survey.count {
        return answer::refused(out, 16);
    }
    let places = opened.places;
    lookup_image::resolve_in(
        b, survey, places, image, layers, &mut at, &mut order, &mut names, &mut keys, out,
    )
}
