// Loading an image into a store: images in one buffer.
#![tactic(auto)]

ghost use Rattle.std.specs.Prelude.{◌≡◌, true, not, ◌||◌, ◌+◌, length};
ghost use Rattle.laws.specs.Any.{any_of};
ghost use Rattle.text.specs.Answer.{is_canonical, text_place};
ghost use Rattle.text.specs.Question.{lowest};
ghost use Rattle.manifest.specs.Opened.{Opens};
ghost use Rattle.store_record.specs.Ids.{id_twice};
ghost use Rattle.store_record.specs.Reading.{images_in};
ghost use Rattle.store_record.specs.Store.{most_images, read_records};
ghost use Rattle.store_names.specs.Opened.{OpenedStore};
ghost use Rattle.store_keys.specs.Clash.{clash, any_clash};
ghost use Rattle.store_keys.specs.Signed.{one};
ghost use Rattle.store_open.specs.Held.{held};
ghost use Rattle.store.specs.Load.{image_of, store_questions, image_questions, load_number, load_used, load_bytes};
ghost use Rattle.store_append.specs.Append.{image_with, Digests, Storable};
ghost use Rattle.store.specs.Loading.{FormSpace, Readied, NameArrays, Loads, LoadsText};

use answer::{Answer, TextAnswer};
use manifest::{MOST_NAMES, Places};
use reference::ImageIndex;
use reference_digests::algorithm::Algorithm;
use store_record::{MOST_IMAGES, Survey};
use text::MOST_BYTES;

// A manifest of at most so many bytes is short. Most are, and for these smaller arrays are cleared.
const SHORT_BYTES: usize = 2048;

// Loads an image: appends its record to those of the first `used` bytes. A refusal changes no byte. All questions after the first six are asked of the
// manifest's canonical form, which is never longer than the manifest and gets the same answers.
pub fn load(id: &[u8], manifest: &[u8], store: &mut [u8], used: usize) -> TextAnswer
    ensures number_value { result.number ≡ load_number id.now manifest.now store.old used }
    ensures value_value { result.value ≡ load_used id.now manifest.now store.old used }
    ensures store_after { store.new ≡ load_bytes id.now manifest.now store.old used }
    ensures place_value { result.place ≡ text_place manifest.now }
{
    let mut sorted = [0u16; MOST_NAMES];
    let mut spare = [0u16; MOST_NAMES];
    if manifest.len() <= SHORT_BYTES {
        let mut form = [0u8; SHORT_BYTES];
        return load_within(
            id,
            manifest,
            store,
            used,
            &mut form,
            &mut sorted,
            &mut spare,
        );
    }
    let mut form = [0u8; MOST_BYTES];
    load_within(
        id,
        manifest,
        store,
        used,
        &mut form,
        &mut sorted,
        &mut spare,
    )
}

// The same with an array for the canonical form, which has space for that of every manifest that is not too long.
fn load_within(
    id: &[u8],
    manifest: &[u8],
    store: &mut [u8],
    used: usize,
    form: &mut [u8],
    sorted: &mut [u16],
    spare: &mut [u16],
) -> TextAnswer
    requires { FormSpace manifest.now form.old × NameArrays sorted.old spare.old }
    ensures { LoadsText id.now manifest.now store.old used result store.new }
{
    let written = text::canonical_with(manifest, form, sorted, spare);
    let number = written.number;
    if number != 0 {
        return answer::refused_at(store, number, written.place);
    }
    let n = written.value;
    let loaded = load_form(id, &form[..n], store, used, sorted, spare);
    answer::without_place(loaded)
}

// The same of a text that is its own canonical form.
fn load_form(
    id: &[u8],
    text: &[u8],
    store: &mut [u8],
    used: usize,
    sorted: &mut [u16],
    spare: &mut [u16],
) -> Answer
    requires { (is_canonical text.now ≡ true) × NameArrays sorted.old spare.old }
    ensures { Loads (load_number id.now text.now store.old used)
        (image_of id.now text.now) store.old used result store.new }
{
    match manifest::check_form(text, sorted, spare) {
        Err(f) => answer::refused(store, f.number()),
        Ok(good) => load_good(id, text, good.places, store, used, sorted, spare),
    }
}

// The same of a good manifest.
fn load_good(
    id: &[u8],
    text: &[u8],
    places: Places,
    store: &mut [u8],
    used: usize,
    sorted: &mut [u16],
    spare: &mut [u16],
) -> Answer
    requires { Readied text.now places × NameArrays sorted.old spare.old }
    ensures { Loads
        (lowest (image_questions (length store.old) (held store.old used) id.now text.now))
        (image_of id.now text.now) store.old used result store.new }
{
    let Some(image) = reference::id::read(id) else {
        return answer::refused(store, 10);
    };
    let algorithm = image.algorithm;
    let mut signer_bytes = [0u8; Algorithm::SHA384_BYTES];
    reference_digests::digest::write_plain(id, image.signer, algorithm, &mut signer_bytes);
    let mut digest_bytes = [0u8; Algorithm::SHA384_BYTES];
    reference_digests::digest::write_plain(id, image.manifest, algorithm, &mut digest_bytes);
    let n = algorithm.digest_bytes();
    load_image(
        algorithm,
        &signer_bytes[..n],
        &digest_bytes[..n],
        text,
        places,
        store,
        used,
        sorted,
        spare,
    )
}

// The same of an image whose ID has that algorithm and those digests.
fn load_image(
    a: Algorithm,
    signer: &[u8],
    digest: &[u8],
    text: &[u8],
    places: Places,
    store: &mut [u8],
    used: usize,
    sorted: &mut [u16],
    spare: &mut [u16],
) -> Answer
    requires { Readied text.now places × Digests a signer.now digest.now × NameArrays sorted.old spare.old }
    ensures { Loads
        (lowest (store_questions (length store.old) (held store.old used)
        (image_with a signer.now digest.now text.now)))
        (image_with a signer.now digest.now text.now) store.old used result store.new }
{
    if store.len() < used {
        return answer::refused(store, 11);
    }
    let left = store.len() - used;
    let number = number_in(
        a,
        signer,
        digest,
        text,
        places,
        &store[..used],
        left,
        sorted,
        spare,
    );
    if number != 0 {
        return answer::refused(store, number);
    }
    append(a, signer, digest, text, store, used)
}

// Questions 11 to 14 of the image, asked of the bytes b, after which `left` bytes are free; 0 where none applies.
fn number_in(
    a: Algorithm,
    signer: &[u8],
    digest: &[u8],
    text: &[u8],
    places: Places,
    b: &[u8],
    left: usize,
    sorted: &mut [u16],
    spare: &mut [u16],
) -> usize
    requires { Readied text.now places × Digests a signer.now digest.now × NameArrays sorted.old spare.old }
    ensures { result ≡ lowest (store_questions (length b.now + left) (read_records most_images b.now)
        (image_with a signer.now digest.now text.now)) }
{
    let Some(survey) = Survey::of(b) else {
        return 11;
    };
    let Some(all) = store_open::open_all(b, survey, sorted, spare) else {
        return 11;
    };
    if !are_apart(b, survey, all, sorted, spare) {
        return 11;
    }
    if store_ids::is_held(b, survey, a, signer, digest, ImageIndex(0)) {
        return 12;
    }
    let clashing = clashes(text, places, a, signer, b, survey, all, sorted, spare);
    store_append::number_left(a, text.len(), survey.count, left, clashing)
}

// No ID stands twice in the store, and no two images clash. The arrays for that are made only where there are two images.
fn are_apart(
    b: &[u8],
    v: Survey,
    places: [Places; MOST_IMAGES],
    sorted: &mut [u16],
    spare: &mut [u16],
) -> bool
    requires { OpenedStore b.now v places × NameArrays sorted.old spare.old }
    ensures { result ≡ not (id_twice (images_in b.now v) || any_clash (images_in b.now v)) }
{
    if v.count < 2 {
        return true;
    }
    let mut at = [0usize; MOST_NAMES];
    let mut heads = [0u32; MOST_NAMES];
    let mut keys = [0u16; MOST_BYTES];
    store_open::are_apart(b, v, places, &mut at, sorted, spare, &mut heads, &mut keys)
}

// The image of that algorithm and signer with the manifest `text` clashes with one of the store's images. The arrays for that are made only where one
// of these is of that signer, and are smaller for a short manifest.
fn clashes(
    text: &[u8],
    p: Places,
    a: Algorithm,
    signer: &[u8],
    b: &[u8],
    v: Survey,
    places: [Places; MOST_IMAGES],
    sorted: &mut [u16],
    spare: &mut [u16],
) -> bool
    requires { Opens text.now p × OpenedStore b.now v places × NameArrays sorted.old spare.old }
    ensures { result ≡ any_of (clash (one a signer.now text.now)) (images_in b.now v) }
{
    if !store_conflict::has_signer(b, v, a, signer, ImageIndex(0)) {
        return false;
    }
    let mut heads = [0u32; MOST_NAMES];
    if text.len() <= SHORT_BYTES {
        let mut keys = [0u16; SHORT_BYTES];
        return store_clash::clashes_with_any(
            text, p, a, signer, b, v, places, sorted, spare, &mut heads, &mut keys,
        );
    }
    let mut keys = [0u16; MOST_BYTES];
    store_clash::clashes_with_any(
        text, p, a, signer, b, v, places, sorted, spare, &mut heads, &mut keys,
    )
}

// Stores an image that no question refuses, and tells the new used count.
fn append(
    a: Algorithm,
    signer: &[u8],
    digest: &[u8],
    text: &[u8],
    store: &mut [u8],
    used: usize,
) -> Answer
    requires { Storable a signer.now digest.now text.now store.old used }
    ensures { Loads 0 (image_with a signer.now digest.now text.now)
        store.old used result store.new }
{
    let size = text.len();
    let end = used + store_write::head_size(a, size) + size;
    store_append::put_record(a, signer, digest, text, store, used);
    Answer {
        number: 0,
        value: end,
    }
}
