// How the layers of an image come out: each is followed to its digest, which must be in the layer list; the digests are written in the order of `layers`.
#![tactic(auto)]

ghost use Rattle.std.specs.Prelude.{◌≡◌, List, ◌++◌, map, ◌<◌, length, drop, get_or, Some};
ghost use Rattle.reference.specs.References.{Layer as LayerReference, no_layer};
ghost use Rattle.manifest_objects.specs.Objects.{AllStand};
ghost use Rattle.store_record.specs.Image.{Image};
ghost use Rattle.lookup_layers.specs.Layers.{LayerDigest, entry_of, list_of, layers_in, is_listed};
ghost use Rattle.lookup_layers.specs.Reading.{SomeList};
ghost use Rattle.lookup_paths.specs.Follow.{end_of};
ghost use Rattle.lookup_outcome.specs.Outcome.{failure_number, fate, outcome};
ghost use Rattle.lookup_outcome.specs.Resolving.{Resolving, SomeResolving, DigestStands, size_if, SomeDigest, EntryFits};
ghost use Rattle.lookup_outcome.specs.Resolving.{Answers, Checks, AllMet, Writable};

use lookup_links::PathEnd;
use reference::LayerIndex;
use reference::layer::Layer;
use reference_digests::algorithm::Algorithm;
use reference_digests::digest;

// Why a layer fails: an alias that no image defines, a path that never meets a digest, a digest that is not in the layer list.
#[derive(Clone, Copy)]
pub enum Failure {
    Undefined,
    Endless,
    Absent,
}

impl Failure {
    // The number of document 01's table.
    pub fn number(self) -> usize
        ensures { result ≡ failure_number self }
    {
        match self {
            Failure::Undefined => 17,
            Failure::Endless => 18,
            Failure::Absent => 19,
        }
    }
}

// A layer that is found: the number of its digest among the references, and the bytes of its entry.
#[derive(Clone, Copy)]
struct Present {
    number: usize,
    size: usize,
}

// The first layer that fails, and why.
#[derive(Clone, Copy)]
pub struct FailedLayer {
    pub layer: LayerIndex,
    pub why: Failure,
}

// How many bytes the entry has of the digest that stands from position k of b on, if it is in the layer list; and else 0.
fn size_if_present(b: &[u8], k: usize, present: &[u8]) -> usize
    requires { SomeDigest b.now k × SomeList present.now }
    ensures { (d : LayerDigest) (ds : List LayerDigest) → DigestStands b.now k d → layers_in present.now ≡ Some ds
        → result ≡ size_if (is_listed d ds) d }
{
    match manifest_objects::read(b, k) {
        Some(Layer::Digest(a, at)) => {
            let mut bytes = [0u8; Algorithm::SHA384_BYTES];
            digest::write(b, at, a, &mut bytes);
            let n = a.digest_bytes();
            if lookup_layers::has(present, a, &bytes[..n]) {
                return 1 + n;
            }
            0
        }
        Some(Layer::Alias { .. }) => 0,
        None => 0,
    }
}

// Follows the reference with number e, of which `objects` and less are objects.
fn fate_of(
    b: &[u8],
    keys: &[usize],
    next: &[u16],
    objects: usize,
    e: usize,
    present: &[u8],
) -> Result<Present, Failure>
    requires { SomeResolving b.now keys.now next.now present.now objects × (e < length keys.now) }
    ensures { (room : List Image) (refs : List LayerReference) (ds : List LayerDigest)
        → Resolving b.now keys.now next.now present.now objects room refs ds
        → Answers refs (fate ds (end_of room (get_or refs e no_layer))) result }
{
    match lookup_links::follow(next, e, objects) {
        PathEnd::Undefined => Err(Failure::Undefined),
        PathEnd::Endless => Err(Failure::Endless),
        PathEnd::Met(number) => {
            let size = size_if_present(b, keys[number], present);
            if size == 0 {
                return Err(Failure::Absent);
            }
            Ok(Present { number, size })
        }
    }
}

// Follows each of the references after the objects, until one fails; puts the numbers of their digests at the start of `numbers`, and answers how many
// bytes their list has.
pub fn check_all(
    b: &[u8],
    keys: &[usize],
    next: &[u16],
    objects: usize,
    present: &[u8],
    numbers: &mut [u16],
) -> Result<usize, FailedLayer>
    requires { SomeResolving b.now keys.now next.now present.now objects × (length numbers.old ≡ 64) }
    ensures { (room : List Image) (refs : List LayerReference) (ds : List LayerDigest)
        → Resolving b.now keys.now next.now present.now objects room refs ds
        → Checks refs (outcome ds (map (end_of room) (drop objects refs))) numbers.new result }
{
    let mut length = 0;
    for e in objects..keys.len() {
        match fate_of(b, keys, next, objects, e, present) {
            Ok(found) => {
                numbers[e - objects] = found.number as u16;
                length += found.size;
            }
            Err(why) => {
                let layer = LayerIndex(e - objects);
                return Err(FailedLayer { layer, why });
            }
        }
    }
    Ok(length)
}

// Writes the entry of the digest that stands from position k of b on at the start of `out`, and answers how many bytes it has.
fn write_entry(b: &[u8], k: usize, out: &mut [u8]) -> usize
    requires { EntryFits b.now k (length out.old) }
    ensures { (d : LayerDigest) → DigestStands b.now k d
        → (result ≡ length (entry_of d)) × (out.new ≡ entry_of d ++ drop result out.old) }
{
    match manifest_objects::read(b, k) {
        Some(Layer::Digest(a, at)) => {
            out[0] = a.byte();
            digest::write(b, at, a, &mut out[1..]);
            1 + a.digest_bytes()
        }
        Some(Layer::Alias { .. }) => 0,
        None => 0,
    }
}

// Writes the list of the digests with these numbers at the start of `out`. What follows stays.
pub fn write_all(b: &[u8], keys: &[usize], numbers: &[u16], out: &mut [u8])
    requires { Writable b.now keys.now numbers.now (length out.old) }
    ensures { (refs : List LayerReference) (ds : List LayerDigest) → AllStand b.now keys.now refs
        → AllMet refs numbers.now ds
        → out.new ≡ list_of ds ++ drop (length (list_of ds)) out.old }
{
    let mut n = 0;
    for number in numbers {
        n += write_entry(b, keys[*number as usize], &mut out[n..]);
    }
}
