// The layers of one image of an opened store: all references of the store are placed and linked, and those of the image followed.
#![tactic(auto)]

ghost use Rattle.std.specs.Prelude.{List, ◌++◌, length};
ghost use Rattle.text.specs.Question.{lowest};
ghost use Rattle.reference.specs.References.{Layer as LayerReference};
ghost use Rattle.manifest_objects.specs.Objects.{AllStand};
ghost use Rattle.store_record.specs.Reading.{images_in};
ghost use Rattle.lookup_layers.specs.Layers.{layers_in};
ghost use Rattle.lookup_paths.specs.Follow.{keys_in, objects_of};
ghost use Rattle.lookup_links.specs.Links.{Links};
ghost use Rattle.lookup_image.specs.Layers.{outcome_in, present_in};
ghost use Rattle.lookup_answer.specs.Answers.{layer_questions, Resolves};
ghost use Rattle.lookup_image.specs.Lent.{Resolvable, Linkable};

use answer::Answer;
use manifest::{MOST_ENTRIES, Places};
use reference::ImageIndex;
use store_record::{MOST_IMAGES, Survey};

// The most references that a store and the layers of one of its images have.
pub const MOST_REFERENCES: usize = MOST_IMAGES * MOST_ENTRIES + MOST_ENTRIES;

// The layers of an image of an opened store, as digests, at the start of `out`. The arrays lent are room for the names of aliases.
pub fn resolve_in(
    b: &[u8],
    v: Survey,
    places: [Places; MOST_IMAGES],
    i: ImageIndex,
    present: &[u8],
    at: &mut [usize],
    order: &mut [u16],
    names: &mut [u16],
    owners: &mut [u16],
    out: &mut [u8],
) -> Answer
    requires { Resolvable b.now v places i.0 present.now at.old order.old names.old owners.old }
    ensures { Resolves
        (lowest (layer_questions (outcome_in (images_in b.now v) i.0 (present_in (layers_in present.now))) (length out.old)))
        (outcome_in (images_in b.now v) i.0 (present_in (layers_in present.now))) out.old result out.new }
{
    let mut keys = [0usize; MOST_REFERENCES];
    let mut next = [0u16; MOST_REFERENCES];
    let mut counts = [0u16; MOST_IMAGES];
    let n = lookup_table::place_refs(b, v, places, i, &mut keys, &mut counts);
    let total = n.total;
    link_refs(
        b,
        v,
        places,
        &counts,
        &keys[..total],
        at,
        order,
        &mut next,
        names,
        owners,
    );
    lookup_answer::write_layers(b, &keys[..total], &next, n.objects, present, out)
}

// Links the references that stand at the positions `keys`, as far as the images define them.
fn link_refs(
    b: &[u8],
    v: Survey,
    places: [Places; MOST_IMAGES],
    counts: &[u16],
    keys: &[usize],
    at: &mut [usize],
    order: &mut [u16],
    next: &mut [u16],
    names: &mut [u16],
    owners: &mut [u16],
)
    requires { Linkable b.now v places counts.now keys.now at.old order.old next.old names.old owners.old }
    ensures { (ls : List LayerReference) → AllStand b.now keys.now (objects_of (images_in b.now v) ++ ls)
        → Links (keys_in (images_in b.now v)) (objects_of (images_in b.now v) ++ ls) next.new }
{
    let n = keys.len();
    let aliases = lookup_index::tabulate(b, keys, at, &mut next[..n], order);
    lookup_table::link_all(
        b,
        v,
        places,
        counts,
        keys,
        at,
        &order[..aliases],
        next,
        names,
        owners,
    );
}
