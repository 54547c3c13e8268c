// The answer of resolve, once every reference is linked: the first layer that fails, or the digests written.
#![tactic(auto)]

ghost use Rattle.std.specs.Prelude.{◌≡◌, List, map, length, drop};
ghost use Rattle.text.specs.Question.{lowest};
ghost use Rattle.reference.specs.References.{Layer as LayerReference};
ghost use Rattle.store_record.specs.Image.{Image};
ghost use Rattle.lookup_layers.specs.Layers.{LayerDigest};
ghost use Rattle.lookup_paths.specs.Follow.{end_of};
ghost use Rattle.lookup_outcome.specs.Outcome.{failure_number, outcome};
ghost use Rattle.lookup_outcome.specs.Resolving.{Resolving, SomeResolving};
ghost use Rattle.lookup_answer.specs.Answers.{layer_questions, Resolves};

use answer::Answer;
use lookup_outcome::Failure;
use manifest::MOST_ENTRIES;
use reference::LayerIndex;

// The refusal by a layer that fails, with its index.
fn failed(out: &mut [u8], layer: LayerIndex, f: Failure) -> Answer
    ensures number_value { (result.number ≡ failure_number f) × (result.value ≡ layer.0) }
    ensures out_unchanged { out.new ≡ out.old }
{
    answer::refused_with(out, f.number(), layer.0)
}

// Writes the digests of the references after the first `objects`, which are layers, once every reference is linked.
pub fn write_layers(
    b: &[u8],
    keys: &[usize],
    next: &[u16],
    objects: usize,
    present: &[u8],
    out: &mut [u8],
) -> Answer
    requires { SomeResolving b.now keys.now next.now present.now objects }
    ensures { (room : List Image) (refs : List LayerReference) (ds : List LayerDigest)
        → Resolving b.now keys.now next.now present.now objects room refs ds
        → Resolves (lowest (layer_questions (outcome ds (map (end_of room) (drop objects refs))) (length out.old)))
        (outcome ds (map (end_of room) (drop objects refs))) out.old result out.new }
{
    let mut numbers = [0u16; MOST_ENTRIES];
    let count = keys.len() - objects;
    match lookup_outcome::check_all(b, keys, next, objects, present, &mut numbers) {
        Err(failing) => failed(out, failing.layer, failing.why),
        Ok(length) => {
            if out.len() < length {
                return answer::refused(out, 20);
            }
            lookup_outcome::write_all(b, keys, &numbers[..count], out);
            Answer {
                number: 0,
                value: length,
            }
        }
    }
}
