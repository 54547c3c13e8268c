// Whether a store holds an ID, and whether one stands in it twice.
#![tactic(auto)]

ghost use Rattle.std.specs.Prelude.{◌≡◌, false, drop};
ghost use Rattle.laws.specs.Any.{any_of};
ghost use Rattle.reference.specs.References.{image_id};
ghost use Rattle.store_record.specs.Ids.{has_id, id_twice};
ghost use Rattle.store_record.specs.Reading.{images_in, Fills};

use reference::ImageIndex;
use reference_digests::algorithm::Algorithm;
use store_record::Survey;

// Some image from index i on has that ID.
pub fn is_held(
    s: &[u8],
    v: Survey,
    a: Algorithm,
    signer: &[u8],
    manifest: &[u8],
    i: ImageIndex,
) -> bool
    requires { Fills s.now v }
    ensures { result ≡ any_of (has_id (image_id a signer.now manifest.now)) (drop i.0 (images_in s.now v)) }
{
    for j in i.0..v.count {
        let r = v.records[j];
        if r.has_id(s, a, signer, manifest) {
            return true;
        }
    }
    false
}

// Some ID stands in two images.
pub fn id_twice(s: &[u8], v: Survey) -> bool
    requires { Fills s.now v }
    ensures { result ≡ id_twice (images_in s.now v) }
{
    for i in 0..v.count {
        let r = v.records[i];
        let a = r.algorithm;
        let from = r.signer;
        let to = r.manifest;
        let end = r.text;
        if is_held(s, v, a, &s[from..to], &s[to..end], ImageIndex(i + 1)) {
            return true;
        }
    }
    false
}
