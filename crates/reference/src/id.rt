// Image IDs: HASH/SIGNER/MANIFEST, both digests.
ghost use Rattle.std.specs.Prelude.{◌≡◌, List, ℕ, length};
ghost use Rattle.reference_parts.specs.Parts.{first_part};
ghost use Rattle.reference_parts.specs.Readings.{Counts};
ghost use Rattle.reference.specs.Readings.{IdUnder, IdReads};

use reference_digests::algorithm::Algorithm;
use reference_parts::part;
use reference_parts::part::Part;

// An image's algorithm, with the positions of its signer's and its manifest's digest.
#[derive(Clone, Copy)]
pub struct Id {
    pub algorithm: Algorithm,
    pub signer: usize,
    pub manifest: usize,
}

pub fn read(id: &[u8]) -> Option<Id>
    ensures { IdReads id.now result }
{
    let hash = part::read_plain(id, 0);
    if hash.last {
        return None;
    }
    let signer = part::read_plain(id, hash.next);
    if signer.last {
        return None;
    }
    let manifest = part::read_plain(id, signer.next);
    if !manifest.last {
        return None;
    }
    let algorithm = reference_digests::algorithm::named(id, true, 0, hash.length)?;
    under(algorithm, hash.next, signer, manifest)
}

// The Image ID of an algorithm with SIGNER at a position, and MANIFEST after it.
fn under(a: Algorithm, i: usize, signer: Part, manifest: Part) -> Option<Id>
    ensures { (c d : List ℕ) → Counts c signer → Counts d manifest → IdUnder a (first_part c) (first_part d) i signer.next result }
{
    if !reference_digests::digest::is_digest(a, signer.length, signer.hex) {
        return None;
    }
    if !reference_digests::digest::is_digest(a, manifest.length, manifest.hex) {
        return None;
    }
    Some(Id {
        algorithm: a,
        signer: i,
        manifest: signer.next,
    })
}
