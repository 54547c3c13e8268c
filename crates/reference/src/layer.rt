// Layer references: HASH/FSLAYER, or signer/HASH/SIGNER/ALIAS.
ghost use Rattle.std.specs.Prelude.{◌≡◌, true};
ghost use Rattle.text_strings.specs.InString.{Inside};
ghost use Rattle.reference_parts.specs.Readings.{Divided};
ghost use Rattle.reference.specs.Readings.{LayerReads};

use reference_digests::algorithm::Algorithm;
use reference_parts::part;
use reference_parts::part::Part;

// A layer by its digest, at a position, or by an alias, with the positions of its signer and its name.
#[derive(Clone, Copy)]
pub enum Layer {
    Digest(Algorithm, usize),
    Alias {
        algorithm: Algorithm,
        signer: usize,
        alias: usize,
    },
}

// The string whose content begins at position i.
pub fn read(s: &[u8], i: usize) -> Option<Layer>
    requires { Inside s.now i }
    ensures { LayerReads s.now i result }
{
    let first = part::read(s, i);
    if first.last {
        return None;
    }
    let second = part::read(s, first.next);
    if second.last {
        return by_digest(s, i, first, second);
    }
    let third = part::read(s, second.next);
    if third.last {
        return None;
    }
    let fourth = part::read(s, third.next);
    if fourth.last {
        return by_alias(s, i, first, second, third, fourth);
    }
    None
}

// Two parts, from position i on.
fn by_digest(s: &[u8], i: usize, first: Part, second: Part) -> Option<Layer>
    requires { Divided s.now i first second × (second.last ≡ true) }
    ensures { LayerReads s.now i result }
{
    let algorithm = reference_digests::algorithm::named(s, false, i, first.length)?;
    if !reference_digests::digest::is_digest(algorithm, second.length, second.hex) {
        return None;
    }
    Some(Layer::Digest(algorithm, first.next))
}

// Four parts, from position i on.
fn by_alias(
    s: &[u8],
    i: usize,
    first: Part,
    second: Part,
    third: Part,
    fourth: Part,
) -> Option<Layer>
    requires { Divided s.now i first second × Divided s.now first.next second third × Divided s.now second.next third fourth
        × (fourth.last ≡ true) }
    ensures { LayerReads s.now i result }
{
    if !part::is(s, i, first.length, b"signer") {
        return None;
    }
    let algorithm = reference_digests::algorithm::named(s, false, first.next, second.length)?;
    if !reference_digests::digest::is_digest(algorithm, third.length, third.hex) {
        return None;
    }
    if !reference_aliases::is_alias_part(s, third.next, fourth) {
        return None;
    }
    Some(Layer::Alias {
        algorithm,
        signer: second.next,
        alias: third.next,
    })
}
