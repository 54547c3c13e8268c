// Rules of a launch policy: HASH/SIGNER/MANIFEST, where SIGNER may be `*` and MANIFEST an alias or `*`.
ghost use Rattle.std.specs.Prelude.{◌≡◌, true};
ghost use Rattle.text_strings.specs.InString.{Inside, content_from};
ghost use Rattle.reference_parts.specs.Parts.{first_part};
ghost use Rattle.reference_parts.specs.Readings.{PartAt, Divided};
ghost use Rattle.reference.specs.References.{is_signer, is_manifest, signer_of, manifest_of};
ghost use Rattle.reference.specs.Readings.{SignerAt, signer_form, ManifestAt, manifest_form, RuleUnder, RuleReads};

use reference_digests::algorithm::Algorithm;
use reference_parts::part;
use reference_parts::part::Part;

// Any signer, or the one whose digest stands at a position.
#[derive(Clone, Copy)]
pub enum Signer {
    Any,
    Digest(usize),
}

// Any manifest, the one whose digest stands at a position, or those that have the alias at a position.
#[derive(Clone, Copy)]
pub enum Manifest {
    Any,
    Digest(usize),
    Alias(usize),
}

#[derive(Clone, Copy)]
pub struct Rule {
    pub algorithm: Algorithm,
    pub signer: Signer,
    pub manifest: Manifest,
}

// The string whose content begins at position i.
pub fn read(s: &[u8], i: usize) -> Option<Rule>
    requires { Inside s.now i }
    ensures { RuleReads s.now i result }
{
    let hash = part::read(s, i);
    if hash.last {
        return None;
    }
    let signer = part::read(s, hash.next);
    if signer.last {
        return None;
    }
    let manifest = part::read(s, signer.next);
    if !manifest.last {
        return None;
    }
    let algorithm = reference_digests::algorithm::named(s, false, i, hash.length)?;
    under(s, algorithm, hash.next, signer, manifest)
}

// The rule of an algorithm with SIGNER at position i, and MANIFEST after it.
fn under(s: &[u8], a: Algorithm, i: usize, signer: Part, manifest: Part) -> Option<Rule>
    requires { Divided s.now i signer manifest × (manifest.last ≡ true) }
    ensures { RuleUnder s.now a i signer.next result }
{
    let j = signer.next;
    if !is_signer(s, a, i, signer) {
        return None;
    }
    if !is_manifest(s, a, j, manifest) {
        return None;
    }
    Some(Rule {
        algorithm: a,
        signer: signer_of(s, a, i, signer),
        manifest: manifest_of(s, a, j, manifest),
    })
}

fn is_signer(s: &[u8], a: Algorithm, i: usize, p: Part) -> bool
    requires { Inside s.now i × PartAt s.now i p }
    ensures { result ≡ is_signer a (first_part (content_from s.now i)) }
{
    part::is(s, i, p.length, b"*") || reference_digests::digest::is_digest(a, p.length, p.hex)
}

fn is_manifest(s: &[u8], a: Algorithm, i: usize, p: Part) -> bool
    requires { Inside s.now i × PartAt s.now i p }
    ensures { result ≡ is_manifest a (first_part (content_from s.now i)) }
{
    part::is(s, i, p.length, b"*")
        || (reference_digests::digest::is_digest(a, p.length, p.hex)
            || reference_aliases::is_alias_part(s, i, p))
}

fn signer_of(s: &[u8], a: Algorithm, i: usize, p: Part) -> Signer
    requires { Inside s.now i × PartAt s.now i p × (is_signer a (first_part (content_from s.now i)) ≡ true) }
    ensures { SignerAt s.now a result × (signer_form s.now result ≡ signer_of (first_part (content_from s.now i))) }
{
    if part::is(s, i, p.length, b"*") {
        return Signer::Any;
    }
    Signer::Digest(i)
}

fn manifest_of(s: &[u8], a: Algorithm, i: usize, p: Part) -> Manifest
    requires { Inside s.now i × PartAt s.now i p × (p.last ≡ true) }
    ensures { ManifestAt s.now a result × (manifest_form s.now result ≡ manifest_of a (content_from s.now i)) }
{
    if part::is(s, i, p.length, b"*") {
        return Manifest::Any;
    }
    if reference_digests::digest::is_digest(a, p.length, p.hex) {
        return Manifest::Digest(i);
    }
    Manifest::Alias(i)
}
