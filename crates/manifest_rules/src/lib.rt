// The rules of a launch policy one by one: their strings are found in one walk, each is read once, and then matched with images. Which of them have an
// alias that it asks for is looked up before, in an index of all their own aliases.
#![tactic(auto)]

ghost use Rattle.std.specs.Prelude.{◌≡◌, List, ℕ, ◌≤◌, length, take};
ghost use Rattle.laws.specs.Any.{any_of};
ghost use Rattle.reference.specs.Matches.{manifest_matches, matches as matches_by};
ghost use Rattle.reference.specs.Readings.{ManifestAt, manifest_form};
ghost use Rattle.reference.specs.References.{Rule as PolicyRule, Signer, accepts, image_id};
ghost use Rattle.manifest.specs.Asks.{asks_for};
ghost use Rattle.manifest.specs.Manifest.{rules};
ghost use Rattle.manifest.specs.Opened.{Opens, ReadsRule, SomeRule};
ghost use Rattle.manifest_rules.specs.RulePlaces.{RuleAt, SomeRuleAt, RulesAt};

use manifest::Places;
use manifest_view::matching::signer_matches;
use reference::rule::{Manifest, Rule};
use reference_digests::algorithm::Algorithm;

// Writes the positions of the rules at the start of `at`, in the text's order, and answers how many there are.
pub fn place(s: &[u8], p: Places, at: &mut [usize]) -> usize
    requires { Opens s.now p × (64 ≤ length at.old) }
    ensures { (result ≡ length (rules s.now)) × (result ≤ 64) × (length at.new ≡ length at.old)
        × RulesAt s.now (take result at.new) (rules s.now) }
{
    let list = p.accepts;
    manifest_strings::place(s, 0, list, 6, false, at)
}

// The rule that stands from position k of s on.
pub fn read(s: &[u8], k: usize) -> Option<Rule>
    requires { SomeRuleAt s.now k }
    ensures { (y : PolicyRule) → RuleAt s.now k y → ReadsRule s.now result y }
{
    reference::rule::read(s, k)
}

// MANIFEST of a rule of that algorithm against the bytes of a manifest's digest; `named` tells whether the image has the alias that the rule asks for.
fn manifest_matches(s: &[u8], a: Algorithm, manifest: Manifest, digest: &[u8], named: bool) -> bool
    requires { ManifestAt s.now a manifest }
    ensures { (g : Signer) (names : List (List ℕ)) → named ≡ any_of (asks_for (accepts a g (manifest_form s.now manifest))) names
        → result ≡ manifest_matches (manifest_form s.now manifest) digest.now names }
{
    match manifest {
        Manifest::Any => true,
        Manifest::Digest(g) => reference_digests::digest::is(s, g, a, digest),
        Manifest::Alias(_) => named,
    }
}

// A rule that was read in s matches the image with that algorithm and those digests; `named` tells whether the image has the alias that the rule asks
// for.
pub fn matches(
    s: &[u8],
    x: Option<Rule>,
    a: Algorithm,
    signer: &[u8],
    manifest: &[u8],
    named: bool,
) -> bool
    requires { SomeRule s.now x }
    ensures { (y : PolicyRule) (names : List (List ℕ)) → ReadsRule s.now x y → named ≡ any_of (asks_for y) names
        → result ≡ matches_by y (image_id a signer.now manifest.now) names }
{
    let Some(rule) = x else {
        return false;
    };
    if rule.algorithm != a {
        return false;
    }
    if !signer_matches(s, rule.algorithm, rule.signer, signer) {
        return false;
    }
    manifest_matches(s, rule.algorithm, rule.manifest, manifest, named)
}
