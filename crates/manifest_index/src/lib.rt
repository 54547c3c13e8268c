// The own aliases of many images, in the one byte list where their manifests stand, found by name. A name has a number: `at` has the position where each
// begins, and `order` has the numbers sorted by name.
#![tactic(auto)]

ghost use Rattle.std.specs.Prelude.{◌≡◌, List, ◌∷◌, ℕ, ◌+◌, ◌-◌, ◌≤◌, ◌<◌, length, take, drop};
ghost use Rattle.reference.specs.References.{Rule as PolicyRule};
ghost use Rattle.manifest_repeat.specs.Names.{NamesAt};
ghost use Rattle.laws.specs.Order.{same};
ghost use Rattle.manifest_index.specs.Index.{name_at, NamesIn, NumberOf, NameIndex, SomeNameIndex, Asked};
ghost use Rattle.manifest.specs.Manifest.{self_names};
ghost use Rattle.manifest.specs.Opened.{Opens, ReadsRule, SomeRule};

use manifest::Places;
use reference::rule::{Manifest, Rule};

// Places of the index from `from` to `to`, the last not included.
#[derive(Clone, Copy)]
pub struct Range {
    pub from: usize,
    pub to: usize,
}

// Puts the positions of the image's own aliases at the start of `names`, in the text's order, and answers how many there are.
fn collect_self(s: &[u8], q: Places, names: &mut [u16]) -> usize
    requires { Opens s.now q × (4096 ≤ length names.old) }
    ensures { (result ≤ length names.new) × NamesAt s.now (take result names.new) (self_names s.now) }
{
    let own = q.own;
    match own {
        None => 0,
        Some(p) => manifest_repeat::collect_group(s, p, 6, names),
    }
}

// Writes the positions in b where the own aliases begin of the manifest that stands there from `start` to `end`, at the start of `at`, and answers how
// many there are. What `own` holds is overwritten; it is lent, as many images need it one after the other.
pub fn place_self(
    b: &[u8],
    start: usize,
    end: usize,
    q: Places,
    own: &mut [u16],
    at: &mut [usize],
) -> usize
    requires { (start ≤ end) × (end ≤ length b.now) × Opens (take (end - start) (drop start b.now)) q × (4096 ≤ length own.old)
        × (64 ≤ length at.old) }
    ensures { (result ≤ 64) × (length at.new ≡ length at.old) × (drop result at.new ≡ drop result at.old)
        × NamesIn b.now (take result at.new) (self_names (take (end - start) (drop start b.now)))
        × (length own.new ≡ length own.old) }
{
    let n = collect_self(&b[start..end], q, own);
    for i in 0..n {
        at[i] = start + own[i] as usize + 1;
    }
    n
}

// Adds the name with number e to the index of the first n.
pub fn add(b: &[u8], at: &[usize], order: &mut [u16], n: usize, e: u16)
    requires { SomeNameIndex b.now at.now (take n order.old) × (n < length order.old) × NumberOf b.now at.now e }
    ensures { (length order.new ≡ length order.old)
        × ((es : List ℕ) → NameIndex b.now at.now es (take n order.old)
        → NameIndex b.now at.now (e ∷ es) (take (n + 1) order.new)) }
{
    text_index::insert(b, at, order, n, e);
}

// The names with numbers e and f are the same.
pub fn is_same(b: &[u8], at: &[usize], e: u16, f: u16) -> bool
    requires { NumberOf b.now at.now e × NumberOf b.now at.now f }
    ensures { result ≡ same (name_at b.now at.now e) (name_at b.now at.now f) }
{
    text_names::name::equal(b, at[e as usize], b, at[f as usize])
}

// The places of the names that a rule asks for, which was read in s.
pub fn asked(b: &[u8], at: &[usize], order: &[u16], s: &[u8], x: Option<Rule>) -> Range
    requires { SomeRule s.now x × SomeNameIndex b.now at.now order.now }
    ensures { (y : PolicyRule) → ReadsRule s.now x y → Asked b.now at.now order.now y result }
{
    let Some(rule) = x else {
        return Range { from: 0, to: 0 };
    };
    match rule.manifest {
        Manifest::Any => Range { from: 0, to: 0 },
        Manifest::Digest(_) => Range { from: 0, to: 0 },
        Manifest::Alias(g) => {
            let r = text_index::find(b, at, order, s, g);
            Range {
                from: r.from,
                to: r.to,
            }
        }
    }
}
