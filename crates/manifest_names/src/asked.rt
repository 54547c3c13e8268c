// The aliases of a group of one manifest, each asked about against the sorted aliases of another: whether its name is one of theirs, or stands among them
// under another key. One walk answers for both.
ghost use Rattle.std.specs.Prelude.{◌≡◌, List, Option};
ghost use Rattle.laws.specs.Any.{any_of};
ghost use Rattle.text_content.specs.Value.{Value, Values, Fields, array, object};
ghost use Rattle.text_strings.specs.InString.{Inside, content_from};
ghost use Rattle.text_view.specs.Place.{ValueAt};
ghost use Rattle.manifest_fields.specs.Accessors.{texts};
ghost use Rattle.manifest_fields.specs.Members.{Finds};
ghost use Rattle.manifest_fields.specs.FieldTests.{found_members};
ghost use Rattle.manifest_heads.specs.Contents.{Named, named_under, named_in, stands_elsewhere};
ghost use Rattle.manifest_heads.specs.Heads.{HeadsOf};
ghost use Rattle.manifest_heads.specs.Placed.{SortedContents, SomeContents};
ghost use Rattle.manifest_names.specs.Asked.{Against, alias, passes as passes_by};
ghost use Rattle.manifest_names.specs.Groups.{Grouped, AliasGroup, AliasList};

use manifest_heads::{find_headed, has_headed};
use text_view::{Elements, Member, Members};

// What is asked: whether the name is among the others, or stands among them under another key. The keys of the others are read for the second only.
#[derive(Clone, Copy)]
pub enum Asked {
    Shared,
    Elsewhere,
}

// The name from position q of t on stands in s, under another key than the one from position k of t on.
fn is_elsewhere(
    s: &[u8],
    names: &[u16],
    heads: &[u32],
    keys: &[u16],
    t: &[u8],
    q: usize,
    k: usize,
) -> bool
    requires { SomeContents s.now keys.now names.now × HeadsOf s.now names.now heads.now × Inside t.now q × Inside t.now k }
    ensures { (xs : List Named) → SortedContents s.now xs keys.now names.now
        → result ≡ stands_elsewhere (content_from t.now q) (content_from t.now k) xs }
{
    let Some(p) = find_headed(s, names, heads, t, q) else {
        return false;
    };
    let own = keys[p] as usize;
    !text_names::name::equal(t, k, s, own + 1)
}

// What is asked is so of the alias whose name and key are the contents from positions q and k of t on.
fn passes(
    s: &[u8],
    names: &[u16],
    heads: &[u32],
    keys: &[u16],
    asked: Asked,
    t: &[u8],
    q: usize,
    k: usize,
) -> bool
    requires { Against asked s.now keys.now names.now × HeadsOf s.now names.now heads.now × Inside t.now q × Inside t.now k }
    ensures { (i : Against asked s.now keys.now names.now)
        → result ≡ passes_by asked _ _ _ i (alias t.now q k) }
{
    match asked {
        Asked::Shared => has_headed(s, names, heads, t, q),
        Asked::Elsewhere => is_elsewhere(s, names, heads, keys, t, q, k),
    }
}

// It is so of one of the strings of the array at `at` of t, whose key is the content from position k of t on.
fn any_listed(
    s: &[u8],
    names: &[u16],
    heads: &[u32],
    keys: &[u16],
    asked: Asked,
    t: &[u8],
    k: usize,
    at: usize,
    depth: usize,
) -> bool
    requires { Against asked s.now keys.now names.now × HeadsOf s.now names.now heads.now × Inside t.now k × AliasList t.now at depth }
    ensures { (i : Against asked s.now keys.now names.now) (vs : Values) → ValueAt t.now at depth (array vs)
        → result ≡ any_of (passes_by asked _ _ _ i) (named_under (content_from t.now k) (texts vs)) }
{
    let mut left = Elements::new(t, at, depth);
    while let Some((p, rest)) = left.next(t) {
        if passes(s, names, heads, keys, asked, t, p + 1, k) {
            return true;
        }
        left = rest;
    }
    false
}

// It is so of one of the aliases of the group at `at` of t.
fn any_grouped(
    s: &[u8],
    names: &[u16],
    heads: &[u32],
    keys: &[u16],
    asked: Asked,
    t: &[u8],
    at: usize,
    depth: usize,
) -> bool
    requires { Against asked s.now keys.now names.now × HeadsOf s.now names.now heads.now × AliasGroup t.now at depth }
    ensures { (i : Against asked s.now keys.now names.now) (fs : Fields)
        → ValueAt t.now at depth (object fs)
        → result ≡ any_of (passes_by asked _ _ _ i) (named_in fs) }
{
    let mut left = Members::new(t, at, depth);
    while let Some(Member { key, value, rest }) = left.next(t) {
        if any_listed(s, names, heads, keys, asked, t, key + 1, value, left.depth) {
            return true;
        }
        left = rest;
    }
    false
}

// It is so of one of the aliases of a group of t that was looked for.
pub fn any(
    s: &[u8],
    names: &[u16],
    heads: &[u32],
    keys: &[u16],
    asked: Asked,
    t: &[u8],
    group: Option<usize>,
) -> bool
    requires { Against asked s.now keys.now names.now × HeadsOf s.now names.now heads.now × Grouped t.now 6 group }
    ensures { (i : Against asked s.now keys.now names.now) (o : Option Value) → Finds t.now 6 o group
        → result ≡ any_of (passes_by asked _ _ _ i) (named_in (found_members o)) }
{
    match group {
        None => false,
        Some(p) => any_grouped(s, names, heads, keys, asked, t, p, 6),
    }
}
