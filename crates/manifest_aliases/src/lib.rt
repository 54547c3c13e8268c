// The names of two manifests compared, and the object of an alias. The positions of a manifest's names are sorted once, into arrays that the caller
// lends, with their heads in another; the names of other manifests are looked up among them.
#![tactic(auto)]

ghost use Rattle.std.specs.Prelude.{◌≡◌, List, ℕ, ◌≤◌, length, take, Some};
ghost use Rattle.text_strings.specs.InString.{Inside, content_from};
ghost use Rattle.reference_digests.specs.declared.algorithm.Algorithm.{Algorithm};
ghost use Rattle.reference.specs.References.{layer_alias};
ghost use Rattle.manifest_heads.specs.Contents.{share_name};
ghost use Rattle.manifest_heads.specs.Heads.{HeadsOf};
ghost use Rattle.manifest_heads.specs.Placed.{SomeNames};
ghost use Rattle.manifest.specs.Manifest.{self_names, contents};
ghost use Rattle.manifest.specs.Names.{conflict, NameSpace, SelfSorted, ContentsSorted};
ghost use Rattle.manifest_aliases.specs.Found.{AliasRead, FindsObject};
ghost use Rattle.manifest.specs.Opened.{Opens, Denotes};

use manifest::Places;
use reference::layer::Layer;

// The object of a name in `contents`, as it was read, and the index of its key among the keys there.
#[derive(Clone, Copy)]
pub struct Object {
    pub index: usize,
    pub object: Option<Layer>,
}

// Puts the positions of the image's own aliases, sorted by name, at the start of `names`; answers how many there are. What `spare` holds is
// overwritten.
pub fn sort_self(s: &[u8], p: Places, names: &mut [u16], spare: &mut [u16]) -> usize
    requires { Opens s.now p × NameSpace names.old spare.old }
    ensures { (result ≤ length names.new) × SelfSorted s.now (take result names.new) × (result ≡ length (self_names s.now)) }
{
    let own = p.own;
    manifest_repeat::sort_names(s, own, names, spare)
}

// Puts the heads of sorted names at the start of `heads`.
pub fn fill_heads(s: &[u8], names: &[u16], heads: &mut [u32])
    requires { SomeNames s.now names.now × (length names.now ≤ length heads.old) }
    ensures { HeadsOf s.now names.now heads.new }
{
    manifest_heads::fill_heads(s, names, heads);
}

// The images of t and s have an alias in common; `names` are the sorted positions of those of s, with their heads.
pub fn shares_self(s: &[u8], names: &[u16], heads: &[u32], t: &[u8], q: Places) -> bool
    requires { SelfSorted s.now names.now × HeadsOf s.now names.now heads.now × Opens t.now q }
    ensures { result ≡ share_name (self_names t.now) (self_names s.now) }
{
    let group = q.own;
    manifest_names::shared::shares(s, names, heads, t, group)
}

// Puts the positions of the aliases of layers, sorted by name, at the start of `names`, and into `keys` the position of the key of each; answers how
// many aliases there are. What `spare` holds is overwritten.
pub fn sort_contents(
    s: &[u8],
    p: Places,
    names: &mut [u16],
    spare: &mut [u16],
    keys: &mut [u16],
) -> usize
    requires { Opens s.now p × NameSpace names.old spare.old × (length s.now ≤ length keys.old) }
    ensures { (result ≤ length names.new) × ContentsSorted s.now (take result names.new) keys.new }
{
    let contents = p.contents;
    manifest_names::keyed::sort_contents(s, contents, names, spare, keys)
}

// An alias of a layer stands in t and in s with different objects; `names` and `keys` are what sorting the aliases of s gave, with the names' heads.
pub fn conflicts(s: &[u8], names: &[u16], heads: &[u32], keys: &[u16], t: &[u8], q: Places) -> bool
    requires { ContentsSorted s.now names.now keys.now × HeadsOf s.now names.now heads.now × Opens t.now q }
    ensures { result ≡ conflict (contents t.now) (contents s.now) }
{
    let group = q.contents;
    manifest_names::conflict::conflicts(s, names, heads, keys, t, group)
}

// The object in s of the name from position q of t on.
fn object_named(s: &[u8], p: Places, t: &[u8], q: usize) -> Option<Object>
    requires { Opens s.now p × Inside t.now q }
    ensures { FindsObject s.now (content_from t.now q) result }
{
    let group = p.contents;
    match manifest_names::object::object_of(s, group, t, q) {
        None => None,
        Some(manifest_names::object::Object { index, key }) => {
            let object = reference::layer::read(s, key + 1);
            Some(Object { index, object })
        }
    }
}

// The object in s of an alias that was read in t, itself read in s.
pub fn object_of(s: &[u8], p: Places, t: &[u8], x: Layer) -> Option<Object>
    requires { Opens s.now p × AliasRead t.now x }
    ensures { (a : Algorithm) (d n : List ℕ) → Denotes t.now (Some x) (layer_alias a d n) → FindsObject s.now n result }
{
    match x {
        Layer::Digest(_, _) => None,
        Layer::Alias { alias, .. } => object_named(s, p, t, alias),
    }
}
