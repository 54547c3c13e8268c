// Whether a name stands in a group of one manifest and in a group of another, under different keys. The same name under the same key is no conflict.
ghost use Rattle.std.specs.Prelude.{◌≡◌, List, Option};
ghost use Rattle.text_content.specs.Value.{Value};
ghost use Rattle.manifest_fields.specs.Members.{Finds};
ghost use Rattle.manifest_fields.specs.FieldTests.{found_members};
ghost use Rattle.manifest_heads.specs.Contents.{Named, named_in, conflict};
ghost use Rattle.manifest_names.specs.Groups.{Grouped};
ghost use Rattle.manifest_heads.specs.Heads.{HeadsOf};
ghost use Rattle.manifest_heads.specs.Placed.{SortedContents, SomeContents};

use crate::asked::{Asked, any};

// A name stands in a group of t that was looked for and in the group of s whose sorted aliases and their heads are given, under different keys.
pub fn conflicts(
    s: &[u8],
    names: &[u16],
    heads: &[u32],
    keys: &[u16],
    t: &[u8],
    group: Option<usize>,
) -> bool
    requires { SomeContents s.now keys.now names.now × HeadsOf s.now names.now heads.now × Grouped t.now 6 group }
    ensures { (xs : List Named) (o : Option Value) → SortedContents s.now xs keys.now names.now
        → Finds t.now 6 o group → result ≡ conflict (named_in (found_members o)) xs }
{
    any(s, names, heads, keys, Asked::Elsewhere, t, group)
}
