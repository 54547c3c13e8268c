// Whether a group of one manifest and a group of another have a name in common. One group's names are sorted, and each name of the other is
// looked up among them.
ghost use Rattle.std.specs.Prelude.{◌≡◌, List, ℕ, Option};
ghost use Rattle.text_content.specs.Value.{Value};
ghost use Rattle.manifest_fields.specs.Accessors.{names_of};
ghost use Rattle.manifest_fields.specs.Members.{Finds};
ghost use Rattle.manifest_fields.specs.FieldTests.{found_members};
ghost use Rattle.manifest_heads.specs.Contents.{share_name};
ghost use Rattle.manifest_names.specs.Groups.{Grouped};
ghost use Rattle.manifest_heads.specs.Heads.{HeadsOf};
ghost use Rattle.manifest_repeat.specs.Names.{SortedNames};
ghost use Rattle.manifest_heads.specs.Placed.{SomeNames};

use crate::asked::{Asked, any};

// A group of t that was looked for and the group of s whose sorted names and their heads are given have a name in common.
pub fn shares(s: &[u8], names: &[u16], heads: &[u32], t: &[u8], group: Option<usize>) -> bool
    requires { SomeNames s.now names.now × HeadsOf s.now names.now heads.now × Grouped t.now 6 group }
    ensures { (cs : List (List ℕ)) (o : Option Value) → SortedNames s.now cs names.now → Finds t.now 6 o group
        → result ≡ share_name (names_of (found_members o)) cs }
{
    any(s, names, heads, names, Asked::Shared, t, group)
}
