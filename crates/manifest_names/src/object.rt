// The key of an alias: in `contents` the layer reference for which the alias stands.
ghost use Rattle.std.specs.Prelude.{Option};
ghost use Rattle.text_content.specs.Value.{Value, Fields, object};
ghost use Rattle.text_strings.specs.InString.{Inside, content_from};
ghost use Rattle.text_view.specs.Cursor.{SomeObject};
ghost use Rattle.text_view.specs.Place.{ValueAt};
ghost use Rattle.manifest_fields.specs.Members.{Finds};
ghost use Rattle.manifest_fields.specs.FieldTests.{found_members};
ghost use Rattle.manifest_names.specs.Groups.{Grouped};
ghost use Rattle.manifest_names.specs.Objects.{FindsKey};

use manifest_view::matching::is_in_list;
use text_view::{Member, Members};

// Which member of a group has an alias, counted from 0, and the position of that member's key.
#[derive(Clone, Copy)]
pub struct Object {
    pub index: usize,
    pub key: usize,
}

// The key in the group at `at` of s of the alias that is the content from position q of t on; the first where it stood twice.
fn object_in(s: &[u8], at: usize, depth: usize, t: &[u8], q: usize) -> Option<Object>
    requires { SomeObject s.now at depth × Inside t.now q }
    ensures { (fs : Fields) → ValueAt s.now at depth (object fs) → FindsKey s.now fs (content_from t.now q) result }
{
    let mut left = Members::new(s, at, depth);
    let mut index = 0;
    while let Some(Member { key, value, rest }) = left.next(s) {
        if is_in_list(t, q, s, value, left.depth) {
            return Some(Object { index, key });
        }
        left = rest;
        index += 1;
    }
    None
}

// The same in a group that was looked for.
pub fn object_of(s: &[u8], group: Option<usize>, t: &[u8], q: usize) -> Option<Object>
    requires { Grouped s.now 6 group × Inside t.now q }
    ensures { (o : Option Value) → Finds s.now 6 o group → FindsKey s.now (found_members o) (content_from t.now q) result }
{
    object_in(s, group?, 6, t, q)
}
