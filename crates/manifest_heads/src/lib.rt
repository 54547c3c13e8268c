// Looking a name up among sorted ones that have their heads beside them: a step compares two numbers, and only where these are equal the names.
#![tactic(auto)]

ghost use Rattle.std.specs.Prelude.{◌≡◌, List, ℕ, ◌≤◌, length};
ghost use Rattle.text_strings.specs.InString.{Inside, content_from};
ghost use Rattle.reference.specs.Matches.{is_one_of};
ghost use Rattle.manifest_heads.specs.Heads.{HeadsOf};
ghost use Rattle.manifest_repeat.specs.Names.{SortedNames};
ghost use Rattle.manifest_heads.specs.Placed.{SomeNames};
ghost use Rattle.manifest_heads.specs.Searches.{Looks};

use std::cmp::Ordering;
use text_names::head::{compare_headed, head};

// Puts the heads of the sorted names at the start of `heads`.
pub fn fill_heads(s: &[u8], names: &[u16], heads: &mut [u32])
    requires { SomeNames s.now names.now × (length names.now ≤ length heads.old) }
    ensures { HeadsOf s.now names.now heads.new }
{
    for (k, name) in names.iter().enumerate() {
        heads[k] = head(s, *name as usize + 1);
    }
}

// Looks the content from position q of t on up among the sorted names of s, by halves, and answers its position, if it is one of them.
// `binary_search_by` lends its closure a name and not the name's index, and the index is needed to read the head.
pub fn find_headed(s: &[u8], names: &[u16], heads: &[u32], t: &[u8], q: usize) -> Option<usize>
    requires { SomeNames s.now names.now × HeadsOf s.now names.now heads.now × Inside t.now q }
    ensures { (cs : List (List ℕ)) → SortedNames s.now cs names.now
        → Looks s.now cs names.now (content_from t.now q) result }
{
    let h = head(t, q);
    let mut low = 0;
    let mut high = names.len();
    while low < high {
        let mid = low + (high - low) / 2;
        let p = names[mid] as usize;
        match compare_headed(s, p + 1, heads[mid], t, q, h) {
            Ordering::Less => {
                low = mid + 1;
            }
            Ordering::Equal => return Some(p),
            Ordering::Greater => {
                high = mid;
            }
        }
    }
    None
}

// The content from position q of t on is one of the sorted names of s.
pub fn has_headed(s: &[u8], names: &[u16], heads: &[u32], t: &[u8], q: usize) -> bool
    requires { SomeNames s.now names.now × HeadsOf s.now names.now heads.now × Inside t.now q }
    ensures { (cs : List (List ℕ)) → SortedNames s.now cs names.now → result ≡ is_one_of (content_from t.now q) cs }
{
    find_headed(s, names, heads, t, q).is_some()
}
