// Lines that hold a pair of manifests, with a tab between them. Of each pair is printed: whether their images have an alias in
// common, whether an alias of a layer stands in both with different objects, and, where the first layer of the second is an alias, the index of that
// alias's object in the first and what the object is; else `-`. A line that is no pair of good manifests is `bad`.
#![tactic(auto)]

ghost use Rattle.std.specs.Prelude.{ℕ, List};
ghost use Rattle.manifest.specs.Opened.{Opens};
ghost use Rattle.test_names.specs.Pairs.{OpenPair};

use manifest::{MOST_NAMES, Places};
use manifest_aliases::Object;
use reference::LayerIndex;
use reference::layer::Layer;

// The most bytes that a manifest may have.
const MOST_BYTES: usize = 16384;

// What opening two good manifests gives.
#[derive(Clone, Copy)]
pub struct Pair {
    pub first: Places,
    pub second: Places,
}

// Checks two manifests.
pub fn open(s: &[u8], t: &[u8]) -> Option<Pair>
    ensures { OpenPair s.now t.now result }
{
    match manifest::check(s) {
        Err(_) => None,
        Ok(good) => open_second(good.places, t),
    }
}

// Checks the second of them, where the first one is good.
fn open_second(first: Places, t: &[u8]) -> Option<Pair>
    ensures { (s : List ℕ) → Opens s first → OpenPair s t.now result }
{
    match manifest::check(t) {
        Err(_) => None,
        Ok(good) => Some(Pair {
            first,
            second: good.places,
        }),
    }
}

fn say(yes: bool) {
    if yes {
        io::write_all(1, b"yes ");
    } else {
        io::write_all(1, b"no ");
    }
}

// Whether the images have an alias in common.
fn show_shared(s: &[u8], p: Places, t: &[u8], q: Places)
    requires { Opens s.now p × Opens t.now q }
{
    let mut names = [0u16; MOST_NAMES];
    let mut spare = [0u16; MOST_NAMES];
    let mut heads = [0u32; MOST_NAMES];
    let n = manifest_aliases::sort_self(s, p, &mut names, &mut spare);
    manifest_aliases::fill_heads(s, &names[..n], &mut heads);
    let shared = manifest_aliases::shares_self(s, &names[..n], &heads, t, q);
    say(shared);
}

// Whether an alias of a layer stands in both with different objects.
fn show_conflict(s: &[u8], p: Places, t: &[u8], q: Places)
    requires { Opens s.now p × Opens t.now q }
{
    let mut names = [0u16; MOST_NAMES];
    let mut spare = [0u16; MOST_NAMES];
    let mut keys = [0u16; MOST_BYTES];
    let mut heads = [0u32; MOST_NAMES];
    let n = manifest_aliases::sort_contents(s, p, &mut names, &mut spare, &mut keys);
    manifest_aliases::fill_heads(s, &names[..n], &mut heads);
    let conflict = manifest_aliases::conflicts(s, &names[..n], &heads, &keys, t, q);
    say(conflict);
}

// What a layer or an object is: a digest or an alias.
pub fn show_layer(x: Option<Layer>) {
    match x {
        Some(Layer::Digest(_, _)) => {
            io::write_all(1, b" digest");
        }
        Some(Layer::Alias { .. }) => {
            io::write_all(1, b" alias");
        }
        None => {
            io::write_all(1, b" bad");
        }
    }
}

fn show_found(found: Option<Object>) {
    match found {
        None => {
            io::write_all(1, b"-\n");
        }
        Some(found) => {
            io::print_decimal(1, found.index as u64);
            show_layer(found.object);
            io::write_all(1, b"\n");
        }
    }
}

// The object in s of the first layer of t, where that is an alias.
fn show_object(s: &[u8], p: Places, t: &[u8], q: Places)
    requires { Opens s.now p × Opens t.now q }
{
    let n = manifest::layer_count(t, q);
    if 0 < n {
        if let Some(x) = manifest::layer(t, q, LayerIndex(0)) {
            if let Layer::Alias { .. } = x {
                show_found(manifest_aliases::object_of(s, p, t, x));
                return;
            }
        }
    }
    io::write_all(1, b"-\n");
}

fn show_pair(s: &[u8], t: &[u8]) {
    match open(s, t) {
        Some(Pair { first, second }) => {
            show_shared(s, first, t, second);
            show_conflict(s, first, t, second);
            show_object(s, first, t, second);
        }
        None => {
            io::write_all(1, b"bad\n");
        }
    }
}

pub fn show(line: &[u8]) {
    let tab = lines::find(line, 0, b'\t');
    if tab < line.len() {
        let second = tab + 1;
        show_pair(&line[..tab], &line[second..]);
        return;
    }
    io::write_all(1, b"bad\n");
}
