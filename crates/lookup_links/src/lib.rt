// Aliases followed through the images of a store. Every reference of the store has a number, and `next` has for each the number of the object that it
// stands for, so that an alias is looked up once in a call, however many paths run through it.
#![tactic(auto)]

ghost use Rattle.std.specs.Prelude.{◌≡◌, false, List, ◌<◌, length, get_or};
ghost use Rattle.reference.specs.References.{Layer, no_layer};
ghost use Rattle.store_record.specs.Image.{Image};
ghost use Rattle.store_keys.specs.Clash.{any_clash};
ghost use Rattle.lookup_paths.specs.Follow.{keys_in, object_count, end_of};
ghost use Rattle.lookup_links.specs.Links.{Links};
ghost use Rattle.lookup_links.specs.Following.{Followable, Ends};

// In `next`: the reference is a digest.
pub const DIGEST: u16 = 65535;
// An alias that no image defines.
pub const UNDEFINED: u16 = 65534;
// No reference; a good manifest has none.
pub const BAD: u16 = 65533;

// How a path ends: at the digest that is the reference with that number, at an alias that no image defines, or never.
#[derive(Clone, Copy)]
pub enum PathEnd {
    Met(usize),
    Undefined,
    Endless,
}

// Follows the links from number e on. A path with more steps than there are objects comes to one of them again.
pub fn follow(next: &[u16], e: usize, objects: usize) -> PathEnd
    requires { Followable next.now e objects }
    ensures { (room : List Image) (refs : List Layer) → any_clash room ≡ false → Links (keys_in room) refs next.now
        → object_count room ≡ objects → e < length refs
        → Ends refs (end_of room (get_or refs e no_layer)) result }
{
    // the steps are counted between the tests of a link and the step along it, where no `for` can end
    let mut at = e;
    let mut left = objects + 1;
    loop {
        let o = next[at];
        if o == DIGEST {
            return PathEnd::Met(at);
        }
        if o == UNDEFINED {
            return PathEnd::Undefined;
        }
        if o == BAD {
            return PathEnd::Undefined;
        }
        if left == 0 {
            return PathEnd::Endless;
        }
        left -= 1;
        at = o as usize;
    }
}
