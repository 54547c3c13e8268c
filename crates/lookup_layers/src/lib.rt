// The layer list that resolve is lent: a run of entries, each the byte of an algorithm and a digest.
#![tactic(auto)]

ghost use Rattle.std.specs.Prelude.{◌≡◌, List, ◌<◌, length, Some};
ghost use Rattle.lookup_layers.specs.Layers.{LayerDigest, is_list, is_listed, layers_in};
ghost use Rattle.lookup_layers.specs.Reading.{Reads, SomeList};

use reference_digests::algorithm::Algorithm;
use reference_digests::digest;

// The first entry of a run that is left: its algorithm, and the positions of its digest and of what follows.
#[derive(Clone, Copy)]
struct Entry {
    algorithm: Algorithm,
    digest: usize,
    next: usize,
}

// There is none where the byte is no algorithm's or the digest is cut.
fn read(s: &[u8], i: usize) -> Option<Entry>
    requires { i < length s.now }
    ensures { Reads s.now i result }
{
    let algorithm = Algorithm::from_byte(s[i])?;
    let digest = i + 1;
    let n = algorithm.digest_bytes();
    if s.len() - digest < n {
        return None;
    }
    Some(Entry {
        algorithm,
        digest,
        next: digest + n,
    })
}

// The bytes are a layer list.
pub fn is_list(s: &[u8]) -> bool
    ensures { result ≡ is_list s.now }
{
    // an entry says where the next one begins, so no `for` counts the position
    let mut i = 0;
    while i < s.len() {
        let Some(entry) = read(s, i) else {
            return false;
        };
        i = entry.next;
    }
    true
}

// The layer with that algorithm and digest is in the layer list s.
pub fn has(s: &[u8], a: Algorithm, digest: &[u8]) -> bool
    requires { SomeList s.now }
    ensures { (ds : List LayerDigest) → layers_in s.now ≡ Some ds
        → result ≡ is_listed (record { algorithm = a; bytes = digest.now }) ds }
{
    // the position jumps from entry to entry, as in `is_list`
    let mut at = 0;
    while at < s.len() {
        let Some(entry) = read(s, at) else {
            return false;
        };
        if entry.algorithm == a {
            if digest::equal(&s[entry.digest..entry.next], digest) {
                return true;
            }
        }
        at = entry.next;
    }
    false
}
