// Whether an image's record can be appended to a store, and appending it.
#![tactic(auto)]

ghost use Rattle.std.specs.Prelude.{◌+◌, ◌≤◌};
ghost use Rattle.store_record.specs.Record.{head_size};
ghost use Rattle.store_append.specs.Append.{NumberLeft, Storable, PutsRecord};

use reference_digests::algorithm::Algorithm;

// Questions 13 and 14, once 11 and 12 do not apply: whether the image clashes is known, and how many images there are.
pub fn number_left(a: Algorithm, size: usize, count: usize, left: usize, clashing: bool) -> usize
    requires { (size ≤ 16384) × (head_size a size + size ≤ 16484) }
    ensures { NumberLeft (head_size a size + size) count left clashing result }
{
    if clashing {
        return 13;
    }
    if count == store_record::MOST_IMAGES {
        return 14;
    }
    if left < store_write::head_size(a, size) + size {
        return 14;
    }
    0
}

// Puts the record after the first `used` bytes. It has no proof file, so that a body which leaves the writing out is refused at what it ensures.
pub fn put_record(
    a: Algorithm,
    signer: &[u8],
    digest: &[u8],
    text: &[u8],
    store: &mut [u8],
    used: usize,
)
    requires { Storable a signer.now digest.now text.now store.old used }
    ensures { PutsRecord a signer.now digest.now text.now used store.old store.new }
{
    write_record(a, signer, digest, text, store, used);
}

// Writes the record after the first `used` bytes: its start, and then the manifest.
fn write_record(
    a: Algorithm,
    signer: &[u8],
    digest: &[u8],
    text: &[u8],
    store: &mut [u8],
    used: usize,
)
    requires { Storable a signer.now digest.now text.now store.old used }
    ensures { PutsRecord a signer.now digest.now text.now used store.old store.new }
{
    let head = store_write::write_head(a, signer, digest, text.len(), &mut store[used..]);
    let at = used + head;
    store_write::copy(text, &mut store[at..]);
}
