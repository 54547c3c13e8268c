// A record written: its size, its start, and the bytes of its manifest.
#![tactic(auto)]

ghost use Rattle.std.specs.Prelude.{◌≡◌, ◌++◌, ◌≤◌, length, drop};
ghost use Rattle.reference_digests.specs.Algorithms.{digest_bytes};
ghost use Rattle.reference.specs.References.{image_id};
ghost use Rattle.store_record.specs.Record.{head_of, head_size};

use reference_digests::algorithm::Algorithm;

// Writes bytes at the start of `out`; what follows stays.
pub fn copy(from: &[u8], out: &mut [u8])
    requires { length from.now ≤ length out.old }
    ensures { out.new ≡ from.now ++ drop (length from.now) out.old }
{
    // a loop, since `copy_from_slice` calls libc's memmove, and the header promises that only memcpy and memset are called
    let mut i = 0;
    while i < from.len() {
        out[i] = from[i];
        i += 1;
    }
}

// Writes the start of a record, up to the manifest, which will have `text` bytes; answers its length. What follows stays.
pub fn write_head(
    a: Algorithm,
    signer: &[u8],
    manifest: &[u8],
    text: usize,
    out: &mut [u8],
) -> usize
    requires { (length signer.now ≡ digest_bytes a) × (length manifest.now ≡ digest_bytes a) × (text ≤ 16384)
        × (length (head_of (image_id a signer.now manifest.now) text) ≤ length out.old) }
    ensures value { result ≡ length (head_of (image_id a signer.now manifest.now) text) }
    ensures out_after { out.new ≡ head_of (image_id a signer.now manifest.now) text ++ drop result out.old }
{
    let n = a.digest_bytes();
    let k = store_varint::write(1 + 2 * n + text, out);
    out[k] = a.byte();
    let first = k + 1;
    copy(signer, &mut out[first..]);
    let second = first + n;
    copy(manifest, &mut out[second..]);
    second + n
}

// How long the start of a record is.
pub fn head_size(a: Algorithm, text: usize) -> usize
    requires { text ≤ 16384 }
    ensures { result ≡ head_size a text }
{
    let rest = 1 + 2 * a.digest_bytes();
    store_varint::size(rest + text) + rest
}
