// The calls that the host, written in C, makes. They only pack the numbers of an answer; include/acon.h declares them.
#![tactic(auto)]

ghost use Rattle.std.specs.Prelude.{◌≡◌, ◌<◌, length};
ghost use Rattle.text.specs.Answer.{canonical_number, canonical_length, canonical_bytes, text_place};
ghost use Rattle.store.specs.Load.{load_number, load_used, load_bytes};
ghost use Rattle.policy.specs.Judge.{judge_number, judge_pairs, judge_bytes};
ghost use Rattle.lookup.specs.Resolve.{resolve_number, resolve_value, resolve_bytes};
ghost use Rattle.acon.specs.Packed.{packed};

use reference::ImageIndex;

// The canonical form of a JSON text, written at the start of `out`; the first value is its length, and the second the offset
// of the fault where the text is refused with 2 to 6.
#[unsafe(no_mangle)]
pub extern "C" fn acon_canonical(text: &[u8], out: &mut [u8]) -> u64
    ensures value { result ≡ packed (canonical_number text.now (length out.old))
        (canonical_length text.now (length out.old)) (text_place text.now) }
    ensures out_after { out.new ≡ canonical_bytes text.now out.old }
{
    let a = text::canonical(text, out);
    pack(a.number, a.value, a.place)
}

// Loads an image: its record is appended to those of the first `used` bytes of `buffer`; the first value is the new used
// count, and the second the offset of the manifest's fault where it is refused with 2 to 6.
#[unsafe(no_mangle)]
pub extern "C" fn acon_load(id: &[u8], manifest: &[u8], buffer: &mut [u8], used: usize) -> u64
    ensures value { result ≡ packed (load_number id.now manifest.now buffer.old used)
        (load_used id.now manifest.now buffer.old used) (text_place manifest.now) }
    ensures buffer_after { buffer.new ≡ load_bytes id.now manifest.now buffer.old used }
{
    let a = store::load(id, manifest, buffer, used);
    pack(a.number, a.value, a.place)
}

// Judges the images in the first `used` bytes of `store`: writes the report's pairs at the start of `report`; the first value is their number.
#[unsafe(no_mangle)]
pub extern "C" fn acon_judge(store: &[u8], used: usize, report: &mut [u8]) -> u64
    ensures value { result ≡ packed (judge_number store.now used (length report.old))
        (judge_pairs store.now used (length report.old)) 0 }
    ensures report_after { report.new ≡ judge_bytes store.now used report.old }
{
    let a = policy::judge(store, used, report);
    pack(a.number, a.value, 0)
}

// Resolves the layers of the image with index `image` among those in the first `used` bytes of `store`, of which `layers` lists those that are present:
// writes their digests at the start of `out`; the first value is the bytes written, or the index of the first layer that fails.
#[unsafe(no_mangle)]
pub extern "C" fn acon_resolve(
    store: &[u8],
    used: usize,
    layers: &[u8],
    image: usize,
    out: &mut [u8],
) -> u64
    ensures value { result ≡ packed (resolve_number store.now used layers.now image (length out.old))
        (resolve_value store.now used layers.now image (length out.old)) 0 }
    ensures out_after { out.new ≡ resolve_bytes store.now used layers.now image out.old }
{
    let a = lookup::resolve(store, used, layers, ImageIndex(image), out);
    pack(a.number, a.value, 0)
}

fn pack(number: usize, first: usize, second: usize) -> u64
    requires { (number < 0x100) × (first < 0x1000000) × (second < 0x100000000) }
    ensures { result ≡ packed number first second }
{
    number as u64 + first as u64 * 0x100 + second as u64 * 0x100000000
}
