// Lines that hold one manifest, or two with a tab between them: what each says is printed. Of one its number; of a good one the length of its
// canonical form, whether it is that form, what its layers are, whether it rejects, its instances, whether it has `noRestart`, `writableFS`, an
// entrypoint and the variable A=b, and its signals. Of two good ones, which rules of the first match the image
// sha224 with 28 bytes 0xaa as signer, 28 bytes 0xbb as manifest digest, and the second as its manifest.
#![tactic(auto)]

ghost use Rattle.std.specs.Prelude.{◌≡◌, ℕ, ◌≤◌, ◌<◌, length, take};
ghost use Rattle.manifest_index.specs.Index.{NumberOf, SomeNameIndex};
ghost use Rattle.manifest.specs.Opened.{Opens};

use manifest::{Fault, Good, Places, SignalNumber};
use reference::LayerIndex;
use reference_digests::algorithm::Algorithm;

fn show_flag(b: bool) {
    if b {
        io::write_all(1, b" yes");
    } else {
        io::write_all(1, b" no");
    }
}

fn show_signal(n: SignalNumber) {
    if n.negative {
        io::write_all(1, b" -");
    } else {
        io::write_all(1, b" +");
    }
    io::print_decimal(1, n.magnitude as u64);
}

// The layers that a manifest lists, or the signals.
fn show_listed(s: &[u8], p: Places, layers: bool)
    requires { Opens s.now p }
{
    let n = if layers {
        manifest::layer_count(s, p)
    } else {
        manifest::signal_count(s, p)
    };
    for i in 0..n {
        if layers {
            test_names::show_layer(manifest::layer(s, p, LayerIndex(i)));
        } else {
            show_signal(manifest::signal(s, p, i));
        }
    }
}

// What a good manifest says.
fn show_good(s: &[u8], length: usize, canonical: bool, p: Places)
    requires { Opens s.now p }
{
    io::print_decimal(1, manifest::number(s) as u64);
    io::write_all(1, b" ");
    io::print_decimal(1, length as u64);
    show_flag(canonical);
    show_listed(s, p, true);
    show_flag(manifest::rejects(s, p));
    io::write_all(1, b" ");
    io::print_decimal(1, manifest::max_instances(s, p) as u64);
    show_flag(manifest::no_restart(s, p));
    show_flag(manifest::writable_fs(s, p));
    show_flag(manifest::has_entrypoint(s, p));
    show_flag(manifest::has_variable(s, p, b"A=b"));
    show_listed(s, p, false);
    io::write_all(1, b"\n");
}

fn show_fault(f: Fault) {
    io::print_decimal(1, f.number() as u64);
    io::write_all(1, b"\n");
}

fn show_one(s: &[u8]) {
    match manifest::check(s) {
        Err(f) => show_fault(f),
        Ok(
            Good {
                length,
                canonical,
                places,
            },
        ) => show_good(s, length, canonical, places),
    }
}

// Which rules of s match the image whose manifest is t; `order` is the index of its own aliases.
fn show_rules(
    s: &[u8],
    p: Places,
    signer: &[u8],
    digest: &[u8],
    t: &[u8],
    at: &[usize],
    order: &[u16],
)
    requires { Opens s.now p × SomeNameIndex t.now at.now order.now }
{
    let mut at_rules = [0usize; manifest::MOST_ENTRIES];
    let n = manifest_rules::place(s, p, &mut at_rules);
    for i in 0..n {
        let rule = manifest_rules::read(s, at_rules[i]);
        let r = manifest_index::asked(t, at, order, s, rule);
        let named = r.from < r.to;
        show_flag(manifest_rules::matches(s, rule, Algorithm::Sha224, signer, digest, named));
    }
}

// Makes the index of the first n names of t.
fn index_names(t: &[u8], at: &[usize], n: usize, order: &mut [u16])
    requires { ((k : ℕ) → k < n → NumberOf t.now at.now k) × (n ≤ 64) × (n ≤ length order.old) }
    ensures { SomeNameIndex t.now at.now (take n order.new)
        × (length order.new ≡ length order.old) }
{
    for k in 0..n {
        manifest_index::add(t, at, order, k, k as u16);
    }
}

fn show_matches(s: &[u8], p: Places, signer: &[u8], digest: &[u8], t: &[u8], q: Places)
    requires { Opens s.now p × Opens t.now q }
{
    let mut own = [0u16; manifest::MOST_NAMES];
    let mut at = [0usize; manifest::MOST_ENTRIES];
    let end = t.len();
    let n = manifest_index::place_self(t, 0, end, q, &mut own, &mut at);
    let mut order = [0u16; manifest::MOST_ENTRIES];
    index_names(t, &at, n, &mut order);
    show_rules(s, p, signer, digest, t, &at, &order[..n]);
}

// Which rules of s match an image whose manifest is t.
fn show_accepts(s: &[u8], p: Places, t: &[u8], q: Places)
    requires { Opens s.now p × Opens t.now q }
{
    let signer = [0xaau8; 28];
    let digest = [0xbbu8; 28];
    show_matches(s, p, &signer, &digest, t, q);
    io::write_all(1, b"\n");
}

fn show_two(s: &[u8], t: &[u8]) {
    match test_names::open(s, t) {
        Some(pair) => show_accepts(s, pair.first, t, pair.second),
        None => {
            io::write_all(1, b" bad\n");
        }
    }
}

pub fn show(line: &[u8]) {
    let n = lines::find(line, 0, b'\t');
    if n < line.len() {
        let second = n + 1;
        show_two(&line[..n], &line[second..]);
        return;
    }
    show_one(line);
}
