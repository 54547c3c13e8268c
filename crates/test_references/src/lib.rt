// Lines that hold a reference: what it is found to be is printed. The first letter of a line says what is
// asked: L for a layer reference, R for a rule and A for an alias, each in a JSON string, I for an Image ID in plain bytes, and B for the
// byte of an algorithm, as a decimal digit. After a digest's position stand its bytes, and of one in a string whether it is found to have
// these, these without the first, and these with the last one changed.
#![tactic(auto)]

ghost use Rattle.std.specs.Prelude.{◌≡◌, true, ◌≤◌, length, IfSome};
ghost use Rattle.text_strings.specs.InString.{Inside};
ghost use Rattle.reference_digests.specs.Readings.{DigestAt, PlainDigest};
ghost use Rattle.reference.specs.Readings.{SignerAt, ManifestAt};

use reference::layer::Layer;
use reference::rule::{Manifest, Signer};
use reference_digests::algorithm::Algorithm;
use text_view::Kind;

// Where the content of a string begins, in a text that is one.
fn content_of(s: &[u8]) -> Option<usize>
    ensures { IfSome result (λ at. Inside s.now at) }
{
    match text::check(s) {
        Err(_) => None,
        Ok(_) => {
            let at = text_view::value::root(s);
            match text_view::value::kind(s, at) {
                Kind::String => Some(at + 1),
                _ => None,
            }
        }
    }
}

fn show_bad() {
    io::write_all(1, b"bad");
}

// A word, and a number after it.
fn print_at(word: &[u8], n: usize) {
    io::write_all(1, word);
    io::print_decimal(1, n as u64);
}

fn print_algorithm(word: &[u8], a: Algorithm) {
    io::write_all(1, word);
    io::print_decimal(1, a.byte() as u64);
}

// A space, and the bytes of a digest.
fn print_digest(bytes: &[u8]) {
    io::write_all(1, b" ");
    test_lines::print_bytes(bytes);
}

// Whether the digest at position p has these bytes.
fn show_is(s: &[u8], p: usize, a: Algorithm, bytes: &[u8])
    requires { DigestAt s.now p a }
{
    if reference_digests::digest::is(s, p, a, bytes) {
        io::write_all(1, b" yes");
    } else {
        io::write_all(1, b" no");
    }
}

// Another byte for the last of n.
fn change_last(bytes: &mut [u8], n: usize)
    requires { (1 ≤ n) × (n ≤ length bytes.old) }
{
    bytes[n - 1] = if bytes[n - 1] == 0 { 1 } else { 0 };
}

// The bytes of the digest at position p, and whether it has these bytes, these without the first, and these with the last one changed.
fn show_digest(s: &[u8], p: usize, a: Algorithm)
    requires { DigestAt s.now p a }
{
    let n = a.digest_bytes();
    let mut bytes = [0u8; 48];
    reference_digests::digest::write(s, p, a, &mut bytes);
    print_digest(&bytes[0..n]);
    show_is(s, p, a, &bytes[0..n]);
    show_is(s, p, a, &bytes[1..n]);
    change_last(&mut bytes, n);
    show_is(s, p, a, &bytes[0..n]);
}

// A word, the position p of a digest after it, and the same of the digest.
fn show_digest_at(word: &[u8], s: &[u8], p: usize, a: Algorithm)
    requires { DigestAt s.now p a }
{
    print_at(word, p);
    show_digest(s, p, a);
}

// The bytes of an Image ID's digest.
fn show_plain_digest(s: &[u8], p: usize, a: Algorithm)
    requires { PlainDigest s.now p a }
{
    let n = a.digest_bytes();
    let mut bytes = [0u8; 48];
    reference_digests::digest::write_plain(s, p, a, &mut bytes);
    print_digest(&bytes[0..n]);
}

fn show_layer(s: &[u8], i: usize)
    requires { Inside s.now i }
{
    match reference::layer::read(s, i) {
        None => show_bad(),
        Some(Layer::Digest(a, p)) => {
            print_algorithm(b"digest ", a);
            show_digest_at(b" at ", s, p, a);
        }
        Some(
            Layer::Alias {
                algorithm,
                signer,
                alias,
            },
        ) => {
            print_algorithm(b"alias ", algorithm);
            show_digest_at(b" signer at ", s, signer, algorithm);
            print_at(b" name at ", alias);
        }
    }
}

fn show_signer(s: &[u8], a: Algorithm, g: Signer)
    requires { SignerAt s.now a g }
{
    match g {
        Signer::Any => {
            io::write_all(1, b" any signer");
        }
        Signer::Digest(p) => show_digest_at(b" signer at ", s, p, a),
    }
}

fn show_manifest(s: &[u8], a: Algorithm, m: Manifest)
    requires { ManifestAt s.now a m }
{
    match m {
        Manifest::Any => {
            io::write_all(1, b" any manifest");
        }
        Manifest::Digest(p) => show_digest_at(b" digest at ", s, p, a),
        Manifest::Alias(p) => print_at(b" name at ", p),
    }
}

fn show_rule(s: &[u8], i: usize)
    requires { Inside s.now i }
{
    match reference::rule::read(s, i) {
        None => show_bad(),
        Some(rule) => {
            print_algorithm(b"rule ", rule.algorithm);
            show_signer(s, rule.algorithm, rule.signer);
            show_manifest(s, rule.algorithm, rule.manifest);
        }
    }
}

fn show_id(id: &[u8]) {
    match reference::id::read(id) {
        None => show_bad(),
        Some(image) => {
            print_algorithm(b"image ", image.algorithm);
            print_at(b" signer at ", image.signer);
            show_plain_digest(id, image.signer, image.algorithm);
            print_at(b" digest at ", image.manifest);
            show_plain_digest(id, image.manifest, image.algorithm);
        }
    }
}

// The algorithm with that byte, and the length of its digests.
fn show_byte(b: u8) {
    match Algorithm::from_byte(b) {
        None => {
            io::write_all(1, b"no algorithm");
        }
        Some(a) => {
            print_algorithm(b"algorithm ", a);
            print_at(b" of ", a.digest_bytes());
        }
    }
}

// A line that is one decimal digit.
fn show_number(s: &[u8]) {
    if s.len() == 1 {
        let b = s[0];
        if b'0' <= b {
            show_byte(b - b'0');
            return;
        }
    }
    io::write_all(1, b"no digit");
}

fn print_alias(good: bool) {
    if good {
        io::write_all(1, b"alias");
    } else {
        show_bad();
    }
}

// A string of a JSON text, by the letter that says what is asked.
fn show_string(letter: u8, s: &[u8]) {
    let Some(at) = content_of(s) else {
        io::write_all(1, b"no string");
        return;
    };
    match letter {
        b'L' => show_layer(s, at),
        b'R' => show_rule(s, at),
        _ => print_alias(reference_aliases::is_alias(s, at)),
    }
}

pub fn show(line: &[u8]) {
    if line.len() < 1 {
        return;
    }
    let letter = line[0];
    match letter {
        b'I' => show_id(&line[1..]),
        b'B' => show_number(&line[1..]),
        _ => show_string(letter, &line[1..]),
    }
    io::write_all(1, b"\n");
}
