// Aliases: names with all of their bytes.
#![tactic(auto)]

ghost use Rattle.std.specs.Prelude.{◌≡◌};
ghost use Rattle.text_strings.specs.InString.{Inside, content_from};
ghost use Rattle.reference_parts.specs.Parts.{first_part};
ghost use Rattle.reference_parts.specs.Readings.{PartAt};
ghost use Rattle.reference_aliases.specs.Aliases.{is_digest_length, is_name_length, is_reserved, is_alias};

use reference_digests::algorithm::Algorithm;
use reference_parts::part;
use reference_parts::part::Part;

// A digest has that many hexadecimal digits: one of a known algorithm, or of sha512, which no reference names.
fn is_digest_length(n: usize) -> bool
    ensures { result ≡ is_digest_length n }
{
    let short = Algorithm::Sha224.hex_digits();
    let middle = Algorithm::Sha256.hex_digits();
    let long = Algorithm::Sha384.hex_digits();
    n == short || (n == middle || (n == long || n == 128))
}

// An alias may have that many bytes; `hex` says whether all of them are lower-case hexadecimal digits.
fn is_name_length(n: usize, hex: bool) -> bool
    ensures { result ≡ is_name_length n hex }
{
    if n < 1 {
        return false;
    }
    if 255 < n {
        return false;
    }
    if hex {
        return !is_digest_length(n);
    }
    true
}

// The part is `.`, `..` or `*`.
fn is_reserved(s: &[u8], i: usize, p: Part) -> bool
    requires { Inside s.now i × PartAt s.now i p }
    ensures { result ≡ is_reserved (first_part (content_from s.now i)) }
{
    let n = p.length;
    part::is(s, i, n, b".") || (part::is(s, i, n, b"..") || part::is(s, i, n, b"*"))
}

// The part p at position i is an alias.
pub fn is_alias_part(s: &[u8], i: usize, p: Part) -> bool
    requires { Inside s.now i × PartAt s.now i p }
    ensures { result ≡ is_alias (first_part (content_from s.now i)) }
{
    if is_name_length(p.length, p.hex) {
        return !is_reserved(s, i, p);
    }
    false
}

// The string whose content begins at position i is an alias.
pub fn is_alias(s: &[u8], i: usize) -> bool
    requires { Inside s.now i }
    ensures { result ≡ is_alias (content_from s.now i) }
{
    let p = part::read(s, i);
    if p.last {
        return is_alias_part(s, i, p);
    }
    false
}
