// The digest algorithms. Each carries the length of its digests, their hexadecimal digits, and its byte in a record.
ghost use Rattle.std.specs.Prelude.{◌≡◌, ◌<◌, length};
ghost use Rattle.reference_parts.specs.Parts.{first_part};
ghost use Rattle.reference_parts.specs.Readings.{parts_from, HasPart};
ghost use Rattle.reference_digests.specs.Algorithms.{digest_bytes, hex_digits, byte_of, named as named_by, numbered};

#[derive(Clone, Copy, PartialEq, Eq)]
pub enum Algorithm {
    Sha224,
    Sha256,
    Sha384,
}

impl Algorithm {
    pub const SHA224_BYTE: u8 = 1;

    pub const SHA256_BYTE: u8 = 2;

    pub const SHA384_BYTE: u8 = 3;

    pub const SHA224_BYTES: usize = 28;

    pub const SHA256_BYTES: usize = 32;

    pub const SHA384_BYTES: usize = 48;

    // The bytes of a digest.
    pub fn digest_bytes(self) -> usize
        ensures { (result ≡ digest_bytes self) × (result < 256) }
    {
        match self {
            Algorithm::Sha224 => Self::SHA224_BYTES,
            Algorithm::Sha256 => Self::SHA256_BYTES,
            Algorithm::Sha384 => Self::SHA384_BYTES,
        }
    }

    // The hexadecimal digits of a digest.
    pub fn hex_digits(self) -> usize
        ensures { result ≡ hex_digits self }
    {
        2 * self.digest_bytes()
    }

    // The byte that stands for the algorithm in a record.
    pub fn byte(self) -> u8
        ensures { result ≡ byte_of self }
    {
        match self {
            Algorithm::Sha224 => Self::SHA224_BYTE,
            Algorithm::Sha256 => Self::SHA256_BYTE,
            Algorithm::Sha384 => Self::SHA384_BYTE,
        }
    }

    // The algorithm that a byte stands for.
    pub fn from_byte(b: u8) -> Option<Algorithm>
        ensures { result ≡ numbered b }
    {
        match b {
            Self::SHA224_BYTE => Some(Algorithm::Sha224),
            Self::SHA256_BYTE => Some(Algorithm::Sha256),
            Self::SHA384_BYTE => Some(Algorithm::Sha384),
            _ => None,
        }
    }
}

// The algorithm that the part at position i names, of plain bytes or of a string of a JSON text; the part has `len` bytes.
pub fn named(s: &[u8], plain: bool, i: usize, len: usize) -> Option<Algorithm>
    requires { HasPart plain s.now i len }
    ensures { result ≡ named_by (first_part (parts_from plain s.now i)) }
{
    if reference_parts::part::is_named(s, plain, i, len, b"sha224") {
        return Some(Algorithm::Sha224);
    }
    if reference_parts::part::is_named(s, plain, i, len, b"sha256") {
        return Some(Algorithm::Sha256);
    }
    let is_sha384 = reference_parts::part::is_named(s, plain, i, len, b"sha384");
    if is_sha384 {
        return Some(Algorithm::Sha384);
    }
    None
}
