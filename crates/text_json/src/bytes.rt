// The sets of bytes that the grammar names, as tests.
ghost use Rattle.std.specs.Prelude.{◌≡◌, true};
ghost use Rattle.text_json.specs.Bytes.{between as in_range, is_space, is_digit, is_exp, is_sign, is_hex, hex_value, is_short, short_value, is_plain};
ghost use Rattle.text_json.specs.Content.{is_control};

// Low to high, both included.
pub fn between(low: u32, high: u32, n: u32) -> bool
    ensures { result ≡ in_range low high n }
{
    low <= n && n <= high
}

pub fn is_space(b: u8) -> bool
    ensures { result ≡ is_space b }
{
    b == b' ' || (b == b'\n' || (b == b'\r' || b == b'\t'))
}

pub fn is_digit(b: u8) -> bool
    ensures { result ≡ is_digit b }
{
    between(0x30, 0x39, b as u32)
}

pub fn is_exp(b: u8) -> bool
    ensures { result ≡ is_exp b }
{
    b == b'e' || b == b'E'
}

pub fn is_sign(b: u8) -> bool
    ensures { result ≡ is_sign b }
{
    b == b'-' || b == b'+'
}

pub fn is_hex(b: u8) -> bool
    ensures { result ≡ is_hex b }
{
    let n = b as u32;
    between(0x30, 0x39, n) || (between(0x41, 0x46, n) || between(0x61, 0x66, n))
}

// The number that a hexadecimal digit stands for.
pub fn hex_value(b: u8) -> u32
    requires { is_hex b ≡ true }
    ensures { result ≡ hex_value b }
{
    if b <= b'9' {
        (b - b'0') as u32
    } else if b <= b'F' {
        (b - 0x37) as u32
    } else {
        (b - 0x57) as u32
    }
}

pub fn is_short(b: u8) -> bool
    ensures { result ≡ is_short b }
{
    b == b'"'
        || (b == b'\\'
            || (b == b'/' || (b == b'b' || (b == b'f' || (b == b'n' || (b == b'r' || b == b't'))))))
}

// The byte that a two-character escape with this letter stands for.
pub fn short_value(b: u8) -> u8
    ensures { result ≡ short_value b }
{
    match b {
        b'b' => 0x08,
        b'f' => 0x0C,
        b'n' => 0x0A,
        b'r' => 0x0D,
        b't' => 0x09,
        _ => b,
    }
}

pub fn is_control(b: u8) -> bool
    ensures { result ≡ is_control b }
{
    b <= 0x1F || b == 0x7F
}

// A byte that stands for itself in a string, and is not refused.
pub fn is_plain(b: u8) -> bool
    ensures { result ≡ is_plain b }
{
    (0x20 <= b) & (b != b'"') & (b != b'\\') & (b != 0x7F)
}
