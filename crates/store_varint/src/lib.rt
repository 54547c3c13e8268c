// Numbers in groups of seven bits: their length, writing and reading them.
#![tactic(auto)]

ghost use Rattle.std.specs.Prelude.{◌≡◌, ◌++◌, ◌≤◌, length, drop};
ghost use Rattle.store_varint.specs.Varint.{varint};
ghost use Rattle.store_varint.specs.Reading.{Reads};

// How many bytes a number takes.
pub fn size(n: usize) -> usize
    ensures { result ≡ length (varint n) }
{
    if n < 128 {
        return 1;
    }
    1 + size(n / 128)
}

// Writes a number at the start of `out`, and answers its length; what follows stays.
pub fn write(n: usize, out: &mut [u8]) -> usize
    requires { length (varint n) ≤ length out.old }
    ensures value { result ≡ length (varint n) }
    ensures out_after { out.new ≡ varint n ++ drop (length (varint n)) out.old }
{
    if n < 128 {
        out[0] = n as u8;
        return 1;
    }
    out[0] = (128 + n % 128) as u8;
    1 + write(n / 128, &mut out[1..])
}

// A number and the position after it.
#[derive(Clone, Copy)]
pub struct Number {
    pub value: usize,
    pub next: usize,
}

// The number at position i, in shortest form, if it is at most `most`. Its groups may be more than any integer type holds: reading stops
// where the number is larger whatever follows.
pub fn read(s: &[u8], i: usize, most: usize) -> Option<Number>
    ensures { Reads s.now i most result }
{
    if s.len() <= i {
        return None;
    }
    let b = s[i] as usize;
    if b < 128 {
        if most < b {
            return None;
        }
        return Some(Number {
            value: b,
            next: i + 1,
        });
    }
    if most < 128 {
        return None;
    }
    let low = b - 128;
    let Number { value, next } = read(s, i + 1, most / 128)?;
    if value == 0 {
        return None;
    }
    if (most - low) / 128 < value {
        return None;
    }
    Some(Number {
        value: low + 128 * value,
        next,
    })
}
