// Numbers (RFC 8259, section 6): where one ends, whether it is refused, and how long its canonical form is.
#![tactic(auto)]

ghost use Rattle.std.specs.Prelude.{◌≡◌, ◌+◌, ◌*◌, ◌≤◌, ◌<◌, length, drop};
ghost use Rattle.text_json.specs.Read.{read_some_digits, read_signed, read_frac, read_exp, read_unsigned, read_number};
ghost use Rattle.text_json.specs.Content.{refused_number};
ghost use Rattle.text_json.specs.Scan.{ScansToken};
ghost use Rattle.text_json.specs.Size.{numeral_size, Within};
ghost use Rattle.text_numbers.specs.Parts.{Near, Runs, Ints, Parts, Reaches, read_tail, refused_parts, signs, WithSign};

use text_json::bytes::{is_digit, is_exp, is_sign};
use text_json::{Stuck, Token};

// A run of digits: where it ends, and the number that it makes up, which stops growing above 32 bits.
#[derive(Clone, Copy)]
pub struct Run {
    pub end: usize,
    pub value: u64,
}

// A part that may be absent: where reading goes on, and whether it is absent.
#[derive(Clone, Copy)]
pub struct NumberPart {
    pub end: usize,
    pub whole: bool,
}

// A number with one digit more; above 32 bits it need not grow.
pub fn grow(n: u64, digit: u64) -> u64
    requires { (n < 0x1000000000) × (digit < 10) }
    ensures { (result < 0x1000000000) × Near result (n * 10 + digit) }
{
    if n < 0x1_0000_0000 { n * 10 + digit } else { n }
}

// The digits at a position, after those that make up `from`.
pub fn digits(s: &[u8], at: usize, from: u64) -> Run
    requires { (at ≤ length s.now) × (from < 10) }
    ensures { Runs s.now at from result }
{
    let mut n = from;
    for i in at..s.len() {
        let b = s[i];
        if !is_digit(b) {
            return Run { end: i, value: n };
        }
        n = grow(n, (b - b'0') as u64);
    }
    Run {
        end: s.len(),
        value: n,
    }
}

// One digit or more.
pub fn some_digits(s: &[u8], at: usize) -> Result<usize, Stuck>
    requires { at ≤ length s.now }
    ensures { Reaches s.now at (read_some_digits (drop at s.now)) result }
{
    if s.len() <= at {
        return Err(at);
    }
    if !is_digit(s[at]) {
        return Err(at);
    }
    let r = digits(s, at + 1, 0);
    Ok(r.end)
}

// A zero, or digits that start with none.
pub fn int_part(s: &[u8], at: usize) -> Result<Run, Stuck>
    requires { at ≤ length s.now }
    ensures { Ints s.now at result }
{
    if s.len() <= at {
        return Err(at);
    }
    let b = s[at];
    if b == b'0' {
        return Ok(Run {
            end: at + 1,
            value: 0,
        });
    }
    if !is_digit(b) {
        return Err(at);
    }
    Ok(digits(s, at + 1, (b - b'0') as u64))
}

// A point and digits, or nothing.
pub fn frac(s: &[u8], at: usize) -> Result<NumberPart, Stuck>
    requires { at ≤ length s.now }
    ensures { Parts s.now at (read_frac (drop at s.now)) result }
{
    if s.len() <= at {
        return Ok(NumberPart {
            end: at,
            whole: true,
        });
    }
    if s[at] != b'.' {
        return Ok(NumberPart {
            end: at,
            whole: true,
        });
    }
    let end = some_digits(s, at + 1)?;
    Ok(NumberPart { end, whole: false })
}

// Digits with a sign before them or none.
pub fn signed(s: &[u8], at: usize) -> Result<usize, Stuck>
    requires { at ≤ length s.now }
    ensures { Reaches s.now at (read_signed (drop at s.now)) result }
{
    if s.len() <= at {
        return Err(at);
    }
    if is_sign(s[at]) {
        some_digits(s, at + 1)
    } else {
        some_digits(s, at)
    }
}

// An exponent, or nothing.
pub fn exp(s: &[u8], at: usize) -> Result<NumberPart, Stuck>
    requires { at ≤ length s.now }
    ensures { Parts s.now at (read_exp (drop at s.now)) result }
{
    if s.len() <= at {
        return Ok(NumberPart {
            end: at,
            whole: true,
        });
    }
    if !is_exp(s[at]) {
        return Ok(NumberPart {
            end: at,
            whole: true,
        });
    }
    let end = signed(s, at + 1)?;
    Ok(NumberPart { end, whole: false })
}

// What follows a number's int.
pub fn tail(s: &[u8], at: usize) -> Result<NumberPart, Stuck>
    requires { at ≤ length s.now }
    ensures { Parts s.now at (read_tail (drop at s.now)) result }
{
    let fraction = frac(s, at)?;
    let exponent = exp(s, fraction.end)?;
    Ok(NumberPart {
        end: exponent.end,
        whole: fraction.whole & exponent.whole,
    })
}

// Whether a number is refused: it is not whole, is -0, or lies outside 32 bits with a sign.
pub fn refuses(negative: bool, n: u64, whole: bool) -> bool
    ensures { result ≡ refused_parts negative n whole }
{
    if !whole {
        return true;
    }
    if negative {
        n == 0 || 2147483648 < n
    } else {
        2147483647 < n
    }
}

pub fn sign_size(negative: bool) -> usize
    ensures { result ≡ signs negative }
{
    if negative { 1 } else { 0 }
}

// A number without the sign before it, of which `negative` tells.
pub fn unsigned(s: &[u8], at: usize, negative: bool) -> Result<Token, Stuck>
    requires { at ≤ length s.now }
    ensures { WithSign negative at result × ScansToken refused_number numeral_size s.now (read_unsigned negative (drop at s.now)) result }
{
    let int = int_part(s, at)?;
    let rest = tail(s, int.end)?;
    Ok(Token {
        end: rest.end,
        refused: refuses(negative, int.value, rest.whole),
        size: sign_size(negative) + (int.end - at),
    })
}

// The number at a position.
pub fn number(s: &[u8], at: usize) -> Result<Token, Stuck>
    requires { at ≤ length s.now }
    ensures { Within at result × ScansToken refused_number numeral_size s.now (read_number (drop at s.now)) result }
{
    if s.len() <= at {
        return Err(at);
    }
    if s[at] == b'-' {
        unsigned(s, at + 1, true)
    } else {
        unsigned(s, at, false)
    }
}
