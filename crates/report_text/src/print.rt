// The lines that a report prints, written into a buffer one after the other.
ghost use Rattle.std.specs.Prelude.{◌+◌, ◌≤◌, length};
ghost use Rattle.report_text.specs.Output.{Puts, decimal, load_line, pairs_line, pair_line};

// More than any of these lines has.
pub const MOST_PRINTED: usize = 64;

// Writes bytes at a place of a buffer; answers the place after them.
fn put(bytes: &[u8], out: &mut [u8], at: usize) -> usize
    requires { at + length bytes.now ≤ length out.old }
    ensures { Puts out.old at bytes.now out.new result }
{
    let end = at + bytes.len();
    out[at..end].copy_from_slice(bytes);
    end
}

// A number in decimal digits, of which there are at most twenty.
fn put_decimal(n: usize, out: &mut [u8], at: usize) -> usize
    requires { at + 20 ≤ length out.old }
    ensures { Puts out.old at (decimal n) out.new result × (result ≤ at + 20) }
{
    let mut text = [0u8; 20];
    let k = io::decimal(n as u64, &mut text);
    put(&text[..k], out, at)
}

// `load`, a line's index and its number.
pub fn load(index: usize, number: usize, out: &mut [u8], at: usize) -> usize
    requires { at + 64 ≤ length out.old }
    ensures { Puts out.old at (load_line index number) out.new result × (result ≤ at + 64) }
{
    let index_at = put(b"load ", out, at);
    let space_at = put_decimal(index, out, index_at);
    let number_at = put(b" ", out, space_at);
    let end = put_decimal(number, out, number_at);
    put(b"\n", out, end)
}

// `pairs` and how many there are.
pub fn pairs(count: usize, out: &mut [u8], at: usize) -> usize
    requires { at + 64 ≤ length out.old }
    ensures { Puts out.old at (pairs_line count) out.new result × (result ≤ at + 64) }
{
    let count_at = put(b"pairs ", out, at);
    let end = put_decimal(count, out, count_at);
    put(b"\n", out, end)
}

// A guard's place and the other's.
pub fn pair(guard: usize, other: usize, out: &mut [u8], at: usize) -> usize
    requires { at + 64 ≤ length out.old }
    ensures { Puts out.old at (pair_line guard other) out.new result × (result ≤ at + 64) }
{
    let space_at = put_decimal(guard, out, at);
    let other_at = put(b" ", out, space_at);
    let end = put_decimal(other, out, other_at);
    put(b"\n", out, end)
}
