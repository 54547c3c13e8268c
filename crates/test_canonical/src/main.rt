// Reads texts from standard input, an empty line after each but the last, and prints for each its number of document 01's table, `own`
// where it is its own canonical form, and that form, or the offset of its fault.
#![tactic(auto)]

ghost use Rattle.std.specs.Prelude.{◌≡◌, true, ◌+◌, ◌<◌, length};

fn show_place(number: usize, place: usize) {
    if number != 0 {
        io::write_all(1, b"at ");
        io::print_decimal(1, place as u64);
    }
}

fn show(json: &[u8]) {
    let mut out = [0u8; text::MOST_BYTES];
    let a = text::canonical(json, &mut out);
    io::print_decimal(1, a.number as u64);
    if text::is_canonical(json) {
        io::write_all(1, b" own");
    }
    io::write_all(1, b" ");
    let n = a.value;
    if n <= text::MOST_BYTES {
        io::write_all(1, &out[..n]);
    }
    show_place(a.number, a.place);
    io::write_all(1, b"\n");
}

// A line ends at `at`, and an empty line comes after it.
fn is_gap(s: &[u8], at: usize) -> bool
    ensures { result ≡ true → at + 1 < length s.now }
{
    if at < s.len() {
        if s[at] == b'\n' {
            if at + 1 < s.len() {
                return s[at + 1] == b'\n';
            }
        }
    }
    false
}

fn show_all(s: &[u8]) {
    let mut start = 0;
    let mut i = 0;
    // no `for` counts `i`: it passes two bytes at a gap
    while i < s.len() {
        if is_gap(s, i) {
            show(&s[start..i]);
            i += 1;
            start = i + 1;
        }
        i += 1;
    }
    show(&s[start..]);
}

fn main() {
    let mut buffer = io::large_buffer();
    let n = io::read_full(0, &mut buffer);
    show_all(&buffer[..n]);
}
