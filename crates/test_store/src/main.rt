// Loads images into a store, judges it and resolves their layers as the lines of standard input say, and prints what comes back. Beside the lines of
// `test_lines`:
//
//   load ID MANIFEST       loads an image; prints the number, the new used count, which is kept where the number is 0, and the offset of the
//                          manifest's fault
//   judge N                judges the store with a report buffer of N bytes, each 0xEE; prints the number and the number of pairs, then the
//                          pairs and what follows them as `show` does
//   resolve PLACE N HEX    resolves the layers of the image at a place, with the layer list HEX, each byte as two hexadecimal digits, and an output
//                          buffer of N bytes, each 0xEE; prints the number and the value, then the output and what follows it as `show` does
#![tactic(auto)]

ghost use Rattle.std.specs.Prelude.{◌≤◌, ◌*◌, length};

use answer::TextAnswer;
use reference::ImageIndex;
use test_lines::{FILL, State};

// The longest output buffer that a line may ask for.
const MOST_OUTPUT: usize = 4096;

// What a load answers, on a line.
fn print_load(a: TextAnswer) {
    io::print_decimal(1, a.number as u64);
    io::write_all(1, b" ");
    io::print_decimal(1, a.value as u64);
    io::write_all(1, b" ");
    io::print_decimal(1, a.place as u64);
    io::write_all(1, b"\n");
}

// `load`: an Image ID, a space, and a manifest. Answers the used count after it.
fn load(words: &[u8], store: &mut [u8], used: usize) -> usize {
    let Some(space) = words.iter().position(|b| *b == b' ') else {
        test_lines::print_bad();
        return used;
    };
    let a = store::load(&words[..space], &words[space + 1..], store, used);
    print_load(a);
    if a.number == 0 { a.value } else { used }
}

// Judges the store with this report buffer.
fn judge_into(store: &[u8], used: usize, report: &mut [u8]) {
    let a = policy::judge(store, used, report);
    test_lines::print_two(a.number, a.value);
    let pairs = a.value;
    if report.len() / 2 < pairs {
        test_lines::print_bad();
        return;
    }
    test_lines::show(report, pairs * 2);
}

// `judge`: how long the report buffer is.
fn judge(words: &[u8], store: &[u8], used: usize) {
    let mut space = [FILL; 8192];
    let report: &mut [u8] = &mut space;
    match test_lines::decimal(words) {
        None => test_lines::print_bad(),
        Some(n) => {
            if report.len() < n {
                test_lines::print_bad();
                return;
            }
            judge_into(store, used, &mut report[..n]);
        }
    }
}

// Resolves with a layer list that is written into `list`, and this output buffer.
fn resolve_into(
    hex: &[u8],
    list: &mut [u8],
    store: &[u8],
    used: usize,
    place: usize,
    out: &mut [u8],
)
    requires { length list.old * 2 ≤ length hex.now }
{
    test_lines::write_pairs(hex, list);
    let a = lookup::resolve(store, used, list, ImageIndex(place), out);
    test_lines::print_two(a.number, a.value);
    let length = if a.number == 0 { a.value } else { 0 };
    test_lines::show(out, length);
}

// The layer list, in hexadecimal digits.
fn with_list(hex: &[u8], store: &[u8], used: usize, place: usize, out: &mut [u8]) {
    let mut space = [0u8; 2048];
    let list: &mut [u8] = &mut space;
    let n = hex.len() / 2;
    if list.len() < n {
        test_lines::print_bad();
        return;
    }
    if !test_lines::are_pairs(hex) {
        test_lines::print_bad();
        return;
    }
    resolve_into(hex, &mut list[..n], store, used, place, out);
}

// How long the output buffer is, a space, and the layer list.
fn with_buffer(words: &[u8], store: &[u8], used: usize, place: usize) {
    let mut space = [FILL; MOST_OUTPUT];
    let out: &mut [u8] = &mut space;
    let Some(space) = words.iter().position(|b| *b == b' ') else {
        test_lines::print_bad();
        return;
    };
    match test_lines::decimal(&words[..space]) {
        None => test_lines::print_bad(),
        Some(n) => {
            if out.len() < n {
                test_lines::print_bad();
                return;
            }
            with_list(&words[space + 1..], store, used, place, &mut out[..n]);
        }
    }
}

// `resolve`: the place of an image, a space, and what follows.
fn resolve(words: &[u8], store: &[u8], used: usize) {
    let Some(space) = words.iter().position(|b| *b == b' ') else {
        test_lines::print_bad();
        return;
    };
    match test_lines::decimal(&words[..space]) {
        None => test_lines::print_bad(),
        Some(place) => with_buffer(&words[space + 1..], store, used, place),
    }
}

// One line; answers the state after it.
fn obey(line: &[u8], buffer: &mut [u8], t: State) -> State
    requires { t.size ≤ length buffer.old }
    ensures { result.size ≤ length buffer.old }
{
    if let Some(words) = line.strip_prefix(b"load ") {
        let used = load(words, &mut buffer[..t.size], t.used);
        return State { used, ..t };
    }
    if let Some(words) = line.strip_prefix(b"judge ") {
        judge(words, &buffer[..t.size], t.used);
        return t;
    }
    if let Some(words) = line.strip_prefix(b"resolve ") {
        resolve(words, &buffer[..t.size], t.used);
        return t;
    }
    test_lines::obey(line, buffer, t)
}

// Each line of s.
fn obey_all(s: &[u8], buffer: &mut [u8]) {
    let mut t = State { size: 0, used: 0 };
    let mut start = 0;
    // no `for` counts `start`: it goes on after the line that was found
    while start < s.len() {
        let end = lines::find(s, start, b'\n');
        t = obey(&s[start..end], buffer, t);
        start = end + 1;
    }
}

fn main() {
    let mut input = [0u8; 262144];
    let n = io::read_full(0, &mut input);
    let mut buffer = [FILL; 32768];
    obey_all(&input[..n], &mut buffer);
}
