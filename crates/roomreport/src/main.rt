// Loads the images that the lines of standard input give into a store of 32,768 bytes: an Image ID, a space and a manifest to a line. Prints the
// index of each line and the number that it gets, and then the pairs of a guard and an image that it does not reach, by their places.
#![tactic(auto)]

ghost use Rattle.std.specs.Prelude.{◌≡◌, ◌+◌, ◌*◌, ◌≤◌, length};
ghost use Rattle.roomreport.specs.Within.{Within};

use report_text::print;

// Where a run is: the index of the next line, the used count of the store, how many bytes are kept of the line that has not ended, and how
// many of the output buffer are still to be printed.
#[derive(Clone, Copy)]
struct State {
    index: usize,
    used: usize,
    kept: usize,
    unprinted: usize,
}

// Prints the first n bytes of the output buffer where a line more might not fit after them; answers where the line goes.
fn place_for_line(out: &[u8], n: usize) -> usize
    requires { (64 ≤ length out.now) × (n ≤ length out.now) }
    ensures { result + 64 ≤ length out.now }
{
    if n <= out.len() - print::MOST_PRINTED {
        return n;
    }
    io::write_all(1, &out[..n]);
    0
}

// Loads the image of a line, and prints its number.
fn answer(line: &[u8], store: &mut [u8], out: &mut [u8], t: State) -> State
    requires { (64 ≤ length out.old) × (t.unprinted ≤ length out.old) }
    ensures { Within 0 (length out.old) result }
{
    let loaded = report_lines::load_line(line, store, t.used);
    let at = place_for_line(out, t.unprinted);
    State {
        index: std::num::wrapping_add_usize(t.index, 1),
        used: loaded.used,
        kept: 0,
        unprinted: print::load(t.index, loaded.number, out, at),
    }
}

// The same state, with so many bytes kept of a line.
fn with_kept(t: State, kept: usize) -> State
    ensures { (result.kept ≡ kept) × (result.unprinted ≡ t.unprinted) }
{
    State {
        index: t.index,
        used: t.used,
        kept,
        unprinted: t.unprinted,
    }
}

// Takes a part of the input: answers each line that ends in it, and keeps what comes of the next.
fn feed(part: &[u8], kept: &mut [u8], store: &mut [u8], out: &mut [u8], t: State) -> State
    requires { (64 ≤ length out.old) × Within (length kept.old) (length out.old) t }
    ensures { Within (length kept.old) (length out.old) result }
{
    let mut t = t;
    let mut at = 0;
    // no `for` counts `at`: it goes on after the line that was found
    while at < part.len() {
        let taken = report_text::take_part(kept, t.kept, part, at);
        let length = taken.length;
        at = taken.at;
        if taken.ended {
            t = answer(&kept[..length], store, out, t);
        } else {
            t = with_kept(t, length);
        }
    }
    t
}

// Reads standard input to its end, in parts.
fn read_all(part: &mut [u8], kept: &mut [u8], store: &mut [u8], out: &mut [u8]) -> State
    requires { 64 ≤ length out.old }
    ensures { Within (length kept.old) (length out.old) result }
{
    let mut t = State {
        index: 0,
        used: 0,
        kept: 0,
        unprinted: 0,
    };
    // a loop has to end, and nothing says that an input does: no run uses up so many turns
    for _ in 0..u64::MAX {
        // the part is full, but where a read has told the end of the input
        let n = io::read_full(0, part);
        t = feed(&part[..n], kept, store, out, t);
        if n < part.len() {
            return t;
        }
    }
    t
}

// Answers the last line, which the end of the input ends, if anything has come of it.
fn answer_last(kept: &[u8], store: &mut [u8], out: &mut [u8], t: State) -> State
    requires { (64 ≤ length out.old) × Within (length kept.now) (length out.old) t }
    ensures { result.unprinted ≤ length out.old }
{
    let length = t.kept;
    if length == 0 {
        return t;
    }
    answer(&kept[..length], store, out, t)
}

// Puts the first n pairs of places into the output buffer from `at` on; answers where it ends.
fn print_pairs(places: &[u8], n: usize, out: &mut [u8], at: usize) -> usize
    requires { (2 * n ≤ length places.now) × (64 ≤ length out.old) × (at ≤ length out.old) }
    ensures { result ≤ length out.old }
{
    let mut end = at;
    for i in 0..n {
        let place = place_for_line(out, end);
        end = print::pair(
            places[2 * i] as usize,
            places[2 * i + 1] as usize,
            out,
            place,
        );
    }
    end
}

// Prints the pairs of a store, after what is still to be printed.
fn report(store: &[u8], used: usize, out: &mut [u8], unprinted: usize)
    requires { (64 ≤ length out.old) × (unprinted ≤ length out.old) }
{
    let mut places = [0u8; 8064];
    let judged = policy::judge(store, used, &mut places);
    let n = judged.value;
    let place = place_for_line(out, unprinted);
    let first = print::pairs(n, out, place);
    let end = print_pairs(&places, n, out, first);
    io::write_all(1, &out[..end]);
}

fn main() {
    let mut store = [0u8; 32768];
    let mut kept = report_text::line_buffer();
    let mut part = io::large_buffer();
    let mut out = io::large_buffer();
    let open = read_all(&mut part, &mut kept, &mut store, &mut out);
    let end = answer_last(&kept, &mut store, &mut out, open);
    report(&store, end.used, &mut out, end.unprinted);
}
