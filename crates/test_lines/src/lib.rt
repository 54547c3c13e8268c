// What the programs over stored lines share: reading the words of a line, printing, and a buffer that is worked on line by line.
//
//   new N              a buffer of N bytes, each 0xEE, with used count 0
//   put OFFSET HEX     writes bytes into the buffer, each as two hexadecimal digits
//   used N             sets the used count
//   show               prints the bytes up to the used count, and on a line of its own how many after them are not 0xEE any more
//
// A line that is none of these, or that asks for bytes which the buffer does not have, prints `bad`. What is printed is tested; no contract speaks of it.
#![tactic(auto)]

ghost use Rattle.std.specs.Prelude.{◌≡◌, ℕ, ◌≤◌, ◌<◌, ◌*◌, length, get_or};
ghost use Rattle.test_lines.specs.Words.{number_of, are_pairs, digit_value, byte_at};

// The byte that a new buffer is filled with.
pub const FILL: u8 = 0xEE;

// Ten times this number, and a digit, is less than 2 to the power of 64.
const TENTH: usize = 1844674407370955160;

// How many bytes of the buffer are the store's, and how many of these are used.
#[derive(Clone, Copy)]
pub struct State {
    pub size: usize,
    pub used: usize,
}

pub fn print_bad() {
    io::write_all(1, b"bad\n");
}

// The number that all of s spells in decimal digits. It is read as long as it cannot leave 64 bits.
pub fn decimal(s: &[u8]) -> Option<usize>
    ensures { result ≡ number_of s.now }
{
    if s.is_empty() {
        return None;
    }
    let mut n = 0;
    for b in s {
        if !text_json::bytes::is_digit(*b) {
            return None;
        }
        if TENTH < n {
            return None;
        }
        n = n * 10 + (*b - b'0') as usize;
    }
    Some(n)
}

// All bytes are lower-case hexadecimal digits, and each digit has a second one.
pub fn are_pairs(hex: &[u8]) -> bool
    ensures { result ≡ are_pairs hex.now }
{
    for b in hex {
        if !reference_parts::part::is_lower_hex(*b as u32) {
            return false;
        }
    }
    hex.len() % 2 == 0
}

// The value of a lower-case hexadecimal digit; 0 for any other byte.
fn digit(b: u8) -> u8
    ensures { (result ≡ digit_value b) × (result < 16) }
{
    if text_json::bytes::is_digit(b) {
        return b - b'0';
    }
    if text_json::bytes::between(0x61, 0x66, b as u32) {
        return b - b'a' + 10;
    }
    0
}

// Writes bytes that are given by two hexadecimal digits each.
pub fn write_pairs(hex: &[u8], out: &mut [u8])
    requires { length out.old * 2 ≤ length hex.now }
    ensures out_len_unchanged { length out.new ≡ length out.old }
    ensures by_index { (k : ℕ) → k < length out.old → get_or out.new k 0 ≡ byte_at hex.now k }
{
    for (i, byte) in out.iter_mut().enumerate() {
        *byte = digit(hex[i * 2]) * 16 + digit(hex[i * 2 + 1]);
    }
}

// How many bytes are not those of a new buffer.
fn count_changed(s: &[u8]) -> usize {
    s.iter().filter(|b| **b != FILL).count()
}

// Each byte in two hexadecimal digits.
pub fn print_bytes(s: &[u8]) {
    for b in s {
        io::print_hex(1, *b as u64, 2);
    }
}

// Two numbers of an answer, on a line.
pub fn print_two(number: usize, value: usize) {
    io::print_decimal(1, number as u64);
    io::write_all(1, b" ");
    io::print_decimal(1, value as u64);
    io::write_all(1, b"\n");
}

// The first `used` bytes, and how many after them are not those of a new buffer.
pub fn show(s: &[u8], used: usize) {
    if s.len() < used {
        print_bad();
        return;
    }
    print_bytes(&s[..used]);
    io::write_all(1, b"\n");
    io::print_decimal(1, count_changed(&s[used..]) as u64);
    io::write_all(1, b"\n");
}

// Writes bytes at an offset, where the store has as many from there on.
fn put_at(offset: usize, hex: &[u8], store: &mut [u8]) {
    let n = hex.len() / 2;
    if store.len() < n {
        print_bad();
        return;
    }
    if store.len() - n < offset {
        print_bad();
        return;
    }
    let end = offset + n;
    write_pairs(hex, &mut store[offset..end]);
}

// `put`: an offset, a space, and bytes.
fn put(words: &[u8], store: &mut [u8]) {
    let Some(space) = words.iter().position(|b| *b == b' ') else {
        print_bad();
        return;
    };
    let hex = &words[space + 1..];
    if !are_pairs(hex) {
        print_bad();
        return;
    }
    match decimal(&words[..space]) {
        None => print_bad(),
        Some(offset) => put_at(offset, hex, store),
    }
}

// `used`: the new used count, which may be more than the store has.
fn set_used(words: &[u8], used: usize) -> usize {
    match decimal(words) {
        None => {
            print_bad();
            used
        }
        Some(n) => n,
    }
}

// A line that works on the store; answers the used count after it.
fn work(line: &[u8], store: &mut [u8], used: usize) -> usize {
    if let Some(words) = line.strip_prefix(b"put ") {
        put(words, store);
        return used;
    }
    if let Some(words) = line.strip_prefix(b"used ") {
        return set_used(words, used);
    }
    if line == b"show".as_slice() {
        show(store, used);
        return used;
    }
    print_bad();
    used
}

// `new`: how long the store is.
fn renew(words: &[u8], buffer: &mut [u8], t: State) -> State
    requires { t.size ≤ length buffer.old }
    ensures { result.size ≤ length buffer.old }
{
    match decimal(words) {
        None => {
            print_bad();
            t
        }
        Some(size) => {
            if buffer.len() < size {
                print_bad();
                return t;
            }
            buffer[..size].fill(FILL);
            State { size, used: 0 }
        }
    }
}

// One line; answers the state after it.
pub fn obey(line: &[u8], buffer: &mut [u8], t: State) -> State
    requires { t.size ≤ length buffer.old }
    ensures { result.size ≤ length buffer.old }
{
    if let Some(words) = line.strip_prefix(b"new ") {
        return renew(words, buffer, t);
    }
    let used = work(line, &mut buffer[..t.size], t.used);
    State { used, ..t }
}
