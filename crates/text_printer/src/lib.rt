// Writing canonical text. Each function writes at the start of the slice that it is lent and says how many bytes it wrote.
#![tactic(auto)]

ghost use Rattle.std.specs.Prelude.{◌≡◌, [], ◌∷◌, ◌++◌, ◌+◌, ◌-◌, ◌<◌, ◌≤◌, length, take, drop};
ghost use Rattle.text_utf8.specs.Scalar.{encode};
ghost use Rattle.text_json.specs.Content.{escaped, quoted};
ghost use Rattle.text_strings.specs.InString.{Inside, content_from};
ghost use Rattle.laws.specs.Writes.{Writes};
ghost use Rattle.text_printer.specs.Unmarked.{UnmarkedRun};

// The bytes of s from `from` to `to`.
pub fn copy(s: &[u8], from: usize, to: usize, out: &mut [u8]) -> usize
    requires { (from ≤ to) × (to ≤ length s.now) × (to - from ≤ length out.old) }
    ensures { (result ≡ to - from) × Writes out.old out.new (take (to - from) (drop from s.now)) }
{
    let n = to - from;
    // a loop, since `copy_from_slice` calls libc's memmove, and the header promises that only memcpy and memset are called
    let mut i = 0;
    while i < n {
        out[i] = s[from + i];
        i += 1;
    }
    n
}

// A character of a string in canonical form: its UTF-8, with a backslash before it if it is the quotation mark or the backslash.
fn write_char(c: u32, out: &mut [u8]) -> usize
    requires { (c < 0x110000) × (length (escaped (encode c)) ≤ length out.old) }
    ensures { (result ≡ length (escaped (encode c))) × Writes out.old out.new (escaped (encode c)) }
{
    if c == 0x22 {
        out[0] = b'\\';
        out[1] = b'"';
        return 2;
    }
    if c == 0x5C {
        out[0] = b'\\';
        out[1] = b'\\';
        return 2;
    }
    let x = text_utf8::encoded(c);
    let len = x.len;
    let bytes = x.bytes;
    copy(&bytes, 0, len, out)
}

// Where the bytes from `at` on that are neither a quotation mark nor a backslash end, one byte at a time.
fn unmarked_tail(s: &[u8], at: usize) -> usize
    requires { at ≤ length s.now }
    ensures { UnmarkedRun s.now at result }
{
    for i in at..s.len() {
        match s[i] {
            b'"' | b'\\' => return i,
            _ => {}
        }
    }
    s.len()
}

// The same: eight bytes at once if there are that many, then one byte at a time.
fn unmarked_rest(s: &[u8], at: usize) -> usize
    requires { at ≤ length s.now }
    ensures { UnmarkedRun s.now at result }
{
    if text_chars::unmarked_left(s, at, 8) {
        return unmarked_tail(s, at + 8);
    }
    unmarked_tail(s, at)
}

// The same, sixteen bytes at a time while there are that many.
fn unmarked_end(s: &[u8], at: usize) -> usize
    requires { at ≤ length s.now }
    ensures { UnmarkedRun s.now at result }
{
    let mut i = at;
    // where the run ends is what is asked, so no `for` counts it
    while text_chars::unmarked_left(s, i, 16) {
        i += 16;
    }
    unmarked_rest(s, i)
}

// The byte that begins an escape.
const ESCAPE: u8 = b'\\';

// The string whose content goes on at i, in canonical form from there to its closing mark. A byte of the text that begins no escape
// stands for itself, and is no byte that has to be escaped; it is copied with those after it.
fn write_content(s: &[u8], i: usize, out: &mut [u8]) -> usize
    requires { Inside s.now i × (length (escaped (content_from s.now i)) + 1 ≤ length out.old) }
    ensures { (result ≡ length (escaped (content_from s.now i)) + 1)
        × Writes out.old out.new (escaped (content_from s.now i) ++ (0x22 ∷ [])) }
{
    let mut k = i;
    let mut n = 0;
    // the position goes on by an escape or by a run of bytes, so no `for` counts it
    loop {
        let b = s[k];
        if b == b'"' {
            out[n] = b'"';
            return n + 1;
        }
        if b == ESCAPE {
            let e = text_strings::read_escape(s, k);
            let c = e.scalar;
            n += write_char(c, &mut out[n..]);
            k = e.next;
            continue;
        }
        let end = unmarked_end(s, k + 1);
        n += copy(s, k, end, &mut out[n..]);
        k = end;
    }
}

// The string whose opening quotation mark stands at `at`, in canonical form.
pub fn write_string(s: &[u8], at: usize, out: &mut [u8]) -> usize
    requires { Inside s.now (at + 1) × (length (quoted (content_from s.now (at + 1))) ≤ length out.old) }
    ensures { (result ≡ length (quoted (content_from s.now (at + 1))))
        × Writes out.old out.new (quoted (content_from s.now (at + 1))) }
{
    out[0] = b'"';
    1 + write_content(s, at + 1, &mut out[1..])
}
