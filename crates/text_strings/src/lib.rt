// Strings of a JSON text in place: their content byte by byte.
#![tactic(auto)]

ghost use Rattle.std.specs.Prelude.{◌≡◌, List, true, ℕ, ◌+◌, ◌<◌, get_or};
ghost use Rattle.text_json.specs.Grammar.{hex_number};
ghost use Rattle.text_strings.specs.InString.{HexAt, EscapeAt, HighAt, Escapes};
ghost use Rattle.text_strings.specs.Cursor.{Left, ReadableCursor, GivesByte, Encodes, weight};

// The number of the four hexadecimal digits at `at`.
fn hex_number(s: &[u8], at: usize) -> u32
    requires { HexAt s.now at }
    ensures value { result ≡ hex_number (get_or s.now at 0) (get_or s.now (at + 1) 0) (get_or s.now (at + 2) 0)
        (get_or s.now (at + 3) 0) }
    ensures upper_bound { result < 0x10000 }
{
    let a = text_json::bytes::hex_value(s[at]);
    let b = text_json::bytes::hex_value(s[at + 1]);
    let c = text_json::bytes::hex_value(s[at + 2]);
    let d = text_json::bytes::hex_value(s[at + 3]);
    ((a * 16 + b) * 16 + c) * 16 + d
}

// An escape: the character that it stands for, and where the string goes on.
#[derive(Clone, Copy)]
pub struct Escape {
    pub next: usize,
    pub scalar: u32,
}

// The escape at i, where a backslash stands in a string. A high surrogate with a low one's escape after it is one character.
pub fn read_escape(s: &[u8], i: usize) -> Escape
    requires { EscapeAt s.now i }
    ensures { Escapes s.now i result.next result.scalar }
{
    let b = s[i + 1];
    if b != b'u' {
        let c = text_json::bytes::short_value(b);
        return Escape {
            next: i + 2,
            scalar: c as u32,
        };
    }
    let u = hex_number(s, i + 2);
    if 0xD800 <= u {
        if u < 0xDC00 {
            return read_pair(s, i, u);
        }
    }
    Escape {
        next: i + 6,
        scalar: u,
    }
}

// The escape at i of the high surrogate u: with a low one's escape after it one character, else u alone.
fn read_pair(s: &[u8], i: usize, u: u32) -> Escape
    requires { HighAt s.now i u }
    ensures { Escapes s.now i result.next result.scalar }
{
    let j = i + 6;
    if s[j] == b'\\' {
        if s[j + 1] == b'u' {
            let v = hex_number(s, j + 2);
            if 0xDC00 <= v {
                if v < 0xE000 {
                    return Escape {
                        next: j + 6,
                        scalar: 0x10000 + (u - 0xD800) * 0x400 + (v - 0xDC00),
                    };
                }
            }
        }
    }
    Escape { next: j, scalar: u }
}

// A place in a string's content: the bytes of an escape that are not taken yet, held[from..count], and then the string from `at` on.
#[derive(Clone, Copy)]
pub struct Cursor {
    pub at: usize,
    pub held: [u8; 4],
    pub from: usize,
    pub count: usize,
}

// The next byte of a string's content with the place after it; where the content has ended, `found` is false.
#[derive(Clone, Copy)]
pub struct Next {
    pub found: bool,
    pub byte: u8,
    pub rest: Cursor,
}

impl Cursor {
    // The content from position `at` of the text on.
    pub fn new(at: usize) -> Self
        ensures { (result.at ≡ at) × (result.from ≡ 0) × (result.count ≡ 0) }
    {
        Cursor {
            at,
            held: [0; 4],
            from: 0,
            count: 0,
        }
    }

    pub fn next(self, s: &[u8]) -> Next
        requires { ReadableCursor s.now self }
        ensures by_index { (c : List ℕ) → Left s.now self c → GivesByte s.now c result }
        ensures rest_bound { result.found ≡ true → weight s.now result.rest < weight s.now self }
    {
        let at = self.at;
        let held = self.held;
        let from = self.from;
        let count = self.count;
        if from < count {
            let byte = held[from];
            let rest = Cursor {
                at,
                held,
                from: from + 1,
                count,
            };
            return Next {
                found: true,
                byte,
                rest,
            };
        }
        let byte = s[at];
        if byte == b'"' {
            return Next {
                found: false,
                byte,
                rest: self,
            };
        }
        if byte == b'\\' {
            return from_escape(read_escape(s, at));
        }
        let rest = Cursor {
            at: at + 1,
            held,
            from,
            count,
        };
        Next {
            found: true,
            byte,
            rest,
        }
    }
}

// The first byte of the character that an escape stands for, with the others held.
fn from_escape(e: Escape) -> Next
    requires { e.scalar < 0x110000 }
    ensures { Encodes e.next e.scalar result }
{
    let at = e.next;
    let scalar = e.scalar;
    let x = text_utf8::encoded(scalar);
    let held = x.bytes;
    let count = x.len;
    let byte = held[0];
    let rest = Cursor {
        at,
        held,
        from: 1,
        count,
    };
    Next {
        found: true,
        byte,
        rest,
    }
}
