// What the one pass over a text is made of: its tokens, what stands between the items of an array or an object, and what is held of
// the parts that were read.
#![tactic(auto)]

ghost use Rattle.std.specs.Prelude.{◌≡◌, true, false, cond, ◌+◌, ◌-◌, ◌<◌, ◌≤◌, max, length, drop, get_or};
ghost use Rattle.text_json.specs.Syntax.{Syntax};
ghost use Rattle.text_json.specs.Read.{found, and_then, read_scalar, read_string, read_number};
ghost use Rattle.text_json.specs.Content.{refused_string};
ghost use Rattle.text_json.specs.Size.{string_size};
ghost use Rattle.text_json.specs.Scan.{ScansToken as TokenScans};
ghost use Rattle.laws.specs.Sort.{sort};
ghost use Rattle.text_strings.specs.InString.{key_le};
ghost use Rattle.text_keys.specs.Keys.{KeysAt};
ghost use Rattle.text_tokens.specs.Summary.{plus, member_summary};
ghost use Rattle.text_tokens.specs.Scanned.{ScansValue, Follows, plain_value, closed_value, literal_answer, token_answer, read_key, KeyWithin};

use text_json::{Stuck, Token};

// The first faults of a part of the text by questions 4, 5 and 6, each by the bytes left from there on (0: none), the length of its
// canonical form, and whether the keys of every object in it are in rising order.
#[derive(Clone, Copy)]
pub struct Summary {
    pub string: usize,
    pub number: usize,
    pub key: usize,
    pub size: usize,
    pub ordered: bool,
}

// A value that was read: the position after it, how many keys it has itself (0 where it is no object), and what it holds.
#[derive(Clone, Copy)]
pub struct ScannedValue {
    pub end: usize,
    pub count: usize,
    pub sum: Summary,
}

// What is held so far and one more element or member, with the mark after it.
pub fn added(a: Summary, b: Summary) -> Summary
    requires { a.size + b.size < 0x10000 }
    ensures { result ≡ plus a b }
{
    let string = a.string.max(b.string);
    let number = a.number.max(b.number);
    let key = a.key.max(b.key);
    Summary {
        string,
        number,
        key,
        size: a.size + b.size + 1,
        ordered: a.ordered & b.ordered,
    }
}

// A value that is no fault and whose canonical form has that length.
pub fn plain(end: usize, size: usize) -> Result<ScannedValue, Stuck>
    ensures { result ≡ plain_value end size }
{
    Ok(ScannedValue {
        end,
        count: 0,
        sum: Summary {
            string: 0,
            number: 0,
            key: 0,
            size,
            ordered: true,
        },
    })
}

// The bytes left from `at` on where something is faulty, else 0.
pub fn mark(faulty: bool, len: usize, at: usize) -> usize
    requires { at ≤ len }
    ensures { result ≡ cond faulty (len - at) 0 }
{
    if faulty { len - at } else { 0 }
}

// A value that is neither an array nor an object.
pub fn scalar(s: &[u8], at: usize) -> Result<ScannedValue, Stuck>
    requires { at ≤ length s.now }
    ensures { ScansValue s.now (read_scalar (drop at s.now)) result }
{
    if s.len() <= at {
        return Err(at);
    }
    match s[at] {
        b'"' => string(s, at),
        b'n' => literal(text_json::space::word(s, at + 1, b"ull"), 4),
        b't' => literal(text_json::space::word(s, at + 1, b"rue"), 4),
        b'f' => literal(text_json::space::word(s, at + 1, b"alse"), 5),
        _ => number(s, at),
    }
}

// A literal name whose letters were stepped over.
fn literal(step: Result<usize, Stuck>, size: usize) -> Result<ScannedValue, Stuck>
    ensures { result ≡ literal_answer step size }
{
    plain(step?, size)
}

// A token that was scanned, as a value: its faults where it is refused, by questions 4 and 5.
fn token(scan: Result<Token, Stuck>, string: usize, number: usize) -> Result<ScannedValue, Stuck>
    ensures { result ≡ token_answer scan string number }
{
    let token = scan?;
    if !token.refused {
        return plain(token.end, token.size);
    }
    Ok(ScannedValue {
        end: token.end,
        count: 0,
        sum: Summary {
            string,
            number,
            key: 0,
            size: token.size,
            ordered: true,
        },
    })
}

// A string as a value.
pub fn string(s: &[u8], at: usize) -> Result<ScannedValue, Stuck>
    requires { at ≤ length s.now }
    ensures { ScansValue s.now (and_then (read_string (drop at s.now)) (λ cs q. found (Syntax.string (drop at s.now) cs) q))
        result }
{
    token(text_chars::string(s, at), s.len() - at, 0)
}

// A number as a value.
fn number(s: &[u8], at: usize) -> Result<ScannedValue, Stuck>
    requires { at ≤ length s.now }
    ensures { ScansValue s.now (and_then (read_number (drop at s.now)) (λ n q. found (Syntax.number (drop at s.now) n) q))
        result }
{
    token(text_numbers::number(s, at), 0, s.len() - at)
}

// What follows an item of an array or an object: the position after the end mark, or the place of the next item.
#[derive(Clone, Copy)]
pub enum After {
    End(usize),
    More(usize),
}

// After an item that ends at `at`, and spaces: the end mark, or a comma and the place of the next item.
pub fn after_item(s: &[u8], at: usize, end_mark: u8) -> Result<After, Stuck>
    requires { at ≤ length s.now }
    ensures { Follows s.now at end_mark result }
{
    let i = text_json::space::skip_spaces(s, at);
    if s.len() <= i {
        return Err(i);
    }
    let b = s[i];
    if b == end_mark {
        return Ok(After::End(i + 1));
    }
    if b == b',' {
        let next = text_json::space::skip_spaces(s, i + 1);
        return Ok(After::More(next));
    }
    Err(i)
}

// The mark stands at that position.
pub fn stands(s: &[u8], at: usize, m: u8) -> bool
    ensures { (result ≡ true → (at < length s.now) × (get_or s.now at 0 ≡ m)) × (result ≡ false → at < length s.now
        → get_or s.now at 0 ≡ m → ⊥) }
{
    if at < s.len() {
        if s[at] == m {
            return true;
        }
    }
    false
}

// A member's key with its colon: where the value begins, whether the key is refused, and the length of its canonical form.
pub fn key(s: &[u8], at: usize) -> Result<Token, Stuck>
    requires { at ≤ length s.now }
    ensures { KeyWithin at result × TokenScans refused_string string_size s.now (read_key (drop at s.now)) result }
{
    let name = text_chars::string(s, at)?;
    let colon = text_json::space::skip_spaces(s, name.end);
    let after = text_json::space::word(s, colon, b":")?;
    Ok(Token {
        end: text_json::space::skip_spaces(s, after),
        ..name
    })
}

// A member's key: where its value begins, the bytes left from it on if it is refused, and the length of its canonical form.
#[derive(Clone, Copy)]
pub struct Name {
    pub value: usize,
    pub fault: usize,
    pub size: usize,
}

// A member: its key with the colon, and its value.
pub fn member(name: Name, value: Summary) -> Summary
    requires { name.size + value.size < 0x10000 }
    ensures { result ≡ member_summary name.fault name.size value }
{
    let string = name.fault.max(value.string);
    Summary {
        string,
        number: value.number,
        key: value.key,
        size: name.size + value.size + 1,
        ordered: value.ordered,
    }
}

// The end of an object with these keys: the first that is equal to an earlier one is a fault of it, and they are in rising order or
// not. The keys are left sorted.
pub fn closed(
    s: &[u8],
    end: usize,
    sum: Summary,
    keys: &mut [u16],
    spare: &mut [u16],
) -> Result<ScannedValue, Stuck>
    requires { KeysAt s.now keys.old × (length keys.old ≤ length spare.old) }
    ensures value { result ≡ closed_value s.now end sum keys.old }
    ensures keys_after { keys.new ≡ sort (key_le s.now) keys.old }
{
    let own = text_keys::order_keys(s, keys, spare);
    let key = own.left.max(sum.key);
    Ok(ScannedValue {
        end,
        count: keys.len(),
        sum: Summary {
            string: sum.string,
            number: sum.number,
            key,
            size: sum.size,
            ordered: own.rising & sum.ordered,
        },
    })
}
