// Reading a value at a position, and finding where it ends.
ghost use Rattle.std.specs.Prelude.{◌≡◌, List, Bool, ℕ, []};
ghost use Rattle.text_json.specs.Syntax.{Syntax};
ghost use Rattle.text_json.specs.Grammar.{Text};
ghost use Rattle.text_json.specs.Read.{spaces};
ghost use Rattle.text_json.specs.Scan.{At};
ghost use Rattle.text_json.specs.Content.{decimal};
ghost use Rattle.text_strings.specs.InString.{Inside, EscapeAt};
ghost use Rattle.text_content.specs.Value.{Value, number, content};
ghost use Rattle.text_view.specs.Place.{ValueAt, Readable, SomeValue, SmallNumber, kind_of, EndsAt, StringEndsAt, CharEndsAt, ScalarAt};
ghost use Rattle.text_view.specs.Place.{end_of};
ghost use Rattle.text_view.specs.Listed.{Tree, ListAt, SomeList, AnyList, ListEndsAt, SomeItem, ItemAt, SomeItemEnd, NoItems, ItemValue};
ghost use Rattle.text_view.specs.Listed.{GivesItem, Peeks};
ghost use Rattle.text_view.specs.Listed.{end_mark};
ghost use Rattle.text_view.specs.declared.value.Item.TheVariants.{At as ItemIs};

use crate::{Kind, Whole};
use text_json::{Stuck, Token};

// The value of a whole text: it stands after the first spaces.
pub fn root(s: &[u8]) -> usize
    ensures by_index { (depth : ℕ) (t : Syntax) → Text depth s.now t → ValueAt s.now result depth (content t) }
    ensures at { At s.now result (spaces s.now) }
{
    text_json::space::skip_spaces(s, 0)
}

// The first byte of a value tells its kind.
pub fn kind(s: &[u8], at: usize) -> Kind
    requires { SomeValue s.now at }
    ensures { (depth : ℕ) (v : Value) → ValueAt s.now at depth v → result ≡ kind_of v }
{
    match s[at] {
        b'n' => Kind::Null,
        b't' => Kind::Boolean(true),
        b'f' => Kind::Boolean(false),
        b'"' => Kind::String,
        b'[' => Kind::Array,
        b'{' => Kind::Object,
        _ => Kind::Number,
    }
}

// The number at a position, whose distance from 0 is below 2^32.
pub fn whole(s: &[u8], at: usize) -> Whole
    requires { SmallNumber s.now at }
    ensures { (depth : ℕ) (n : Bool) (ds : List ℕ) → ValueAt s.now at depth (number n ds)
        → (result.negative ≡ n) × (result.magnitude ≡ decimal ds) }
{
    let negative = s[at] == b'-';
    match text_numbers::int_part(s, at + text_numbers::sign_size(negative)) {
        Ok(digits) => Whole {
            negative,
            magnitude: digits.value as u32,
        },
        Err(_) => Whole {
            negative,
            magnitude: 0,
        },
    }
}

// An item of an array or an object: where it starts, where its value stands, and where the next item or the end mark is looked
// for. At the end: the position after the end mark, so both are places, and no Option says them.
#[derive(Clone, Copy)]
pub enum Item {
    At {
        first: usize,
        value: usize,
        next: usize,
    },
    End(usize),
}

// An item without what follows it.
#[derive(Clone, Copy)]
pub struct Peek {
    pub first: usize,
    pub value: usize,
}

// Where a token that was read ends.
fn token_end(r: Result<Token, Stuck>) -> usize
    ensures { result ≡ end_of r }
{
    match r {
        Ok(token) => token.end,
        Err(at) => at,
    }
}

// The position after the escape at `i`: a \u escape has four digits.
fn escape_end(s: &[u8], i: usize) -> usize
    requires { EscapeAt s.now i }
    ensures { CharEndsAt s.now i result }
{
    if s[i + 1] == b'u' { i + 6 } else { i + 2 }
}

// The position after the closing quotation mark of the string whose content goes on at `from`, one char at a time.
fn string_tail(s: &[u8], from: usize) -> usize
    requires { Inside s.now from }
    ensures { StringEndsAt s.now from result }
{
    let mut i = from;
    // the position goes on by a char, which may be an escape, so no `for` counts it
    loop {
        let b = s[i];
        if b == b'"' {
            return i + 1;
        }
        if b == b'\\' {
            i = escape_end(s, i);
        } else {
            i += 1;
        }
    }
}

// The position after the closing quotation mark of the string whose content goes on at `from`: eight bytes at once where that can be.
fn string_rest(s: &[u8], from: usize) -> usize
    requires { Inside s.now from }
    ensures { StringEndsAt s.now from result }
{
    if text_chars::unmarked_left(s, from, 8) {
        return string_tail(s, from + 8);
    }
    string_tail(s, from)
}

// The position after the closing quotation mark of the string whose content goes on at `from`: sixteen bytes at a time while none
// of them ends it or begins an escape.
fn string_end(s: &[u8], from: usize) -> usize
    requires { Inside s.now from }
    ensures { StringEndsAt s.now from result }
{
    let mut i = from;
    // where the run ends is what is asked, so no `for` counts it
    while text_chars::unmarked_left(s, i, 16) {
        i += 16;
    }
    string_rest(s, i)
}

// The position after a value that is neither an array nor an object.
fn scalar_end(s: &[u8], at: usize) -> usize
    requires { ScalarAt s.now at }
    ensures { EndsAt s.now at 0 result }
{
    match s[at] {
        b'n' | b't' => at + 4,
        b'f' => at + 5,
        b'"' => string_end(s, at + 1),
        _ => token_end(text_numbers::number(s, at)),
    }
}

// The position after the end mark of the array or the object whose items begin at `from`. Brackets are counted, and strings are
// passed whole, since they may hold brackets; the text was checked, so which brackets belong together need not be asked.
fn skip_nested(s: &[u8], from: usize) -> usize
    requires { AnyList s.now from }
    ensures { (depth : ℕ) (object : Bool) → ListEndsAt s.now from depth object result }
{
    let mut i = from;
    let mut open: usize = 1;
    // a string is passed whole, so no `for` counts the position
    while 0 < open {
        let b = s[i];
        if b == b'"' {
            i = string_end(s, i + 1);
        } else {
            i += 1;
            match b {
                b'[' | b'{' => open += 1,
                b']' | b'}' => open -= 1,
                _ => {}
            }
        }
    }
    i
}

// The position after a value that is nested at most `depth` deep; only the contract speaks of the depth.
pub fn skip(s: &[u8], at: usize, depth: usize) -> usize
    requires { Readable s.now at depth }
    ensures { EndsAt s.now at depth result }
{
    match s[at] {
        b'[' | b'{' => skip_nested(s, at + 1),
        _ => scalar_end(s, at),
    }
}

// The first of the items from `at` on, where what follows it is not asked, and so its value need not be passed.
pub fn peek_item(s: &[u8], at: usize, depth: usize, object: bool) -> Option<Peek>
    requires { SomeList s.now at depth object }
    ensures { (ts : List (Tree object)) (rest : List ℕ) → ListAt s.now at depth object ts rest
        → Peeks s.now at depth object ts result }
{
    let first = text_json::space::skip_spaces(s, at);
    if s[first] == end_mark(object) {
        return None;
    }
    let value = item_value(s, first, object);
    Some(Peek { first, value })
}

// The first of the items from `at` on.
pub fn read_item(s: &[u8], at: usize, depth: usize, object: bool) -> Item
    requires { SomeList s.now at depth object }
    ensures { (ts : List (Tree object)) (rest : List ℕ) → ListAt s.now at depth object ts rest
        → GivesItem s.now at depth object ts rest result }
{
    let Some(Peek { first, value }) = peek_item(s, at, depth, object) else {
        return Item::End(list_end(s, at));
    };
    let next = after_value(s, skip(s, value, depth));
    Item::At { first, value, next }
}

// The position from which on the items stand after one whose value ends at `end`: spaces are passed, and a comma.
pub fn after_value(s: &[u8], end: usize) -> usize
    requires { SomeItemEnd s.now end }
    ensures { (at depth : ℕ) (object : Bool) (ts : List (Tree object)) (rest : List ℕ) (p v : ℕ) → ListAt s.now at depth object ts rest
        → ItemAt s.now at object p v → EndsAt s.now v depth end → GivesItem s.now at depth object ts rest (ItemIs p v result) }
{
    let next = text_json::space::skip_spaces(s, end);
    if s[next] == b',' {
        return next + 1;
    }
    next
}

// The position after the end mark, where no item is left from `at` on.
pub fn list_end(s: &[u8], at: usize) -> usize
    requires { NoItems s.now at }
    ensures { (depth : ℕ) (object : Bool) (rest : List ℕ) → ListAt s.now at depth object [] rest
        → ListEndsAt s.now at depth object result }
{
    text_json::space::skip_spaces(s, at) + 1
}

fn end_mark(object: bool) -> u8
    ensures { result ≡ end_mark object }
{
    if object { b'}' } else { b']' }
}

// The position of an item's value: a member's stands after its key and a colon.
pub fn item_value(s: &[u8], at: usize, object: bool) -> usize
    requires { SomeItem s.now at object }
    ensures { ItemValue s.now at object result }
{
    if !object {
        return at;
    }
    let end = string_end(s, at + 1);
    let colon = text_json::space::skip_spaces(s, end);
    text_json::space::skip_spaces(s, colon + 1)
}
