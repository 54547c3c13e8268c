// JSON texts as document 01 takes them: checked by questions 1 to 6, and written in canonical form.
#![tactic(auto)]

ghost use Rattle.std.specs.Prelude.{◌≡◌, ◌++◌, ◌-◌, ◌≤◌, length, drop};
ghost use Rattle.text.specs.Keys.{KeySpace, RootKeys, FormReady, refused_text, with_count};
ghost use Rattle.text.specs.Answer.{fault_number, fault_place, checked, by_tree, by_faults, is_form, form, canonical_number, canonical_length, canonical_bytes};
ghost use Rattle.text.specs.Answer.{is_canonical, text_place};
ghost use Rattle.text.specs.Question.{text_number};
ghost use Rattle.text_json.specs.Syntax.{Syntax};
ghost use Rattle.text_json.specs.Read.{read_text};
ghost use Rattle.text_canonical.specs.Space.{WritableRoot, WritesValue};
ghost use Rattle.text_tokens.specs.Summary.{summary};

use answer::TextAnswer;

// The most bytes that a text may have.
pub const MOST_BYTES: usize = 16384;

// The most keys that a text has: each takes four bytes at least.
pub const MOST_KEYS: usize = MOST_BYTES / 4;

// Why a text is refused, by document 01's questions 1 to 6, each with the offset of the fault; a text that is too long has none.
#[derive(Clone, Copy)]
pub enum Fault {
    TooLong,
    NotUtf8(usize),
    NotJson(usize),
    BadString(usize),
    BadNumber(usize),
    SameKeys(usize),
}

impl Fault {
    // Its number in document 01's table.
    pub fn number(self) -> usize
        ensures { result ≡ fault_number self }
    {
        match self {
            Fault::TooLong => 1,
            Fault::NotUtf8(_) => 2,
            Fault::NotJson(_) => 3,
            Fault::BadString(_) => 4,
            Fault::BadNumber(_) => 5,
            Fault::SameKeys(_) => 6,
        }
    }

    // Its offset in the text, 0 where the text is too long.
    pub fn place(self) -> usize
        ensures { result ≡ fault_place self }
    {
        match self {
            Fault::TooLong => 0,
            Fault::NotUtf8(at) => at,
            Fault::NotJson(at) => at,
            Fault::BadString(at) => at,
            Fault::BadNumber(at) => at,
            Fault::SameKeys(at) => at,
        }
    }
}

// A text that is taken: the length of its canonical form, and whether it is that form itself.
#[derive(Clone, Copy)]
pub struct Accepted {
    pub length: usize,
    pub canonical: bool,
}

pub fn check(text: &[u8]) -> Result<Accepted, Fault>
    ensures { result ≡ checked text.now }
{
    let mut keys = [0u16; MOST_KEYS];
    let mut spare = [0u16; MOST_KEYS];
    let known = check_with(text, &mut keys, &mut spare);
    known.answer
}

// What checking answers, and how many keys the text's value has itself: 0 where it is no object or the text is refused. The keys are left sorted.
#[derive(Clone, Copy)]
pub struct CheckedWithKeys {
    pub answer: Result<Accepted, Fault>,
    pub count: usize,
}

// A refusal leaves no keys.
fn refusal(fault: Fault) -> CheckedWithKeys
    ensures { result ≡ refused_text fault }
{
    CheckedWithKeys {
        answer: Err(fault),
        count: 0,
    }
}

// Checks a text with the arrays that it is lent for the keys of its objects, so that the writer gets the keys that are left in them.
pub fn check_with(text: &[u8], keys: &mut [u16], spare: &mut [u16]) -> CheckedWithKeys
    requires { KeySpace keys.old spare.old }
    ensures answer_value { result.answer ≡ checked text.now }
    ensures root_keys { RootKeys text.now result.answer result.count keys.new }
{
    if MOST_BYTES < text.len() {
        return refusal(Fault::TooLong);
    }
    match text_utf8::check(text) {
        Ok(()) => check_json(text, keys, spare),
        Err(at) => refusal(Fault::NotUtf8(at)),
    }
}

fn check_json(text: &[u8], keys: &mut [u16], spare: &mut [u16]) -> CheckedWithKeys
    requires { (length text.now ≤ 16384) × KeySpace keys.old spare.old }
    ensures answer_value { result.answer ≡ by_tree text.now (read_text 8 text.now) }
    ensures root_keys { RootKeys text.now result.answer result.count keys.new }
{
    let f = match text_scan::text(text, keys, spare) {
        Ok(f) => f,
        Err(at) => return refusal(Fault::NotJson(at)),
    };
    let sum = f.sum;
    let canonical = is_form(text.len(), sum);
    let answer = by_faults(text.len(), sum, canonical);
    with_count(answer, f.count)
}

// A text of that length is as long as its form, and the keys of every object are in rising order.
fn is_form(len: usize, sum: text_tokens::Summary) -> bool
    ensures { (t : Syntax) → sum ≡ summary t → result ≡ is_form len t }
{
    if sum.size != len {
        return false;
    }
    sum.ordered
}

// The first fault of a text of that length, or the length of its canonical form.
fn by_faults(len: usize, sum: text_tokens::Summary, canonical: bool) -> Result<Accepted, Fault>
    ensures { (t : Syntax) → sum ≡ summary t → result ≡ by_faults len canonical t }
{
    if 0 < sum.string {
        return Err(Fault::BadString(offset(len, sum.string)));
    }
    if 0 < sum.number {
        return Err(Fault::BadNumber(offset(len, sum.number)));
    }
    if 0 < sum.key {
        return Err(Fault::SameKeys(offset(len, sum.key)));
    }
    Ok(Accepted {
        length: sum.size,
        canonical,
    })
}

// The answer, with the number of keys where the text is taken.
fn with_count(answer: Result<Accepted, Fault>, count: usize) -> CheckedWithKeys
    ensures { result ≡ with_count answer count }
{
    match answer {
        Ok(_) => CheckedWithKeys { answer, count },
        Err(fault) => refusal(fault),
    }
}

// The offset of the place from which on so many bytes of the text are left.
fn offset(len: usize, left: usize) -> usize
    ensures { result ≡ len - left }
{
    if left <= len { len - left } else { 0 }
}

// Writes the canonical form of a text at the start of `out`. Where it refuses, and past the form, `out` stays as it was.
pub fn canonical(text: &[u8], out: &mut [u8]) -> TextAnswer
    ensures number_value { result.number ≡ canonical_number text.now (length out.old) }
    ensures value_value { result.value ≡ canonical_length text.now (length out.old) }
    ensures out_after { out.new ≡ canonical_bytes text.now out.old }
    ensures place_value { result.place ≡ text_place text.now }
{
    let mut keys = [0u16; MOST_KEYS];
    let mut spare = [0u16; MOST_KEYS];
    canonical_with(text, out, &mut keys, &mut spare)
}

// The same with the arrays that it is lent, so that a caller that needs them again makes them once; what they hold is overwritten.
pub fn canonical_with(
    text: &[u8],
    out: &mut [u8],
    keys: &mut [u16],
    spare: &mut [u16],
) -> TextAnswer
    requires { KeySpace keys.old spare.old }
    ensures number_value { result.number ≡ canonical_number text.now (length out.old) }
    ensures value_value { result.value ≡ canonical_length text.now (length out.old) }
    ensures out_after { out.new ≡ canonical_bytes text.now out.old }
    ensures place_value { result.place ≡ text_place text.now }
{
    let known = check_with(text, keys, spare);
    let answer = known.answer;
    match answer {
        Err(fault) => answer::refused_at(out, fault.number(), fault.place()),
        Ok(accepted) => {
            if out.len() < accepted.length {
                return answer::refused_at(out, 20, 0);
            }
            write_form(text, known.count, out, keys, spare)
        }
    }
}

// Writes the form of a text that is taken, with the keys that checking it left.
fn write_form(
    text: &[u8],
    count: usize,
    out: &mut [u8],
    keys: &mut [u16],
    spare: &mut [u16],
) -> TextAnswer
    requires { FormReady text.now count out.old keys.old spare.old }
    ensures number_value { (result.number ≡ 0) × (result.value ≡ length (form text.now)) × (result.place ≡ 0) }
    ensures out_after { out.new ≡ form text.now ++ drop (length (form text.now)) out.old }
{
    let at = text_view::value::root(text);
    let value = write_value(text, at, count, out, keys, spare);
    TextAnswer {
        number: 0,
        value,
        place: 0,
    }
}

// The value of the text, by the writer.
fn write_value(
    text: &[u8],
    at: usize,
    count: usize,
    out: &mut [u8],
    keys: &mut [u16],
    spare: &mut [u16],
) -> usize
    requires { WritableRoot text.now at count out.old keys.old spare.old }
    ensures { WritesValue text.now at 8 out.old out.new result }
{
    text_canonical::write_root(text, at, count, out, keys, spare)
}

// The text is taken and is its own canonical form.
pub fn is_canonical(text: &[u8]) -> bool
    ensures { result ≡ is_canonical text.now }
{
    match check(text) {
        Ok(accepted) => accepted.canonical,
        Err(_) => false,
    }
}
