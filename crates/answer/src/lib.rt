// What a call answers, and a refusal, which changes no byte of what it was lent.
#![tactic(auto)]

ghost use Rattle.std.specs.Prelude.{◌≡◌};

// The number of document 01's table, 0 where the call is done; and the call's first value, as the length of its output. A number and
// no enum, since C is given it.
#[derive(Clone, Copy)]
pub struct Answer {
    pub number: usize,
    pub value: usize,
}

// The same of a call that checks a text: with the offset of the text's fault where the number is one of 2 to 6, and else 0.
#[derive(Clone, Copy)]
pub struct TextAnswer {
    pub number: usize,
    pub value: usize,
    pub place: usize,
}

// A refusal that tells a value; the buffer is as it was.
pub fn refused_with(buffer: &mut [u8], number: usize, value: usize) -> Answer
    ensures number_value { (result.number ≡ number) × (result.value ≡ value) }
    ensures buffer_unchanged { buffer.new ≡ buffer.old }
{
    Answer { number, value }
}

// A refusal of a text that tells where the fault is; the buffer is as it was.
pub fn refused_at(buffer: &mut [u8], number: usize, place: usize) -> TextAnswer
    ensures number_value { (result.number ≡ number) × (result.value ≡ 0) × (result.place ≡ place) }
    ensures buffer_unchanged { buffer.new ≡ buffer.old }
{
    TextAnswer {
        number,
        value: 0,
        place,
    }
}

// Any other refusal: every number but its own is 0, and the buffer is as it was.
pub fn refused(buffer: &mut [u8], number: usize) -> Answer
    ensures number_value { (result.number ≡ number) × (result.value ≡ 0) }
    ensures buffer_unchanged { buffer.new ≡ buffer.old }
{
    refused_with(buffer, number, 0)
}

// An answer that tells of no fault of a text: the same number and value, and 0 for the offset.
pub fn without_place(answer: Answer) -> TextAnswer
    ensures { (result.number ≡ answer.number) × (result.value ≡ answer.value) × (result.place ≡ 0) }
{
    TextAnswer {
        number: answer.number,
        value: answer.value,
        place: 0,
    }
}
