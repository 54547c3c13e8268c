// The values of a JSON text in place: a position stands for the value whose first byte it is, and a cursor for what is left of an
// array or an object. The text was checked before; it need not be canonical.
#![tactic(auto)]

ghost use Rattle.std.specs.Prelude.{◌≡◌, true, false, ℕ, ◌-◌};
ghost use Rattle.text_content.specs.Value.{Values, no_values, Fields, no_fields, array, object};
ghost use Rattle.text_view.specs.Place.{ValueAt, EndsAt};
ghost use Rattle.text_view.specs.Listed.{ListEndsAt};
ghost use Rattle.text_view.specs.Cursor.{SomeArray, SomeElements, ElementsLeft, GivesElement, SomeObject, SomeMembers, MembersLeft, GivesMember};
ghost use Rattle.text_view.specs.Cursor.{GivesHead, FirstMember, NextMember, SomeMemberEnd};

// What a value is; a boolean is told apart already.
#[derive(Clone, Copy)]
pub enum Kind {
    Null,
    Boolean(bool),
    Number,
    String,
    Array,
    Object,
}

// A whole number: its sign and its distance from 0.
#[derive(Clone, Copy)]
pub struct Whole {
    pub negative: bool,
    pub magnitude: u32,
}

pub mod value;

// The elements of an array that are left: they stand from `at` on, each nested at most `depth` deep.
#[derive(Clone, Copy)]
pub struct Elements {
    pub at: usize,
    pub depth: usize,
}

impl Elements {
    // The elements of the array at `at`, which is nested at most `depth` deep.
    pub fn new(s: &[u8], at: usize, depth: usize) -> Self
        requires { SomeArray s.now at depth }
        ensures elements_left { (vs : Values) → ValueAt s.now at depth (array vs) → ElementsLeft s.now result vs }
        ensures depth_value { result.depth ≡ depth - 1 }
        ensures by_index { (e : ℕ) → ListEndsAt s.now result.at result.depth false e → EndsAt s.now at depth e }
    {
        Elements {
            at: at + 1,
            depth: depth - 1,
        }
    }

    // The next element's position with what is left after it, if an element is left.
    pub fn next(self, s: &[u8]) -> Option<(usize, Elements)>
        requires { SomeElements s.now self }
        ensures { (vs : Values) → ElementsLeft s.now self vs → GivesElement s.now self vs result }
    {
        match value::read_item(s, self.at, self.depth, false) {
            value::Item::At { value, next, .. } => Some((value, Elements { at: next, ..self })),
            value::Item::End(_) => None,
        }
    }

    // The position after the array, of which no element is left.
    pub fn end(self, s: &[u8]) -> usize
        requires { ElementsLeft s.now self no_values }
        ensures { ListEndsAt s.now self.at self.depth false result }
    {
        value::list_end(s, self.at)
    }
}

// The members of an object that are left, likewise.
#[derive(Clone, Copy)]
pub struct Members {
    pub at: usize,
    pub depth: usize,
}

// A member, by the position of its key's quotation mark and that of its value, with what is left after it.
#[derive(Clone, Copy)]
pub struct Member {
    pub key: usize,
    pub value: usize,
    pub rest: Members,
}

// A member without what is left after it.
#[derive(Clone, Copy)]
pub struct Head {
    pub key: usize,
    pub value: usize,
}

impl Members {
    // The members of the object at `at`, which is nested at most `depth` deep.
    pub fn new(s: &[u8], at: usize, depth: usize) -> Self
        requires { SomeObject s.now at depth }
        ensures members_left { (fs : Fields) → ValueAt s.now at depth (object fs) → MembersLeft s.now result fs }
        ensures depth_value { result.depth ≡ depth - 1 }
        ensures by_index { (e : ℕ) → ListEndsAt s.now result.at result.depth true e → EndsAt s.now at depth e }
    {
        Members {
            at: at + 1,
            depth: depth - 1,
        }
    }

    // What stands next, if a member is left; looking for it does not pass its value.
    pub fn first(self, s: &[u8]) -> Option<Head>
        requires { SomeMembers s.now self }
        ensures { (fs : Fields) → MembersLeft s.now self fs → GivesHead s.now self fs result }
    {
        let value::Peek { first, value } = value::peek_item(s, self.at, self.depth, true)?;
        Some(Head { key: first, value })
    }

    // What is left after the first member, whose value ends at `end`: who has read the value need not pass it again.
    pub fn after(self, s: &[u8], end: usize) -> Members
        requires { SomeMemberEnd s.now self end }
        ensures { (fs : Fields) (p q : ℕ) → MembersLeft s.now self fs → FirstMember s.now self fs p q
            → EndsAt s.now q self.depth end → NextMember s.now self fs p q result }
    {
        Members {
            at: value::after_value(s, end),
            ..self
        }
    }

    // The position after the object, of which no member is left.
    pub fn end(self, s: &[u8]) -> usize
        requires { MembersLeft s.now self no_fields }
        ensures { ListEndsAt s.now self.at self.depth true result }
    {
        value::list_end(s, self.at)
    }

    // The next member, if one is left.
    pub fn next(self, s: &[u8]) -> Option<Member>
        requires { SomeMembers s.now self }
        ensures { (fs : Fields) → MembersLeft s.now self fs → GivesMember s.now self fs result }
    {
        match value::read_item(s, self.at, self.depth, true) {
            value::Item::At { first, value, next } => Some(Member {
                key: first,
                value,
                rest: Members { at: next, ..self },
            }),
            value::Item::End(_) => None,
        }
    }
}
