// One tag item at a place: its number, class and length in their forms, and its contents judged.
#![tactic(auto)]

pub mod contents;
mod fields;
mod kinds;

ghost use Rattle.std.specs.Prelude.{◌≡◌};
ghost use Rattle.tags.specs.Head.{kind_of, tag_of};
ghost use Rattle.tags.specs.Reading.{head_at};

use octets::Refusal;

// A field of a tag: its value and the place after it.
#[derive(Clone, Copy)]
pub struct Field {
    pub value: usize,
    pub next: usize,
}

// The class of an item that is no opening and no closing.
#[derive(Clone, Copy, Debug, PartialEq, Eq)]
pub enum Class {
    Application = 0,
    Context = 1,
}

impl Class {
    // Its kind in an item's record.
    pub fn kind(self) -> u8
        ensures { result ≡ kind_of self }
    {
        self as u8
    }
}

// What stands at a place: an item with contents or a boolean, an opening or a closing. `place` is the octet after the tag.
#[derive(Clone, Copy)]
pub enum Tag {
    Item {
        class: Class,
        number: u8,
        value: u8,
        place: usize,
        len: usize,
    },
    Opening {
        number: u8,
        place: usize,
    },
    Closing {
        number: u8,
        place: usize,
    },
}

// The item at a place, its contents judged. "Octets are judged left to right."
pub fn head(s: &[u8], at: usize) -> Result<Tag, Refusal>
    ensures { tag_of result ≡ head_at s.now at }
{
    if s.len() <= at {
        return Err(Refusal::ItemEndsEarly);
    }
    let b = s[at];
    if b % 16 / 8 == 1 {
        return kinds::context_head(s, at, b);
    }
    kinds::application_head(s, at, b)
}
