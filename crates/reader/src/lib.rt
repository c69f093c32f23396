// The reader value: for plant tools that go through a message's parameters item by item.
#![tactic(auto)]

ghost use Rattle.std.specs.Prelude.{◌≡◌};
ghost use Rattle.reader.specs.Answers.{answer_of};
ghost use Rattle.reader.specs.Reading.{step_of};

use octets::Refusal;
use tags::Tag;

// "carries the parameter octets and its own place". The functions over it are few and thin: `step_at` does their work on plain
// parameters.
#[derive(Clone, Copy)]
pub struct Reader<'a> {
    pub params: &'a [u8],
    pub at: usize,
}

// What stands at the reader's place: an item, a whole group, or the end. `place` is the octet after the tag, `next` the place after the
// item or after the group's closing.
// Stays: (d) a kind is the record's number (0 application, 1 context; a group's is 2): by `Class` its one caller, hb_item_step, turns it into that number again.
#[derive(Clone, Copy)]
pub enum Step {
    Item {
        kind: u8,
        number: u8,
        value: u8,
        place: usize,
        len: usize,
        next: usize,
    },
    Group {
        number: u8,
        place: usize,
        next: usize,
    },
    End,
}

// One item with its whole group, by the item reader. 39: judged first.
pub fn step_at(params: &[u8], at: usize) -> Result<Step, Refusal>
    ensures { answer_of result ≡ step_of params.now at }
{
    if 16384 < params.len() {
        return Err(Refusal::TooManyOctets);
    }
    if params.len() <= at {
        return Ok(Step::End);
    }
    match tags::head(params, at)? {
        Tag::Item {
            class,
            number,
            value,
            place,
            len,
        } => Ok(Step::Item {
            kind: class.kind(),
            number,
            value,
            place,
            len,
            next: place + len,
        }),
        Tag::Opening { number, place } => {
            let next = items::whole_at(params, at)?;
            Ok(Step::Group {
                number,
                place,
                next,
            })
        }
        Tag::Closing { .. } => Err(Refusal::StrayClosing),
    }
}

// Stays: (a) functions and no methods, by the names that docs/CALLS.md has.
// A reader at the first octet.
pub fn new<'a>(params: &'a [u8]) -> Reader<'a>
    ensures { (result.params ≡ params.entry) × (result.at ≡ 0) }
{
    Reader { params, at: 0 }
}

// The step at the reader's place.
pub fn next<'a>(r: Reader<'a>) -> Result<Step, Refusal>
    ensures { answer_of result ≡ step_of r.entry.params.now r.entry.at }
{
    step_at(r.params, r.at)
}

// The same octets at another place, as a step answers it.
pub fn moved<'a>(r: Reader<'a>, at: usize) -> Reader<'a>
    ensures { (result.params ≡ r.entry.params) × (result.at ≡ at) }
{
    Reader {
        params: r.params,
        at,
    }
}

// The step of a reader that was moved to a place: over plain parameters, so that its contract, and with it those of `new`, `moved` and
// `next`, can be cited.
pub fn step_from(params: &[u8], at: usize) -> Result<Step, Refusal>
    ensures { answer_of result ≡ step_of params.now at }
{
    next(moved(new(params), at))
}

// The first step of a new reader: so that the place where `new` begins is used too.
pub fn first(params: &[u8]) -> Result<Step, Refusal>
    ensures { answer_of result ≡ step_of params.now 0 }
{
    next(new(params))
}
