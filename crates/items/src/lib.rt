// Tag items: listed, and read one by one.
#![tactic(auto)]

mod cycle;
mod records;

ghost use Rattle.std.specs.Prelude.{◌≡◌};
ghost use Rattle.items.specs.Answers.{run_of, tally_of, one_of};
ghost use Rattle.items.specs.Reading.{item_at, one_at, end_of};
ghost use Rattle.items.specs.Cycle.{Ran};
ghost use Rattle.items.specs.Listing.{Listed};
ghost use Rattle.items.specs.declared.Unlisted.TheVariants.{Refused};

use octets::Refusal;
use tags::Tag;

// Why items are not listed: their records do not fit, with the number of items; or a tag's refusal.
#[derive(Clone, Copy, Debug, PartialEq, Eq)]
pub enum Unlisted {
    Small(usize),
    Refused(Refusal),
}

impl From<Refusal> for Unlisted {
    ghost from_gives = { λ r u. u ≡ Refused r };

    fn from(r: Refusal) -> Unlisted {
        Unlisted::Refused(r)
    }
}

// Reads all items and puts their records where they fit.
fn run(s: &[u8], out: &mut [u8]) -> Result<usize, Refusal>
    ensures { Ran s.now out.old (run_of result) out.new }
{
    if 16384 < s.len() {
        return Err(Refusal::TooManyOctets);
    }
    Ok(cycle::read(s, 0, None, 0, 0, out)?.items)
}

// The number of items, and the record of each, 12 octets each, where there is room for all of them. Octets are lent for the records only when the
// last tag is judged, so that nothing is written where anything is refused.
pub fn list(s: &[u8], out: &mut [u8]) -> Result<usize, Unlisted>
    ensures { Listed s.now out.old (tally_of result) out.new }
{
    let n = run(s, &mut [])?;
    // No items: nothing is to be written, whatever the area.
    if n == 0 {
        return Ok(0);
    }
    if out.len() / 12 < n {
        return Err(Unlisted::Small(n));
    }
    Ok(run(s, out)?)
}

// The place after the item at a place, with its whole group where it opens one. 39: judged first.
pub fn item_at(s: &[u8], at: usize) -> Result<usize, Refusal>
    ensures { one_of result ≡ end_of (one_at s.now at) }
{
    if 16384 < s.len() {
        return Err(Refusal::TooManyOctets);
    }
    whole_at(s, at)
}

// The same for callers that have judged how many octets there are.
pub fn whole_at(s: &[u8], at: usize) -> Result<usize, Refusal>
    ensures { one_of result ≡ end_of (item_at s.now at) }
{
    match tags::head(s, at)? {
        Tag::Item { place, len, .. } => Ok(place + len),
        Tag::Opening { number, place } => {
            Ok(cycle::read(s, place, Some(number), 1, 1, &mut [])?.at)
        }
        Tag::Closing { .. } => Err(Refusal::StrayClosing),
    }
}
