// An answer that is an enum, as its number and what it gives back.
ghost use Rattle.std.specs.Prelude.{◌≡◌};
ghost use Rattle.items.specs.Listing.{tally_number, tally_count};
ghost use Rattle.items.specs.Answers.{tally_of};
ghost use Rattle.octets.specs.Laid.{written_count};
ghost use Rattle.octets.specs.Refusal.{numbered};
ghost use Rattle.hitchbarley.specs.Answers.{written_number};

use items::Unlisted;
use octets::Refusal;

// A writer's.
pub fn written(w: Result<usize, Refusal>, wrote: &mut usize) -> u8
    ensures { (result ≡ written_number (numbered w)) × (wrote.new ≡ written_count (numbered w)) }
{
    match w {
        Ok(n) => {
            *wrote = n;
            0
        }
        Err(r) => {
            *wrote = 0;
            r.number()
        }
    }
}

// Listing's.
pub fn tallied(t: Result<usize, Unlisted>, count: &mut usize) -> u8
    ensures { (result ≡ tally_number (tally_of t)) × (count.new ≡ tally_count (tally_of t)) }
{
    match t {
        Ok(n) => {
            *count = n;
            0
        }
        Err(Unlisted::Small(n)) => {
            *count = n;
            Refusal::TooSmall.number()
        }
        Err(Unlisted::Refused(r)) => {
            *count = 0;
            r.number()
        }
    }
}
