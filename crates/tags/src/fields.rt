// The number and the length of a tag, in the tag octet or after it.
ghost use Rattle.std.specs.Prelude.{◌≡◌};
ghost use Rattle.tags.specs.Head.{field_of};
ghost use Rattle.tags.specs.Reading.{number_at, two_at, four_at, length_at};

use crate::Field;
use octets::Refusal;

// The number: 0 to 14 in the tag octet, or 15 to 254 in the next.
#[tactic(auto, using(octets::specs::Rules::tests), unfolding(crate::specs::Reading::number_at))]
pub fn number(s: &[u8], at: usize) -> Result<Field, Refusal>
    ensures { field_of result ≡ number_at s.now at }
{
    if s.len() <= at {
        return Err(Refusal::ItemEndsEarly);
    }
    let n = s[at] / 16;
    if n < 15 {
        return Ok(Field {
            value: usize::from(n),
            next: at + 1,
        });
    }
    if s.len() <= at + 1 {
        return Err(Refusal::ItemEndsEarly);
    }
    match s[at + 1] {
        0..=14 | 255 => Err(Refusal::TagNumber),
        e => Ok(Field {
            value: usize::from(e),
            next: at + 2,
        }),
    }
}

// The length, where l stands in the tag octet: below 5 it is l; at 5 the octets at the place say it.
#[tactic(auto, using(octets::specs::Rules::tests), unfolding(crate::specs::Reading::length_at))]
pub fn length(s: &[u8], at: usize, l: u8) -> Result<Field, Refusal>
    ensures { field_of result ≡ length_at s.now at l }
{
    if l < 5 {
        return Ok(Field {
            value: usize::from(l),
            next: at,
        });
    }
    if s.len() <= at {
        return Err(Refusal::ItemEndsEarly);
    }
    match s[at] {
        0..=4 => Err(Refusal::NotShortest),
        254 => two(s, at + 1),
        255 => four(s, at + 1),
        e => Ok(Field {
            value: usize::from(e),
            next: at + 1,
        }),
    }
}

// A length of two octets.
#[tactic(auto, using(octets::specs::Rules::tests), unfolding(crate::specs::Reading::two_at))]
fn two(s: &[u8], at: usize) -> Result<Field, Refusal>
    ensures { field_of result ≡ two_at s.now at }
{
    if s.len() <= at || s.len() <= at + 1 {
        return Err(Refusal::ItemEndsEarly);
    }
    let value = usize::from(octets::pair(s[at], s[at + 1]));
    match value {
        0..=253 => Err(Refusal::NotShortest),
        254..=16384 => Ok(Field {
            value,
            next: at + 2,
        }),
        _ => Err(Refusal::ContentsLength),
    }
}

// A length of four octets: in no good item, since all that need four are over 16,384.
#[tactic(auto, using(octets::specs::Rules::tests), unfolding(crate::specs::Reading::four_at))]
fn four(s: &[u8], at: usize) -> Result<Field, Refusal>
    ensures { field_of result ≡ four_at s.now at }
{
    if s.len() <= at || s.len() - at < 4 {
        return Err(Refusal::ItemEndsEarly);
    }
    if octets::pair(s[at], s[at + 1]) == 0 {
        return Err(Refusal::NotShortest);
    }
    Err(Refusal::ContentsLength)
}
