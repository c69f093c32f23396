// What the layouts share: one part after another is read at a moving place, where the tags are known to be good.
// A part answers what it read and the place after its item, or the number of the refusal.
ghost use Rattle.std.specs.Prelude.{◌≡◌, ◌+◌, ◌≤◌, length};
ghost use Rattle.octets.specs.Refusal.{numbered, fault_of};
ghost use Rattle.tags.specs.Head.{kind_of};
ghost use Rattle.tags.specs.Reading.{head_at};
ghost use Rattle.items.specs.Records.{rec};
ghost use Rattle.services.specs.Parts.{present, wanted, number_rule, number_of, context_object, group, last};
ghost use Rattle.services.specs.Reading.{device_rule};
ghost use Rattle.services.specs.Places.{found_in, Answers, Presence, Says, Topped, optional_part, OptionalTopped};

use crate::{Service, Span};
use octets::Refusal;
use tags::{Class, Tag};

// The contents of the item at a place, where it is of this class and number.
fn wanted(s: &[u8], at: usize, class: Class, number: u8) -> Option<Span>
    ensures { result ≡ found_in (kind_of class) number (head_at s.now at) }
{
    let Ok(t) = tags::head(s, at) else {
        return None;
    };
    let Tag::Item {
        class: k,
        number: n,
        place,
        len,
        ..
    } = t
    else {
        return None;
    };
    if k.kind() != class.kind() || n != number {
        return None;
    }
    Some(Span { at: place, len })
}

// What the contents c break as a number from low to high.
fn number_rule(s: &[u8], c: Span, low: u32, high: u32) -> Result<(), Refusal>
    requires { c.at + c.len ≤ length s.now }
    ensures { fault_of result ≡ number_rule s.now low high (rec 0 0 0 0 c.at c.len) }
{
    if c.len == 0 || 4 < c.len || octets::long_form(s[c.at], c.len) {
        return Err(Refusal::ParameterRange);
    }
    let v = octets::value(s, c.at, c.len);
    if v < low || high < v {
        return Err(Refusal::ParameterRange);
    }
    Ok(())
}

// The wanted item as a number from low to high.
pub fn number(
    s: &[u8],
    at: usize,
    class: Class,
    number: u8,
    low: u32,
    high: u32,
) -> Result<(u32, usize), Refusal>
    ensures { Says s.now at (wanted (kind_of class) number (number_rule s.now low high) (number_of s.now)) (numbered result) × Topped high (numbered result) }
{
    let Some(c) = wanted(s, at, class, number) else {
        return Err(Refusal::ParameterMissing);
    };
    number_rule(s, c, low, high)?;
    Ok((octets::value(s, c.at, c.len), c.at + c.len))
}

// Context 0, an object: four octets.
pub fn object(s: &[u8], at: usize) -> Result<(u32, usize), Refusal>
    ensures { Says s.now at (context_object s.now 0) (numbered result) }
{
    let Some(c) = wanted(s, at, Class::Context, 0) else {
        return Err(Refusal::ParameterMissing);
    };
    if c.len != 4 {
        return Err(Refusal::ParameterRange);
    }
    Ok((octets::value(s, c.at, c.len), c.at + c.len))
}

// An application object of type 8.
pub fn device(s: &[u8], at: usize) -> Result<(u32, usize), Refusal>
    ensures { Says s.now at (wanted 0 12 (device_rule s.now) (number_of s.now)) (numbered result) }
{
    let Some(c) = wanted(s, at, Class::Application, 12) else {
        return Err(Refusal::ParameterMissing);
    };
    let v = octets::value(s, c.at, c.len);
    if v / 4194304 != 8 {
        return Err(Refusal::ParameterRange);
    }
    Ok((v, c.at + c.len))
}

// Whether an optional number is there.
pub fn present(s: &[u8], at: usize, number: u8) -> bool
    ensures { Presence s.now at number result }
{
    wanted(s, at, Class::Context, number).is_some()
}

// A context number that may be absent.
pub fn optional_number(
    s: &[u8],
    at: usize,
    number: u8,
    low: u32,
    high: u32,
) -> Result<(Option<u32>, usize), Refusal>
    ensures { Says s.now at (optional_part s.now number low high) (numbered result) × OptionalTopped high (numbered result) }
{
    if !present(s, at, number) {
        return Ok((None, at));
    }
    let (v, next) = self::number(s, at, Class::Context, number, low, high)?;
    Ok((Some(v), next))
}

// A group: the octets between its opening tag and its closing tag.
pub fn group(s: &[u8], at: usize, number: u8) -> Result<(Span, usize), Refusal>
    ensures { Says s.now at (group number) (numbered result) }
{
    let Ok(t) = tags::head(s, at) else {
        return Err(Refusal::ParameterMissing);
    };
    let Tag::Opening { number: n, place } = t else {
        return Err(Refusal::ParameterMissing);
    };
    if n != number {
        return Err(Refusal::ParameterMissing);
    }
    let to = items::whole_at(s, at)?;
    let value = Span {
        at: place,
        len: to - 1 - place,
    };
    Ok((value, to))
}

// 42: an item after the last.
pub fn last(s: &[u8], at: usize, v: Service) -> Result<Service, Refusal>
    ensures { Answers s.now at (last v) (numbered result) }
{
    if at < s.len() {
        return Err(Refusal::ItemAfterLast);
    }
    Ok(v)
}
