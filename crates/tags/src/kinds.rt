// An item by its class, context or application, once its tag octet and number are read.
ghost use Rattle.std.specs.Prelude.{◌≡◌, ◌/◌, ◌≤◌, ◌<◌};
ghost use Rattle.octets.specs.Refusal.{number_of};
ghost use Rattle.tags.specs.Head.{tag_of};
ghost use Rattle.tags.specs.Head.Tag.{Refused};
ghost use Rattle.tags.specs.Tagged.{Tagged};
ghost use Rattle.tags.specs.Reading.{head_at, context_at, application_at};

use crate::contents::by_type;
use crate::fields::{length, number};
use crate::{Class, Tag};
use octets::Refusal;

// The application item whose tag octet b stands at the place.
pub fn application_head(s: &[u8], at: usize, b: u8) -> Result<Tag, Refusal>
    requires { Tagged s.now at b 0 }
    ensures { tag_of result ≡ head_at s.now at }
{
    let n = b / 16;
    let l = b % 8;
    if 12 < n {
        return Err(above_twelve(s, at, b));
    }
    if 5 < l {
        return Err(Refusal::NotShortest);
    }
    if n == 1 {
        return boolean(s, at, b);
    }
    application(s, l, n, at + 1)
}

// The boolean whose tag octet b stands at the place: its value is in the length bits, and it has no contents.
fn boolean(s: &[u8], at: usize, b: u8) -> Result<Tag, Refusal>
    requires { Tagged s.now at b 0 × (b / 16 ≡ 1) }
    ensures { tag_of result ≡ head_at s.now at }
{
    if 1 < b % 8 {
        return Err(Refusal::NotShortest);
    }
    Ok(Tag::Item {
        class: Class::Application,
        number: 1,
        value: b % 8,
        place: at + 1,
        len: 0,
    })
}

// What an application tag with a number above 12 in its tag octet b breaks. At 15 the second octet is reached.
fn above_twelve(s: &[u8], at: usize, b: u8) -> Refusal
    requires { Tagged s.now at b 0 × (12 < b / 16) }
    ensures { Refused (number_of result) ≡ head_at s.now at }
{
    if b / 16 < 15 {
        return Refusal::TagNumber;
    }
    if 5 < b % 8 {
        return Refusal::NotShortest;
    }
    if s.len() <= at + 1 {
        return Refusal::ItemEndsEarly;
    }
    Refusal::TagNumber
}

// The context item whose tag octet b stands at the place.
pub fn context_head(s: &[u8], at: usize, b: u8) -> Result<Tag, Refusal>
    requires { Tagged s.now at b 1 }
    ensures { tag_of result ≡ head_at s.now at }
{
    let f = number(s, at)?;
    context(s, b % 8, f.value as u8, f.next)
}

// The context item of number n with l in the tag octet's length bits; p is the place after the number.
#[tactic(auto, using(octets::specs::Rules::tests), unfolding(crate::specs::Reading::context_at))]
fn context(s: &[u8], l: u8, n: u8, p: usize) -> Result<Tag, Refusal>
    ensures { tag_of result ≡ context_at s.now l n p }
{
    match l {
        6 => Ok(Tag::Opening {
            number: n,
            place: p,
        }),
        7 => Ok(Tag::Closing {
            number: n,
            place: p,
        }),
        _ => {
            let f = length(s, p, l)?;
            if s.len() < f.next || s.len() - f.next < f.value {
                return Err(Refusal::ItemEndsEarly);
            }
            Ok(Tag::Item {
                class: Class::Context,
                number: n,
                value: 0,
                place: f.next,
                len: f.value,
            })
        }
    }
}

// The application item of type n that is no boolean, likewise.
fn application(s: &[u8], l: u8, n: u8, p: usize) -> Result<Tag, Refusal>
    requires { (n ≤ 12) × (n ≡ 1 → ⊥) }
    ensures { tag_of result ≡ application_at s.now l n p }
{
    let f = length(s, p, l)?;
    by_type(s, f.next, n, f.value)?;
    Ok(Tag::Item {
        class: Class::Application,
        number: n,
        value: 0,
        place: f.next,
        len: f.value,
    })
}
