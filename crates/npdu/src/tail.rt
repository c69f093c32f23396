// The header's end: hop count, message type and vendor.
ghost use Rattle.std.specs.Prelude.{◌≡◌, ◌≤◌, length};
ghost use Rattle.npdu.specs.Reading.{vendor_at, message_at, tail_at, tail_seen};

use crate::part::octet;
use octets::Refusal;

// What is read of the end: the place after the header and its fields, 0 where they are absent.
#[derive(Clone, Copy)]
pub struct Tail {
    pub next: usize,
    pub hops: u8,
    pub kind: u8,
    pub vendor: u16,
}

// What follows a message's type: from type 80 hex a vendor.
#[tactic(auto, using(octets::specs::Rules::tests), unfolding(crate::specs::Reading::vendor_at))]
fn vendor(s: &[u8], at: usize, hops: u8, kind: u8) -> Result<Tail, Refusal>
    requires { at ≤ length s.now }
    ensures { tail_seen result ≡ vendor_at s.now at hops kind }
{
    if kind < 128 {
        return Ok(Tail {
            next: at,
            hops,
            kind,
            vendor: 0,
        });
    }
    let high = octet(s, at)?;
    let vendor = octets::pair(high, octet(s, at + 1)?);
    Ok(Tail {
        next: at + 2,
        hops,
        kind,
        vendor,
    })
}

// What follows the hop count: for a network message its type.
#[tactic(auto, using(octets::specs::Rules::flags, octets::specs::Rules::tests), unfolding(crate::specs::Reading::message_at))]
fn message(s: &[u8], at: usize, hops: u8, here: bool) -> Result<Tail, Refusal>
    requires { at ≤ length s.now }
    ensures { tail_seen result ≡ message_at s.now at hops here }
{
    if here {
        return vendor(s, at + 1, hops, octet(s, at)?);
    }
    Ok(Tail {
        next: at,
        hops,
        kind: 0,
        vendor: 0,
    })
}

// What follows the two parts: a hop count where there is a destination.
#[tactic(auto, using(octets::specs::Rules::flags, octets::specs::Rules::tests), unfolding(crate::specs::Reading::tail_at))]
pub fn tail_at(s: &[u8], at: usize, dest: bool, here: bool) -> Result<Tail, Refusal>
    requires { at ≤ length s.now }
    ensures { tail_seen result ≡ tail_at s.now at dest here }
{
    if dest {
        return message(s, at + 1, octet(s, at)?, here);
    }
    message(s, at, 0, here)
}
