// One part of the header, destination or source: a network number, a length and an address.
ghost use Rattle.std.specs.Prelude.{◌≡◌, ◌+◌, ◌≤◌, length};
ghost use Rattle.npdu.specs.Reading.{OctetAt, address_of, part_net, part_of, part_if, part_seen};

use crate::Address;
use octets::Refusal;

// What a part may say: a length of at least low, a network number of at most top.
#[derive(Clone, Copy)]
pub struct Limits {
    pub low: u8,
    pub top: u16,
}

impl Limits {
    pub const DESTINATION: Limits = Limits { low: 0, top: 65535 };

    pub const SOURCE: Limits = Limits { low: 1, top: 65534 };
}

// What is read of a part: the place after it, and its address.
#[derive(Clone, Copy)]
pub struct Part {
    pub next: usize,
    pub address: Address,
}

// The octet at a place, where it is reached.
pub fn octet(s: &[u8], at: usize) -> Result<u8, Refusal>
    ensures { OctetAt s.now at result }
{
    s.get(at).copied().ok_or(Refusal::NpduEndsEarly)
}

// The n octets at a place, and 0 up to seven.
pub fn address(s: &[u8], at: usize, n: usize) -> [u8; 7]
    requires { (n ≤ 7) × (at + n ≤ length s.now) }
    ensures { result ≡ address_of s.now at n }
{
    let mut a = [0; 7];
    octets::copy(&s[at..at + n], &mut a, 0);
    a
}

// The part at a place whose network number was reached.
#[tactic(auto, using(octets::specs::Rules::tests), unfolding(crate::specs::Reading::part_len, crate::specs::Reading::part_net))]
fn part_net(s: &[u8], at: usize, network: u16, limits: Limits) -> Result<Part, Refusal>
    requires { at + 2 ≤ length s.now }
    ensures { part_seen result ≡ part_net s.now at network limits.low limits.top }
{
    if network == 0 || limits.top < network {
        return Err(Refusal::NetworkNumber);
    }
    let length = octet(s, at + 2)?;
    if length < limits.low || 7 < length {
        return Err(Refusal::AddressLength);
    }
    let next = at + 3 + usize::from(length);
    if s.len() < next {
        return Err(Refusal::NpduEndsEarly);
    }
    let octets = address(s, at + 3, usize::from(length));
    let address = Address {
        present: true,
        network,
        length,
        octets,
    };
    Ok(Part { next, address })
}

// The part at a place.
#[tactic(auto, using(octets::specs::Rules::tests), unfolding(crate::specs::Reading::part_of))]
fn part_at(s: &[u8], at: usize, limits: Limits) -> Result<Part, Refusal>
    requires { at ≤ length s.now }
    ensures { part_seen result ≡ part_of s.now at limits.low limits.top }
{
    let high = octet(s, at)?;
    let network = octets::pair(high, octet(s, at + 1)?);
    part_net(s, at, network, limits)
}

// The part at a place, if it is present.
#[tactic(auto, using(octets::specs::Rules::flags, octets::specs::Rules::tests), unfolding(crate::specs::Reading::part_if, crate::specs::Reading::no_part))]
pub fn part_if(s: &[u8], at: usize, here: bool, limits: Limits) -> Result<Part, Refusal>
    requires { at ≤ length s.now }
    ensures { part_seen result ≡ part_if s.now at here limits.low limits.top }
{
    if here {
        return part_at(s, at, limits);
    }
    Ok(Part {
        next: at,
        address: Address::NONE,
    })
}
