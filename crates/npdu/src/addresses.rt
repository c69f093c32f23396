// A header's source and destination as values: taken from a header, compared, and judged by a header's rules.
ghost use Rattle.std.specs.Prelude.{◌≡◌, true, ◌≤◌};
ghost use Rattle.npdu.specs.Address.{part_address, source_of, destination_of, same_address, settled, gives, gives_source, gives_destination};

use crate::part::Limits;
use crate::{Address, Npdu};

// The address of a part, or none where the part is absent.
#[tactic(auto, using(octets::specs::Rules::flags), unfolding(crate::specs::Address::part_address, crate::specs::Address::absent))]
fn of_part(present: bool, network: u16, length: u8, octets: [u8; 7]) -> Address
    ensures { result ≡ part_address present network length octets }
{
    if !present {
        return Address::NONE;
    }
    Address {
        present,
        network,
        length,
        octets,
    }
}

// The source of a header.
#[tactic(auto, unfolding(crate::specs::Address::source_of))]
pub fn source_of(h: Npdu) -> Address
    ensures { result ≡ source_of h }
{
    of_part(h.source, h.snet, h.slen, h.sadr)
}

// The destination of a header.
#[tactic(auto, unfolding(crate::specs::Address::destination_of))]
pub fn destination_of(h: Npdu) -> Address
    ensures { result ≡ destination_of h }
{
    of_part(h.dest, h.dnet, h.dlen, h.dadr)
}

// Whether two addresses are the same. No address is the same as none, and as no other.
#[tactic(auto, using(crate::proofs::AddressLaws::same_address_is))]
pub fn same_address(a: Address, b: Address) -> bool
    ensures { result ≡ same_address a b }
{
    a == b
}

// Whether the octets past the length, and all fields of an absent address, are 0.
#[tactic(auto, unfolding(crate::specs::Address::settled, crate::specs::Reading::address_of))]
fn is_settled(a: Address) -> bool
    requires { a.present ≡ true → a.length ≤ 7 }
    ensures { result ≡ settled a }
{
    if a.present {
        return crate::part::address(&a.octets, 0, usize::from(a.length)) == a.octets;
    }
    same_address(Address::NONE, a)
}

// Whether a part of these limits gives the address.
#[tactic(auto, using(octets::specs::Rules::tests), unfolding(crate::specs::Address::gives))]
fn part_gives(a: Address, limits: Limits) -> bool
    ensures { result ≡ gives limits.low limits.top a }
{
    crate::fault::judge_part(a, limits).is_ok() && is_settled(a)
}

// Whether a header that keeps the rules gives the address as its source.
#[tactic(auto, unfolding(crate::specs::Address::gives_source))]
pub fn gives_source(a: Address) -> bool
    ensures { result ≡ gives_source a }
{
    part_gives(a, Limits::SOURCE)
}

// Whether a header that keeps the rules gives the address as its destination.
#[tactic(auto, unfolding(crate::specs::Address::gives_destination))]
pub fn gives_destination(a: Address) -> bool
    ensures { result ≡ gives_destination a }
{
    part_gives(a, Limits::DESTINATION)
}
