// The link and the slots that octets hold, and whether they are a state.
ghost use Rattle.std.specs.Prelude.{◌≡◌, ◌+◌, ◌≤◌, ◌<◌, length, take, drop};
ghost use Rattle.collector.specs.Calls.{slot_count};
ghost use Rattle.state.specs.Link.{link_size, phase_good, link_good, phase_at, link_of};
ghost use Rattle.state.specs.Edition.{edition_good};
ghost use Rattle.state.specs.Slot.{address_size, address_at, slot_size, slot_good, slot_of};
ghost use Rattle.state.specs.Layout.{state_size};
ghost use Rattle.state.specs.Calls.{good_at, slots_good, state_good, slot_at};

use crate::{EDITION, LINK, SIZE, SLOT, slot_place};
use frames::{Link, Phase};
use npdu::Address;
use rebuild::{Key, Slot};

// A phase, and a count that it can have.
#[tactic(auto, using(octets::specs::Rules::tests), unfolding(crate::specs::Link::phase_good))]
fn phase_good(p: u8, high: u8, low: u8) -> bool
    ensures { result ≡ phase_good p high low }
{
    match p {
        0 | 1 => high == 0 && low == 0,
        2 => high == 0,
        3 => true,
        _ => false,
    }
}

// Whether octets are a link's.
#[tactic(auto, unfolding(crate::specs::Link::link_good))]
fn link_good(s: &[u8]) -> bool
    requires { length s.now ≡ link_size }
    ensures { result ≡ link_good s.now }
{
    phase_good(s[0], s[1], s[2])
}

// Whether an octet is an edition's.
#[tactic(auto, using(octets::specs::Rules::tests), unfolding(crate::specs::Edition::edition_good))]
fn edition_good(octet: u8) -> bool
    ensures { result ≡ edition_good octet }
{
    octet <= 1
}

// Whether octets are a slot's.
#[tactic(auto, using(octets::specs::Rules::tests), unfolding(crate::specs::Slot::slot_good))]
fn slot_good(s: &[u8]) -> bool
    requires { length s.now ≡ slot_size }
    ensures { result ≡ slot_good s.now }
{
    s[0] <= 1 && s[9] <= 1 && s[20] <= 1
}

// Slot i by itself.
fn good_at(o: &[u8; SIZE], i: usize) -> bool
    requires { i < slot_count }
    ensures { result ≡ good_at o.now i }
{
    let at = slot_place(i);
    slot_good(&o[at..at + SLOT])
}

// All of them.
pub fn slots_good(o: &[u8; SIZE]) -> bool
    ensures { result ≡ slots_good o.now 0 slot_count }
{
    good_at(o, 0) && good_at(o, 1) && good_at(o, 2) && good_at(o, 3)
}

// Whether octets are a state's.
pub fn state_good(o: &[u8; SIZE]) -> bool
    ensures { result ≡ state_good o.now }
{
    link_good(&o[..LINK]) && edition_good(o[EDITION]) && slots_good(o)
}

#[tactic(auto, using(octets::specs::Rules::tests), unfolding(crate::specs::Link::phase_at))]
fn phase_at(p: u8, high: u8, low: u8) -> Phase
    ensures { result ≡ phase_at p high low }
{
    match p {
        0 => Phase::Hunting,
        1 => Phase::Preamble,
        2 => Phase::Header(low),
        _ => Phase::Data(octets::pair(high, low)),
    }
}

pub fn head_of(s: &[u8]) -> [u8; 5]
    requires { length s.now ≡ link_size }
    ensures { result ≡ take 5 (drop 3 s.now) }
{
    let mut head = [0; 5];
    head.copy_from_slice(&s[3..8]);
    head
}

// The link that good octets hold.
pub fn link_of(s: &[u8]) -> Link
    requires { length s.now ≡ link_size }
    ensures { result ≡ link_of s.now }
{
    let head = head_of(s);
    Link {
        phase: phase_at(s[0], s[1], s[2]),
        head,
        first: s[8],
    }
}

// The address whose eleven octets begin at a place.
fn address_at(s: &[u8], at: usize) -> Address
    requires { at + address_size ≤ length s.now }
    ensures { result ≡ address_at s.now at }
{
    let mut octets = [0; 7];
    octets.copy_from_slice(&s[at + 4..at + 11]);
    Address {
        present: 0 < s[at],
        network: octets::pair(s[at + 1], s[at + 2]),
        length: s[at + 3],
        octets,
    }
}

// The slot that good octets hold.
fn slot_of(s: &[u8]) -> Slot
    requires { length s.now ≡ slot_size }
    ensures { result ≡ slot_of s.now }
{
    let from = address_at(s, 9);
    let to = address_at(s, 20);
    let key = Key {
        source: s[1],
        destination: s[2],
        kind: s[3],
        invoke: s[4],
        from,
        to,
    };
    Slot {
        used: 0 < s[0],
        key,
        next: s[5],
        choice: s[6],
        held: octets::pair(s[7], s[8]),
    }
}

// Slot i.
pub fn slot_at(o: &[u8], i: usize) -> Slot
    requires { (length o.now ≡ state_size) × (i < slot_count) }
    ensures { result ≡ slot_at o.now i }
{
    let at = slot_place(i);
    slot_of(&o[at..at + SLOT])
}
