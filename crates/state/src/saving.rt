// The octets of a state, laid into an area.
ghost use Rattle.std.specs.Prelude.{◌≡◌, ◌+◌, ◌≤◌, ◌<◌, length};
ghost use Rattle.octets.specs.Splice.{splice};
ghost use Rattle.collector.specs.Calls.{slot_count};
ghost use Rattle.state.specs.Link.{phase_octets, link_octets};
ghost use Rattle.state.specs.Edition.{edition_octet};
ghost use Rattle.state.specs.Slot.{address_size, number_octets, address_octets, front_octets, slot_octets};
ghost use Rattle.state.specs.Layout.{state_size, slots_place, slot_place, slots_octets, state_octets};

use crate::{EDITION, STORE, slot_place};
use apdu::Edition;
use collector::Collector;
use frames::{Link, Phase};
use npdu::Address;
use rebuild::{Slot, Slots};

// Phase and count.
fn phase_octets(p: Phase) -> [u8; 3]
    ensures { result ≡ phase_octets p }
{
    match p {
        Phase::Hunting => [0, 0, 0],
        Phase::Preamble => [1, 0, 0],
        Phase::Header(got) => [2, 0, got],
        Phase::Data(got) => {
            let [high, low] = got.to_be_bytes();
            [3, high, low]
        }
    }
}

fn edition_octet(edition: Edition) -> u8
    ensures { result ≡ edition_octet edition }
{
    match edition {
        Edition::First => 0,
        Edition::Later => 1,
    }
}

// Flag, key, number, choice and count: a slot's octets but for its addresses.
fn front_octets(x: Slot) -> [u8; 9]
    ensures { result ≡ front_octets x }
{
    let [high, low] = x.held.to_be_bytes();
    [
        u8::from(x.used),
        x.key.source,
        x.key.destination,
        x.key.kind,
        x.key.invoke,
        x.next,
        x.choice,
        high,
        low,
    ]
}

// Whether an address is there, its network number and its length.
fn number_octets(a: Address) -> [u8; 4]
    ensures { result ≡ number_octets a }
{
    let [high, low] = a.network.to_be_bytes();
    [u8::from(a.present), high, low, a.length]
}

// Phase, count, head and first check octet.
pub fn put_link(l: Link, area: &mut [u8])
    requires { length area.old ≡ state_size }
    ensures { area.new ≡ splice area.old 0 (link_octets l) }
{
    octets::copy(&phase_octets(l.phase), area, 0);
    octets::copy(&l.head, area, 3);
    octets::put(area, 8, l.first);
}

// An address at a place.
fn put_address(a: Address, area: &mut [u8], at: usize)
    requires { at + address_size ≤ length area.old }
    ensures { area.new ≡ splice area.old at (address_octets a) }
{
    octets::copy(&number_octets(a), area, at);
    octets::copy(&a.octets, area, at + 4);
}

// Slot i.
fn put_slot(x: Slot, area: &mut [u8], i: usize)
    requires { (length area.old ≡ state_size) × (i < slot_count) }
    ensures { area.new ≡ splice area.old (slot_place i) (slot_octets x) }
{
    let at = slot_place(i);
    octets::copy(&front_octets(x), area, at);
    put_address(x.key.from, area, at + 9);
    put_address(x.key.to, area, at + 20);
}

// All of them, one after the other.
pub fn put_slots(t: Slots, area: &mut [u8])
    requires { length area.old ≡ state_size }
    ensures { area.new ≡ splice area.old slots_place (slots_octets t.slots) }
{
    for (i, slot) in t.slots.iter().enumerate() {
        put_slot(*slot, area, i);
    }
}

// All of it.
pub fn put_state(c: Collector, area: &mut [u8])
    requires { length area.old ≡ state_size }
    ensures { area.new ≡ state_octets c }
{
    put_link(c.receiver.link, area);
    octets::copy(&c.receiver.store, area, STORE);
    octets::put(area, EDITION, edition_octet(c.edition));
    put_slots(c.slots, area);
}
