// A state as octets of a lent area: its edition, link and slots lifted from there, link and slots laid back, its frame store left in place; a whole state saved there.
#![tactic(auto)]

mod judging;
mod loading;
mod saving;

ghost use Rattle.std.specs.Prelude.{◌≡◌, ◌<◌, length};
ghost use Rattle.collector.specs.Calls.{slot_count};
ghost use Rattle.octets.specs.Refusal.{fault_of};
ghost use Rattle.state.specs.Link.{link_size, link_octets, link_of};
ghost use Rattle.state.specs.Edition.{edition_of};
ghost use Rattle.state.specs.Layout.{slot_place, state_size, link_part};
ghost use Rattle.state.specs.Calls.{state_at, OfSize, judge_of, Stands, silence_of, lift_of, lifted_of, Lays, LaysSlots, LaysBoth, Saves};

use apdu::Edition;
use collector::Collector;
use frames::Link;
use octets::Refusal;
use rebuild::Slots;

// The octets of a link, in front; where the frame store stands and ends; the edition's place; where the slots stand, and the octets of each; the octets of a state.
pub const LINK: usize = 9;

pub const STORE: usize = LINK;

pub const STORE_END: usize = STORE + 501;

pub const EDITION: usize = STORE_END;

pub const SLOTS: usize = EDITION + 1;

pub const SLOT: usize = 31;

pub const SIZE: usize = SLOTS + SLOT * 4;

// Where slot i stands, counted from 0.
fn slot_place(i: usize) -> usize
    requires { i < slot_count }
    ensures { result ≡ slot_place i }
{
    SLOTS + SLOT * i
}

// The edition that an octet says: 0 is 1995, any other the later one.
#[tactic(auto, using(octets::specs::Rules::tests), unfolding(crate::specs::Edition::edition_of))]
pub fn edition_of(octet: u8) -> Edition
    ensures { result ≡ edition_of octet }
{
    if octet == 0 {
        Edition::First
    } else {
        Edition::Later
    }
}

// The octets of an area of a state's size, or 60.
fn sized(area: &[u8]) -> Result<&[u8; SIZE], Refusal>
    ensures { OfSize area.now result }
{
    area.as_array().ok_or(Refusal::AreaSize)
}

// 60; 59 for octets that are no state's or a state that 59 does not pass. Judged on the octets where they stand, the quick tests first.
#[inline(always)]
pub fn judge(area: &[u8]) -> Result<(), Refusal>
    ensures { fault_of result ≡ judge_of area.now }
{
    let o = sized(area)?;
    if !judging::link_fair(o) || 1 < o[EDITION] || !judging::slots_pass(o) {
        return Err(Refusal::UnfitState);
    }
    Ok(())
}

// The same judgement for a silence, and the link; store and slots stay in their place in the area.
pub fn still(area: &[u8]) -> Result<Link, Refusal>
    ensures { Stands area.now (silence_of result) }
{
    judge(area)?;
    Ok(loading::link_of(&area[..LINK]))
}

// The head of the frame that a state's octets hold.
// Stays: (a) that the octets are as many as a state's is asked here and of `slots_at`: hitchbarley lends slices, judged before, and a public function takes no narrower type.
pub fn head_at(area: &[u8]) -> [u8; 5]
    requires { length area.now ≡ state_size }
    ensures { result ≡ (link_of (link_part area.now)).head }
{
    loading::head_of(&area[..LINK])
}

// The slots that a state's octets hold.
pub fn slots_at(area: &[u8]) -> Slots
    requires { length area.now ≡ state_size }
    ensures { result ≡ (state_at area.now).slots }
{
    Slots {
        slots: [
            loading::slot_at(area, 0),
            loading::slot_at(area, 1),
            loading::slot_at(area, 2),
            loading::slot_at(area, 3),
        ],
    }
}

// What an area's octets hold beside the frame store, which stays in its place.
#[derive(Clone, Copy)]
pub struct Lifted {
    pub edition: Edition,
    pub link: Link,
    pub slots: Slots,
}

// The edition, the link and the slots that an area's octets hold; 60, or 59 for octets that are no state's.
pub fn lift(area: &[u8]) -> Result<Lifted, Refusal>
    ensures { lifted_of result ≡ lift_of area.now }
{
    let o = sized(area)?;
    if !loading::state_good(o) {
        return Err(Refusal::UnfitState);
    }
    let edition = edition_of(o[EDITION]);
    let link = loading::link_of(&o[..LINK]);
    let slots = slots_at(o);
    Ok(Lifted {
        edition,
        link,
        slots,
    })
}

// A link laid over the one in an area of a state's size; 60 and nothing changes in any other.
pub fn lay_link(link: Link, area: &mut [u8]) -> Result<(), Refusal>
    ensures { Lays 0 link_size (link_octets link) area.old (fault_of result) area.new }
{
    sized(area)?;
    saving::put_link(link, area);
    Ok(())
}

// Slots laid over those in an area of a state's size; 60 and nothing changes in any other.
pub fn lay_slots(slots: Slots, area: &mut [u8]) -> Result<(), Refusal>
    ensures { LaysSlots slots area.old (fault_of result) area.new }
{
    sized(area)?;
    saving::put_slots(slots, area);
    Ok(())
}

// A link and slots laid one after the other.
pub fn lay(link: Link, slots: Slots, area: &mut [u8]) -> Result<(), Refusal>
    ensures { LaysBoth link slots area.old (fault_of result) area.new }
{
    lay_link(link, area)?;
    lay_slots(slots, area)
}

// The state's octets into an area of its size; 60 and nothing changes in any other.
pub fn save(c: Collector, area: &mut [u8]) -> Result<(), Refusal>
    ensures { Saves c area.old (fault_of result) area.new }
{
    sized(area)?;
    saving::put_state(c, area);
    Ok(())
}
