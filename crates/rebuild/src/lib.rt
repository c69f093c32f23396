// Rebuilding: four slots by value, and the message area that a caller lends.
#![tactic(auto)]

mod rows;
pub mod search;

ghost use Rattle.std.specs.Prelude.{◌≡◌};
ghost use Rattle.messages.specs.Sound.{passes};
ghost use Rattle.rebuild.specs.View.{keys, view, fresh};
ghost use Rattle.rebuild.specs.Calls.{Gives, taking, taken_of, Forgets, forgot_of};

use npdu::Address;
use octets::Refusal;

// The key: MS/TP source, MS/TP destination, PDU type, invoke ID, and where the network header says that it comes from (SNET, SADR) and goes to (DNET, DADR).
#[repr(C)]
#[derive(Clone, Copy, PartialEq, Eq)]
pub struct Key {
    pub source: u8,
    pub destination: u8,
    pub kind: u8,
    pub invoke: u8,
    pub from: Address,
    pub to: Address,
}

// A slot's record: the number that must come next, the service choice, the octets held. A free slot is all zero.
// Stays: (a) a flag beside its values: a state area's free slot may hold any octets, and they stay as they are (state/Judging `slot_fair`, state/Layout `slots_octets`).
#[repr(C)]
#[derive(Clone, Copy)]
pub struct Slot {
    pub used: bool,
    pub key: Key,
    pub next: u8,
    pub choice: u8,
    pub held: u16,
}

impl Slot {
    pub const FREE: Slot = Slot {
        used: false,
        key: Key {
            source: 0,
            destination: 0,
            kind: 0,
            invoke: 0,
            from: Address::NONE,
            to: Address::NONE,
        },
        next: 0,
        choice: 0,
        held: 0,
    };
}

#[repr(C)]
#[derive(Clone, Copy)]
pub struct Slots {
    pub slots: [Slot; 4],
}

impl Slots {
    // All four free.
    pub const FREE: Slots = Slots {
        slots: [Slot::FREE; 4],
    };

    pub fn fresh() -> Slots
        ensures { result ≡ fresh }
    {
        Slots::FREE
    }
}

// A segment but for its parameters.
#[derive(Clone, Copy)]
pub struct Segment {
    pub key: Key,
    pub number: u8,
    pub mor: bool,
    pub choice: u8,
}

// Held in a slot, or complete there, with the octets so far.
#[derive(Clone, Copy)]
pub enum Step {
    Held(u8, u16),
    Complete(u8, u16),
}

// The answer to a segment, and the slots behind it: one that is refused with 54 has lost its slot.
#[derive(Clone, Copy)]
pub struct Taken {
    pub answer: Result<Step, Refusal>,
    pub slots: Slots,
}

// A segment: its parameters are laid in the lent message area, which is 65,536 octets or refused with 60.
#[tactic(auto, using(crate::proofs::Ways::found_here, crate::proofs::Ways::takes_60, crate::proofs::Ways::takes_new, crate::proofs::Ways::takes_open))]
pub fn take(slots: Slots, g: Segment, octets: &[u8], area: &mut [u8]) -> Taken
    ensures { Gives (taking slots g octets.now area.old) (taken_of result) area.new }
{
    if area.len() != 65536 {
        return rows::kept(slots, Refusal::AreaSize);
    }
    let area = area.first_chunk_mut().unwrap();
    match search::open_slot(slots, g.key, 0) {
        Some(s) => rows::take_open(slots, s, g, octets, area),
        None => rows::take_new(slots, g, octets, area),
    }
}

// A forget order: the slots with this one free, or 56.
#[tactic(auto, using(crate::proofs::Ways::forget_free, crate::proofs::Ways::forget_open))]
pub fn forget(slots: Slots, s: u8) -> Result<Slots, Refusal>
    ensures { Forgets slots s (forgot_of slots result) }
{
    let at = usize::from(s);
    if at < 4 && slots.slots[at].used {
        return Ok(rows::with_slot(slots, at, Slot::FREE));
    }
    Err(Refusal::SlotNotOpen)
}

// 59's part for slots: none holds over 16,384, open slots' keys are given, no two open slots have one key.
#[tactic(auto, using(crate::proofs::Ways::passing_free, crate::proofs::Ways::passing_on, crate::proofs::Ways::sound_all, crate::proofs::Ways::unsound_held, crate::proofs::Ways::unsound_key, crate::proofs::Ways::unsound_twice))]
pub fn sound(slots: Slots) -> bool
    ensures { result ≡ passes keys 4 (view slots) }
{
    for s in 0..4 {
        let x = slots.slots[s];
        if 16384 < x.held {
            return false;
        }
        if x.used && (search::strange(x) || search::twice(slots, s)) {
            return false;
        }
    }
    true
}
