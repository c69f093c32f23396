// The rows 51, 52, 53, 54, 50 in that order, and the laying of a segment.
ghost use Rattle.std.specs.Prelude.{◌≡◌, ◌+◌, ◌<◌, ◌≤◌, true, false, [], length, slice_set};
ghost use Rattle.std.proofs.Math.Option.{none, some};
ghost use Rattle.messages.specs.Slots.{boxed, slot_at, empty};
ghost use Rattle.messages.specs.Rows as Rules;
ghost use Rattle.octets.specs.Refusal.{number_of};
ghost use Rattle.rebuild.specs.View.{keys, view, segment_of};
ghost use Rattle.rebuild.specs.Calls.{Gives, Fits, Kept, Lost, taken_of};

use crate::{Segment, Slot, Slots, Step, Taken, search};
use octets::Refusal;

// The slots with one record in place of another.
pub fn with_slot(t: Slots, s: usize, x: Slot) -> Slots
    requires { s < 4 }
    ensures { result.slots ≡ slice_set t.slots s x }
{
    let mut u = t;
    u.slots[s] = x;
    u
}

// Refused, and every slot as it was.
pub fn kept(t: Slots, n: Refusal) -> Taken
    ensures { Kept (number_of n) t (taken_of result) }
{
    Taken {
        answer: Err(n),
        slots: t,
    }
}

// Refused, and the slot is freed.
fn lost(t: Slots, s: usize, n: Refusal) -> Taken
    requires { s < 4 }
    ensures { Lost (number_of n) t s (taken_of result) }
{
    Taken {
        answer: Err(n),
        slots: with_slot(t, s, Slot::FREE),
    }
}

// Whether a segment with this number starts its key's message, or starts it anew: number 0 does, but where the key is open and 0 must come next.
#[tactic(auto, using(crate::proofs::Ways::starts_anew, crate::proofs::Ways::starts_not, crate::proofs::Ways::starts_shut))]
fn starts(number: u8, is_open: bool, next: u8) -> bool
    ensures { result ≡ Rules.starts_at number is_open next }
{
    number == 0 && (next != 0 || !is_open)
}

// The segment laid in slot s behind n octets: held there, or complete and the slot freed.
#[tactic(auto, using(crate::proofs::Ways::settles_last, crate::proofs::Ways::settles_more))]
fn settle(t: Slots, s: usize, n: usize, g: Segment, octets: &[u8], area: &mut [u8; 65536]) -> Taken
    requires { Fits s n octets.now area.old }
    ensures { Gives (Rules.settle keys (segment_of g octets.now) s n (boxed (view t) area.old)) (taken_of result) area.new }
{
    octets::copy(octets, area, 16384 * s + n);
    let slot = s as u8;
    let total = (n + octets.len()) as u16;
    if g.mor {
        let x = Slot {
            used: true,
            key: g.key,
            next: std::num::wrapping_add_u8(g.number, 1),
            choice: g.choice,
            held: total,
        };
        return Taken {
            answer: Ok(Step::Held(slot, total)),
            slots: with_slot(t, s, x),
        };
    }
    Taken {
        answer: Ok(Step::Complete(slot, total)),
        slots: with_slot(t, s, Slot::FREE),
    }
}

// 54 frees the key's slot s, where n octets stand before the segment's; else it is laid there.
#[tactic(auto, using(crate::proofs::Ways::fits_54, crate::proofs::Ways::fits_on))]
fn fitted(t: Slots, s: usize, n: usize, g: Segment, octets: &[u8], area: &mut [u8; 65536]) -> Taken
    requires { (s < 4) × (n ≤ 65535) }
    ensures { Gives (Rules.fitted keys (segment_of g octets.now) (some s) n (boxed (view t) area.old)) (taken_of result) area.new }
{
    if 16384 < n + octets.len() {
        return lost(t, s, Refusal::MessageTooLong);
    }
    settle(t, s, n, g, octets, area)
}

// A segment of a key that is open in slot s.
#[tactic(auto, using(crate::proofs::Ways::opens_52, crate::proofs::Ways::opens_53, crate::proofs::Ways::opens_anew, crate::proofs::Ways::opens_on))]
pub fn take_open(t: Slots, s: usize, g: Segment, octets: &[u8], area: &mut [u8; 65536]) -> Taken
    requires { s < 4 }
    ensures { Gives (Rules.rows keys (segment_of g octets.now) (some s) (slot_at keys (view t) s) (boxed (view t) area.old)) (taken_of result) area.new }
{
    let x = t.slots[s];
    if starts(g.number, true, x.next) {
        return fitted(t, s, 0, g, octets, area);
    }
    if g.number != x.next {
        return kept(t, Refusal::OutOfOrder);
    }
    if g.choice != x.choice {
        return kept(t, Refusal::OtherChoice);
    }
    fitted(t, s, usize::from(x.held), g, octets, area)
}

// A segment of a key that is not open.
#[tactic(auto, using(crate::proofs::Ways::found_here, crate::proofs::Ways::news_50, crate::proofs::Ways::news_51, crate::proofs::Ways::news_54, crate::proofs::Ways::news_settles))]
pub fn take_new(t: Slots, g: Segment, octets: &[u8], area: &mut [u8; 65536]) -> Taken
    ensures { Gives (Rules.rows keys (segment_of g octets.now) none (empty keys) (boxed (view t) area.old)) (taken_of result) area.new }
{
    if !starts(g.number, false, 0) {
        return kept(t, Refusal::NotBegun);
    }
    if 16384 < octets.len() {
        return kept(t, Refusal::MessageTooLong);
    }
    match search::lowest_free(t) {
        Some(s) => settle(t, s, 0, g, octets, area),
        None => kept(t, Refusal::NoSlotFree),
    }
}
