// The searches of the slots.
ghost use Rattle.std.specs.Prelude.{◌≡◌, ◌+◌, ◌<◌, ◌≤◌, drop, not, position};
ghost use Rattle.std.specs.List.{list_any};
ghost use Rattle.messages.specs.Slots.{lowest, open_to, is_free, slot_at};
ghost use Rattle.messages.specs.Sound as Sound;
ghost use Rattle.rebuild.specs.View.{keys, seen, view, same_key, given_key, found};

use crate::{Key, Slot, Slots};
use npdu::addresses;

// Where keys are compared by value: the invoke ID first, since keys differ most there, and the addresses last.
#[tactic(auto, using(crate::proofs::Ways::same_key_is, octets::specs::Rules::tests), unfolding(crate::specs::View::same_key))]
pub fn same_key(a: Key, b: Key) -> bool
    ensures { result ≡ same_key a b }
{
    a.invoke == b.invoke && a == b
}

// Whether a slot is open and has the key.
#[tactic(auto, using(crate::proofs::Ways::closed_to, crate::proofs::Ways::opened_to))]
fn open_to(x: Slot, k: Key) -> bool
    ensures { result ≡ open_to keys k (seen x) }
{
    x.used && same_key(x.key, k)
}

// The lowest slot from a place on that is open and has the key.
#[tactic(auto, using(crate::proofs::Ways::looks_here, crate::proofs::Ways::looks_on, crate::proofs::Ways::looks_past))]
pub fn open_slot(t: Slots, k: Key, start: usize) -> Option<usize>
    requires { start ≤ 4 }
    ensures { result ≡ found start (lowest (open_to keys k) (drop start (view t))) }
{
    for s in start..4 {
        if open_to(t.slots[s], k) {
            return Some(s);
        }
    }
    None
}

// The first that is free.
fn first_free(slots: &[Slot]) -> Option<usize>
    ensures { result ≡ position (λ x. not x.used) slots.now }
{
    slots.iter().position(|x| !x.used)
}

// "the search stops at the lowest free slot"
#[tactic(auto, using(crate::proofs::Ways::first_free))]
pub fn lowest_free(t: Slots) -> Option<usize>
    ensures { result ≡ found 0 (lowest (is_free keys) (view t)) }
{
    first_free(&t.slots)
}

// Whether a header gives both addresses of the key.
#[tactic(auto, using(crate::proofs::Ways::given_by, crate::proofs::Ways::not_given))]
fn key_given(k: Key) -> bool
    ensures { result ≡ given_key k }
{
    addresses::gives_source(k.from) && addresses::gives_destination(k.to)
}

// Whether a slot is open with a key that no header gives.
#[tactic(auto, using(crate::proofs::Ways::strange_free, crate::proofs::Ways::strange_here))]
pub fn strange(x: Slot) -> bool
    ensures { result ≡ Sound.strange keys (seen x) }
{
    x.used && !key_given(x.key)
}

// Whether one is open and has the key.
fn some_open(slots: &[Slot], k: Key) -> bool
    ensures { result ≡ list_any (λ x. open_to keys k (seen x)) slots.now }
{
    slots.iter().any(|x| open_to(*x, k))
}

// Whether slot s is open and a later open slot has its key.
#[tactic(auto, using(crate::proofs::Ways::once_free, crate::proofs::Ways::twice_later))]
pub fn twice(t: Slots, s: usize) -> bool
    requires { s < 4 }
    ensures { result ≡ Sound.twice keys (slot_at keys (view t) s) (drop (s + 1) (view t)) }
{
    let x = t.slots[s];
    x.used && some_open(&t.slots[s + 1..], x.key)
}
