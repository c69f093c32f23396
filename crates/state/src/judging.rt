// Whether the octets of a state's size are a state that 59 passes: judged where they stand by quick tests, and the slots lifted where these do not say yes.
ghost use Rattle.std.specs.List.{list_all};
ghost use Rattle.std.specs.Prelude.{◌≡◌, ◌==◌, true, false, ◌+◌, ◌*◌, ◌≤◌, ◌<◌, length};
ghost use Rattle.collector.specs.Calls.{slot_count};
ghost use Rattle.octets.specs.Choice.{both};
ghost use Rattle.npdu.specs.Address.{gives};
ghost use Rattle.state.specs.Slot.{address_size, address_at, slot_size};
ghost use Rattle.state.specs.Layout.{state_size};
ghost use Rattle.state.specs.Judging.{link_fair, slot_fair, slots_fair, apart, pairs_fair, Over, four_at, NoAddress, AllFair};

use crate::{SIZE, SLOT, SLOTS, loading, slot_place, slots_at};

// The link: a phase, a count that it can have, and something left to come, in data with a length of 1 to 501.
pub fn link_fair(o: &[u8; SIZE]) -> bool
    ensures { result ≡ link_fair o.now }
{
    let p = o[0];
    if p <= 1 {
        return o[1] == 0 && o[2] == 0;
    }
    if p == 2 {
        return o[1] == 0 && o[2] < 6;
    }
    if p != 3 {
        return false;
    }
    let n = octets::pair(o[6], o[7]);
    if n == 0 || 501 < n {
        return false;
    }
    octets::pair(o[1], o[2]) < n + 2
}

// Octet k of the four slots, one over the other: none of them is above it.
fn over(o: &[u8; SIZE], k: usize) -> u8
    requires { k < slot_size }
    ensures { Over o.now k result }
{
    o[SLOTS + k] | o[SLOTS + SLOT + k] | o[SLOTS + SLOT * 2 + k] | o[SLOTS + SLOT * 3 + k]
}

// Quick, and enough: no slot is open, presence octets are 0 or 1, and all hold less than 16,384.
fn all_free(o: &[u8; SIZE]) -> bool
    ensures { result ≡ true → AllFair o.now }
{
    if over(o, 0) != 0 || 1 < over(o, 9) || 1 < over(o, 20) {
        return false;
    }
    over(o, 7) < 64
}

// Four octets from a place on as one number, the first of them lowest.
#[tactic(auto, unfolding(crate::specs::Judging::four_at))]
fn four(o: &[u8], at: usize) -> u32
    requires { at + 4 ≤ length o.now }
    ensures { result ≡ four_at o.now at }
{
    u32::from_le_bytes([o[at], o[at + 1], o[at + 2], o[at + 3]])
}

// The addresses of the slot at a place, four octets over four: 0 where it has none.
fn addressed(o: &[u8], at: usize) -> u32
    requires { at + slot_size ≤ length o.now }
    ensures { result ≡ 0 → NoAddress o.now at }
{
    four(o, at + 9)
        | four(o, at + 13)
        | four(o, at + 17)
        | four(o, at + 21)
        | four(o, at + 25)
        | four(o, at + 27)
}

// Quick, and enough: no slot has an address, all hold less than 16,384, and each is open or free.
fn all_plain(o: &[u8; SIZE]) -> bool
    ensures { result ≡ true → slots_fair o.now 0 slot_count ≡ true }
{
    if 1 < over(o, 0) || 63 < over(o, 7) {
        return false;
    }
    (addressed(o, SLOTS)
        | addressed(o, SLOTS + SLOT)
        | addressed(o, SLOTS + SLOT * 2)
        | addressed(o, SLOTS + SLOT * 3))
        == 0
}

// Whether all octets are 0.
fn all_zero(s: &[u8]) -> bool
    ensures { result ≡ list_all (λ x. x == 0) s.now }
{
    s.iter().all(|&x| x == 0)
}

// Quick, and enough: the eleven octets at a place are an address that a part with this least length and this greatest network number gives.
fn given(o: &[u8], at: usize, low: u8, top: u16) -> bool
    requires { at + address_size ≤ length o.now }
    ensures { result ≡ true → gives low top (address_at o.now at) ≡ true }
{
    if o[at] == 0 {
        return (four(o, at + 1) | four(o, at + 5) | four(o, at + 7)) == 0;
    }
    let net = octets::pair(o[at + 1], o[at + 2]);
    let len = o[at + 3];
    if net == 0 || top < net || len < low || 7 < len {
        return false;
    }
    if len == 1 {
        return (four(o, at + 5) | four(o, at + 7)) == 0;
    }
    all_zero(&o[at + 4 + usize::from(len)..at + 11])
}

// Quick, and enough: slot i holds less than 16,384, its flags are 0 or 1, and it is free or a header gives its addresses.
fn routed(o: &[u8; SIZE], i: usize) -> bool
    requires { i < slot_count }
    ensures { result ≡ true → slot_fair o.now i ≡ true }
{
    let at = slot_place(i);
    if 63 < o[at + 7] || 1 < (o[at] | o[at + 9] | o[at + 20]) {
        return false;
    }
    o[at] == 0 || (given(o, at + 9, 1, 65534) && given(o, at + 20, 0, 65535))
}

// Quick, and enough: each slot by itself.
fn each_quick(o: &[u8; SIZE]) -> bool
    ensures { result ≡ true → slots_fair o.now 0 slot_count ≡ true }
{
    if all_plain(o) {
        return true;
    }
    for i in 0..4 {
        if !routed(o, i) {
            return false;
        }
    }
    true
}

// Whether two addresses have the same octets behind those that say whether they are there.
// Stays: (d) no derived equality, here and in `alike`: octets are compared where they stand, and none is lifted for it.
fn one_address(o: &[u8], p: usize, q: usize) -> bool
    requires { (p + address_size ≤ length o.now) × (q + address_size ≤ length o.now) }
    ensures { result ≡ false → address_at o.now p ≡ address_at o.now q → ⊥ }
{
    if four(o, p + 1) != four(o, q + 1) || four(o, p + 5) != four(o, q + 5) {
        return false;
    }
    four(o, p + 7) == four(o, q + 7)
}

// Whether slot j is open and its key's octets are those of slot i, but for the two that say whether an address is there.
fn alike(o: &[u8; SIZE], i: usize, j: usize) -> bool
    requires { (i < slot_count) × (j < slot_count) }
    ensures { result ≡ false → apart o.now i j ≡ true }
{
    let a = slot_place(i);
    let b = slot_place(j);
    if four(o, a + 1) != four(o, b + 1) || o[b] == 0 {
        return false;
    }
    one_address(o, a + 9, b + 9) && one_address(o, a + 20, b + 20)
}

// Quick, and enough: no two slots, open or not, have the first four parts of one key.
// Stays: (d) the six pairs one by one here and below: two loops, one in the other, are longer and say no more.
fn all_unlike(o: &[u8; SIZE]) -> bool
    ensures { result ≡ true → pairs_fair o.now 0 slot_count ≡ true }
{
    let a = four(o, SLOTS + 1);
    let b = four(o, SLOTS + SLOT + 1);
    let c = four(o, SLOTS + SLOT * 2 + 1);
    let d = four(o, SLOTS + SLOT * 3 + 1);
    if a == b || a == c || a == d || b == c || b == d {
        return false;
    }
    c != d
}

// Quick: whether some slot is like one before it.
fn any_alike(o: &[u8; SIZE]) -> bool
    ensures { result ≡ false → pairs_fair o.now 0 slot_count ≡ true }
{
    if alike(o, 0, 1) || alike(o, 0, 2) || alike(o, 0, 3) || alike(o, 1, 2) || alike(o, 1, 3) {
        return true;
    }
    alike(o, 2, 3)
}

// Quick, and enough: no slot is like one before it.
fn pairs_quick(o: &[u8; SIZE]) -> bool
    ensures { result ≡ true → pairs_fair o.now 0 slot_count ≡ true }
{
    all_unlike(o) || !any_alike(o)
}

// The slots lifted, and judged as slots by value are.
fn lifted_fair(o: &[u8; SIZE]) -> bool
    ensures { result ≡ both (slots_fair o.now 0 slot_count) (pairs_fair o.now 0 slot_count) }
{
    loading::slots_good(o) && rebuild::sound(slots_at(o))
}

// All of them, each by itself and beside the others: quickly, or where that is not enough exactly. Not laid into its caller, where mostly no slot is open: that costs such a call 31 instructions.
#[inline(never)]
fn slots_fair(o: &[u8; SIZE]) -> bool
    ensures { result ≡ both (slots_fair o.now 0 slot_count) (pairs_fair o.now 0 slot_count) }
{
    (each_quick(o) && pairs_quick(o)) || lifted_fair(o)
}

// The same, and first of all whether none is open.
#[inline(always)]
pub fn slots_pass(o: &[u8; SIZE]) -> bool
    ensures { result ≡ both (slots_fair o.now 0 slot_count) (pairs_fair o.now 0 slot_count) }
{
    all_free(o) || slots_fair(o)
}
