// The header's octets laid into an area, part by part.
ghost use Rattle.std.specs.Prelude.{◌≡◌, true, ◌+◌, ◌≤◌, length};
ghost use Rattle.octets.specs.Splice.{splice};
ghost use Rattle.npdu.specs.Layout.{bit_of, control_of, part_octets, message_octets, parts_octets, tail_octets, encode};
ghost use Rattle.npdu.specs.Fault.{fault_of};
ghost use Rattle.npdu.specs.Size.{part_size, hop_size, message_size, parts_size, tail_size, size_of};

use crate::addresses::{destination_of, source_of};
use crate::{Address, Npdu};

// How many octets a part takes.
#[tactic(auto, using(octets::specs::Rules::flags, octets::specs::Rules::tests), unfolding(crate::specs::Size::part_size))]
fn part_size(a: Address) -> usize
    ensures value { result ≡ part_size a.present a.length }
    ensures small { result ≤ 258 }
{
    if a.present {
        return 3 + usize::from(a.length);
    }
    0
}

// How many octets both parts take.
#[tactic(auto, unfolding(crate::specs::Size::parts_size))]
fn parts_size(h: Npdu) -> usize
    ensures value { result ≡ parts_size h }
    ensures small { result ≤ 516 }
{
    part_size(destination_of(h)) + part_size(source_of(h))
}

// How many octets the hop count takes.
#[tactic(auto, using(octets::specs::Rules::flags, octets::specs::Rules::tests), unfolding(crate::specs::Size::hop_size))]
fn hop_size(here: bool) -> usize
    ensures value { result ≡ hop_size here }
    ensures small { result ≤ 1 }
{
    usize::from(here)
}

// How many octets a message's type takes, with its vendor.
#[tactic(auto, using(octets::specs::Rules::flags, octets::specs::Rules::tests), unfolding(crate::specs::Size::kind_size, crate::specs::Size::message_size))]
fn message_size(here: bool, kind: u8) -> usize
    ensures value { result ≡ message_size here kind }
    ensures small { result ≤ 3 }
{
    if !here {
        return 0;
    }
    if kind < 128 { 1 } else { 3 }
}

// How many octets the header takes.
#[tactic(auto, unfolding(crate::specs::Size::size_of, crate::specs::Size::tail_size))]
pub fn size(h: Npdu) -> usize
    ensures { result ≡ size_of h }
{
    2 + parts_size(h) + hop_size(h.dest) + message_size(h.message, h.kind)
}

// A bit of this weight, if it is set.
#[tactic(auto, using(octets::specs::Rules::flags, octets::specs::Rules::tests), unfolding(crate::specs::Layout::bit_of))]
fn bit(b: bool, w: u8) -> u8
    ensures value { result ≡ bit_of b w }
    ensures small { result ≤ w }
{
    if b { w } else { 0 }
}

// The control octet.
#[tactic(auto, unfolding(crate::specs::Layout::control_of))]
fn control(h: Npdu) -> u8
    requires { h.priority ≤ 3 }
    ensures { result ≡ control_of h }
{
    bit(h.message, 128) + bit(h.dest, 32) + bit(h.source, 8) + bit(h.reply, 4) + h.priority
}

// A part at a place, if it is present.
#[tactic(auto, using(octets::specs::Rules::flags, octets::specs::Splice::splice_nil), unfolding(crate::specs::Layout::part_laid, crate::specs::Layout::part_octets))]
fn put_part(out: &mut [u8], at: usize, a: Address)
    requires { (a.present ≡ true → a.length ≤ 7) × (at + part_size a.present a.length ≤ length out.old) }
    ensures { out.new ≡ splice out.old at (part_octets a.present a.network a.length a.octets) }
{
    if a.present {
        octets::copy(&a.network.to_be_bytes(), out, at);
        out[at + 2] = a.length;
        octets::copy(&a.octets[..usize::from(a.length)], out, at + 3);
    }
}

// A network message's type at a place, with its vendor.
#[tactic(auto, using(octets::specs::Rules::flags, octets::specs::Splice::splice_nil, octets::specs::Rules::tests), unfolding(crate::specs::Size::kind_size, crate::specs::Layout::message_laid, crate::specs::Layout::message_octets))]
fn put_message(out: &mut [u8], at: usize, here: bool, kind: u8, vendor: u16)
    requires { at + message_size here kind ≤ length out.old }
    ensures { out.new ≡ splice out.old at (message_octets here kind vendor) }
{
    if here {
        out[at] = kind;
        if 128 <= kind {
            octets::copy(&vendor.to_be_bytes(), out, at + 1);
        }
    }
}

// Both parts from a place on.
#[tactic(auto, unfolding(crate::specs::Layout::parts_octets, crate::specs::Size::parts_size))]
fn put_parts(out: &mut [u8], at: usize, h: Npdu)
    requires { (fault_of h ≡ 0) × (at + parts_size h ≤ length out.old) }
    ensures { out.new ≡ splice out.old at (parts_octets h) }
{
    let destination = destination_of(h);
    put_part(out, at, destination);
    put_part(out, at + part_size(destination), source_of(h));
}

// Hop count, message type and vendor from a place on.
#[tactic(auto, unfolding(crate::specs::Layout::hop_octets, crate::specs::Size::hop_size, crate::specs::Layout::tail_octets, crate::specs::Size::tail_size))]
fn put_tail(out: &mut [u8], at: usize, h: Npdu)
    requires { at + tail_size h ≤ length out.old }
    ensures { out.new ≡ splice out.old at (tail_octets h) }
{
    if h.dest {
        out[at] = h.hops;
        put_message(out, at + 1, h.message, h.kind, h.vendor);
        return;
    }
    put_message(out, at, h.message, h.kind, h.vendor);
}

// The whole header at the front.
#[tactic(auto, unfolding(crate::specs::Layout::encode, crate::specs::Size::parts_size, crate::specs::Size::size_of))]
pub fn put_head(out: &mut [u8], h: Npdu)
    requires { (fault_of h ≡ 0) × (size_of h ≤ length out.old) }
    ensures { out.new ≡ splice out.old 0 (encode h) }
{
    out[0] = 1;
    out[1] = control(h);
    put_parts(out, 2, h);
    put_tail(out, 2 + parts_size(h), h);
}
