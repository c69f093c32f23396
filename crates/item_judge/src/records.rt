// A record of the record area, and the octets that its item takes.
ghost use Rattle.std.specs.Prelude.{◌≡◌, ◌+◌, ◌≤◌, length};
ghost use Rattle.octets.specs.Numbers.{value_at};
ghost use Rattle.tags.specs.Layout.{number_octets, length_octets};
ghost use Rattle.items.specs.Records.{record_at};
ghost use Rattle.item_judge.specs.Kinds.{rec_of};
ghost use Rattle.item_judge.specs.OneLayout.{size_of};

use crate::Record;

// The number that the four octets at a place are.
fn four_at(area: &[u8], p: usize) -> usize
    requires { p + 4 ≤ length area.now }
    ensures { result ≡ value_at area.now p 4 }
{
    u32::from_be_bytes([area[p], area[p + 1], area[p + 2], area[p + 3]]) as usize
}

// The record at a place.
#[tactic(auto, unfolding(items::specs::Records::record_at))]
pub fn record_at(area: &[u8], p: usize) -> Record
    requires { p + 12 ≤ length area.now }
    ensures { rec_of result ≡ record_at area.now p }
{
    Record {
        kind: area[p],
        number: area[p + 1],
        depth: usize::from(area[p + 2]),
        value: area[p + 3],
        place: four_at(area, p + 4),
        len: four_at(area, p + 8),
    }
}

// How many octets the number takes after the tag octet.
#[tactic(auto, using(octets::specs::Rules::tests), unfolding(tags::specs::Layout::number_octets))]
fn number_size(n: u8) -> usize
    ensures { result ≡ length (number_octets n) }
{
    if n < 15 { 0 } else { 1 }
}

// How many octets the length takes after these.
#[tactic(auto, using(octets::specs::Rules::tests), unfolding(tags::specs::Layout::length_octets))]
fn length_size(len: usize) -> usize
    ensures { result ≡ length (length_octets len) }
{
    match len {
        0..=4 => 0,
        5..=253 => 1,
        _ => 3,
    }
}

// How many octets the item of a good record takes.
pub fn size(r: Record) -> usize
    requires { r.len ≤ 16384 }
    ensures { result ≡ size_of r.number r.len }
{
    1 + number_size(r.number) + length_size(r.len) + r.len
}
