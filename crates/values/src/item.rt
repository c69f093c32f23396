// An item of a value, from the record that `items::list` wrote of it (document 01: "kind, number, depth, boolean value else 0, contents place and
// length (4 each, high octet first)"). The depth is told by the borders of groups.
use crate::span;

#[derive(Clone, Copy, PartialEq, Eq)]
pub enum Kind {
    Application,
    Context,
    Opening,
    Closing,
}

// `left`: the octets behind the tag, to the value's end.
#[derive(Clone, Copy)]
pub struct Item<'a> {
    pub kind: Kind,
    pub number: u8,
    pub value: u8,
    pub contents: &'a [u8],
    pub left: usize,
}

impl<'a> Item<'a> {
    // The item of a value that a record tells.
    pub fn of(s: &'a [u8], record: &[u8; 12]) -> Item<'a> {
        let [kind, number, _, value, a, b, c, d, e, f, g, h] = *record;
        let place = u32::from_be_bytes([a, b, c, d]) as usize;
        Item {
            kind: match kind {
                0 => Kind::Application,
                1 => Kind::Context,
                2 => Kind::Opening,
                _ => Kind::Closing,
            },
            number,
            value,
            contents: span(s, place, u32::from_be_bytes([e, f, g, h]) as usize),
            left: s.len().saturating_sub(place),
        }
    }
}

// The first n records of an area; no more than it holds.
pub fn laid(area: &[u8], n: usize) -> &[[u8; 12]] {
    let (records, _) = area.as_chunks();
    records.get(..n).unwrap_or(records)
}
