// Values as rows of a table (RFC 4180): a row for each item of a ReadProperty ack or a WriteProperty request.
use crate::item::{Item, Kind};
use crate::{carried, contents, item, long, span};
use services::Target;
use words::Pen;
use words::names::{OBJECTS, PROPERTIES, TYPES};

// The room that a row is given: what is longer is cut, and the row says how much.
const ROOM: usize = 57344;

// Object type, instance, property and index, an absent one empty.
fn target(pen: &mut Pen, t: Target) {
    let object = OBJECTS.bare(u64::from(t.object));
    write!(
        pen,
        "{object},{},{},",
        t.instance,
        PROPERTIES.bare(u64::from(t.property))
    );
    if t.indexed {
        write!(pen, "{}", t.index);
    }
    pen.one(b',');
}

// Type and value of an item: an application type; a context item's octets; the borders of a group.
fn cells(pen: &mut Pen, item: Item) {
    let number = item.number;
    match item.kind {
        Kind::Application => {
            write!(pen, "{},", TYPES.bare(u64::from(number)));
            contents::text(pen, number, item.value, item.contents, true);
        }
        Kind::Context => {
            write!(pen, "context {number},");
            long::octets(pen, item.contents);
        }
        Kind::Opening => write!(pen, "group {number},"),
        Kind::Closing => write!(pen, "end of group {number},"),
    }
}

// The rows of a value's items from one of them on, as far as there is room; the item to go on with where there was none for more.
fn every(
    pen: &mut Pen,
    s: &[u8],
    records: &[[u8; 12]],
    from: usize,
    front: &[u8],
) -> Option<usize> {
    for (i, record) in records.iter().enumerate().skip(from) {
        pen.put(front);
        cells(pen, Item::of(s, record));
        pen.one(b'\n');
        let next = i + 1;
        if pen.room() < ROOM {
            return (next < records.len()).then_some(next);
        }
    }
    None
}

// The rows of a value, from the records that `items::list` writes of its items; `front` holds the cells in front of its type.
fn listed(pen: &mut Pen, s: &[u8], from: usize, front: &[u8], records: &mut [u8]) -> Option<usize> {
    // A value that was read has good items, and room for 2,048 records is lent.
    let n = items::list(s, records).ok()?;
    if n == 0 {
        // A value without items is a row without type and value.
        pen.put(front);
        pen.put(b",\n");
        return None;
    }
    every(pen, s, item::laid(records, n), from, front)
}

// The rows of a PDU of this kind and choice, from an item on, none where its parameters are refused; the number of the item to go on with where the area had no room for more.
// `front` holds the cells in front of the object type; `records`: an area for the records of a value's items, lent.
pub fn rows(
    pen: &mut Pen,
    kind: u8,
    choice: u8,
    s: &[u8],
    from: usize,
    front: &mut Pen,
    records: &mut [u8],
) -> Option<usize> {
    let h = services::read(kind, choice, s).ok().and_then(carried::of)?;
    target(front, h.target);
    listed(
        pen,
        span(s, h.value.at, h.value.len),
        from,
        front.written(),
        records,
    )
}
