// A value's items as a line says them, from the records of `items::list`: commas between, a group in braces behind its number.
use crate::item::{Item, Kind};
use crate::{contents, long};
use words::Pen;
use words::names::TYPES;

// The room for an item without its long contents, and what is said of a list that is cut.
const ROOM: usize = 192;

// An item: an application item's contents and its type; a context item's number and its octets; the borders of a group.
fn said(pen: &mut Pen, item: Item) {
    match item.kind {
        Kind::Application => {
            contents::text(pen, item.number, item.value, item.contents, false);
            pen.put(b" (");
            pen.name(TYPES.name(u64::from(item.number)));
            pen.one(b')');
        }
        Kind::Context => {
            write!(pen, "[{}] ", item.number);
            long::octets(pen, item.contents);
        }
        Kind::Opening => write!(pen, "[{}] {{", item.number),
        Kind::Closing => pen.one(b'}'),
    }
}

// What stands in front of an item, behind another or none.
fn between(before: Option<Kind>, kind: Kind) -> &'static [u8] {
    match (before, kind) {
        (None, _) => b"",
        (Some(Kind::Opening), _) | (_, Kind::Closing) => b" ",
        _ => b", ",
    }
}

// A value's items in words, from their records. Of a list that is too long for the area, how many octets behind this tag are left.
pub fn text(pen: &mut Pen, s: &[u8], records: &[[u8; 12]]) {
    if records.is_empty() {
        pen.put(b"nothing");
    }
    let mut before = None;
    for record in records {
        let item = Item::of(s, record);
        if pen.room() < ROOM {
            pen.one(b' ');
            return long::left(pen, item.left);
        }
        pen.put(between(before, item.kind));
        said(pen, item);
        before = Some(item.kind);
    }
}
