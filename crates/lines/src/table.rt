// A report as rows of a table: a row for each item that a ReadProperty ack or a WriteProperty request carries.
use crate::heard::{Heard, Kind};
use crate::{Report, heading, message};
use npdu::Npdu;
use words::Pen;

// The table's first line.
pub fn head(pen: &mut Pen) {
    pen.put(b"place,source,destination,service,object type,instance,property,index,type,value\n");
}

// The cells in front of the object type.
fn front(pen: &mut Pen, place: u64, r: Heard, h: &Npdu) {
    write!(pen, "{place},");
    heading::cells(pen, r, h);
    pen.one(b',');
    heading::pdu(pen, r);
    pen.one(b',');
}

impl Report<'_> {
    // Whether it carries a value: a message, rebuilt or not, that is a ReadProperty ack or a WriteProperty request. Another has no rows.
    pub fn carries(self) -> bool {
        let r = self.octets;
        matches!(r[0], 3 | 5) && matches!((r[5] / 16, r[12]), (3, 12) | (0, 15))
    }

    // The rows of a report that carries a value, from an item on; the number of the item to go on with where the area had no room for more.
    pub fn rows(self, pen: &mut Pen, place: u64, from: usize, records: &mut [u8]) -> Option<usize> {
        let r = Heard::of(self);
        let h = r.header();
        let mut cells = [0; 256];
        let mut cells = Pen::new(&mut cells, 0);
        front(&mut cells, place, r, &h.npdu);
        // In its slot of the area, or behind the APDU's header in the frame.
        let s = match r.kind {
            Kind::Complete => r.rebuilt(),
            _ => message::parameters(r.apdu(), r.octets(h.next)).unwrap_or(&[]),
        };
        values::table::rows(pen, r.apdu(), r.choice, s, from, &mut cells, records)
    }
}
