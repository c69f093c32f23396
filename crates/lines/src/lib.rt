// A report as a line in words, and as rows of a table. `records` is an area for the records of a value's items.
#![tactic(auto)]

mod heading;
mod heard;
mod message;
pub mod table;

use crate::heard::{Heard, Kind};
use words::Pen;
use words::names::{DAMAGES, FRAMES, NETWORK, REFUSALS};

// A frame without a message.
fn frame(pen: &mut Pen, r: Heard) {
    pen.name(FRAMES.name(u64::from(r.frame)));
    pen.put(b", from ");
    heading::stations(pen, r.from, r.to);
    if r.length != 0 {
        write!(pen, ", {} data octets", r.length);
    }
}

fn damage(pen: &mut Pen, r: Heard) {
    let name = DAMAGES.name(u64::from(r.number));
    write!(pen, "damage, {}: {name}", r.number);
}

fn refused(pen: &mut Pen, r: Heard) {
    let name = REFUSALS.name(u64::from(r.number));
    write!(pen, "refused, {}: {name}, from ", r.number);
    heading::stations(pen, r.from, r.to);
}

// A network layer message: its type by name.
fn network(pen: &mut Pen, r: Heard) {
    let h = r.header().npdu;
    let name = NETWORK.name(u64::from(h.kind));
    write!(pen, "network layer message {name}");
    heading::routed(pen, r, &h);
    write!(pen, ", {} octets", r.length);
}

// A report in words.
fn said(pen: &mut Pen, r: Heard, records: &mut [u8]) {
    match r.kind {
        Kind::Frame => frame(pen, r),
        Kind::Damage => damage(pen, r),
        Kind::Message => message::whole(pen, r, records),
        Kind::Segment => message::segment(pen, r),
        Kind::Complete => message::complete(pen, r, records),
        Kind::Refused => refused(pen, r),
        Kind::Network => network(pen, r),
    }
}

// A report, with the frame's octets in the frame store and the message area: both as the call that reported left them.
#[derive(Clone, Copy)]
pub struct Report<'a> {
    pub octets: &'a [u8; 16],
    pub data: &'a [u8],
    pub area: &'a [u8],
}

impl Report<'_> {
    // Whether it is a token without data: by far the most frequent frame of a trunk.
    fn token(self) -> bool {
        let r = self.octets;
        r[0] == 1 && r[2] == 0 && r[10] == 0 && r[11] == 0
    }

    // In words behind its place. A token's words come without a look at anything else.
    fn told(self, pen: &mut Pen, records: &mut [u8]) {
        if self.token() {
            pen.put(b": token, from ");
            return heading::stations(pen, self.octets[4], self.octets[3]);
        }
        pen.put(b": ");
        said(pen, Heard::of(self), records);
    }

    // Its line: the octets heard so far, the report in words and, where wanted, its octets.
    pub fn line(self, pen: &mut Pen, heard: u64, wanted: bool, records: &mut [u8]) {
        pen.put(b"octet ");
        pen.number(heard);
        self.told(pen, records);
        if wanted {
            pen.put(b" |");
            let octets = self.octets;
            values::long::row(pen, octets);
        }
        pen.one(b'\n');
    }

    // Its line behind the number of the record that caused it, for recordings.
    pub fn recorded(self, pen: &mut Pen, record: u64, records: &mut [u8]) {
        pen.put(b"record ");
        pen.number(record);
        self.told(pen, records);
        pen.one(b'\n');
    }
}
