// A report's fields (document 01: "0: kind; 1: refusal number or 0; 2 to 4: frame type, destination, source; 5: first APDU octet; 6: invoke ID;
// 7: slot; 8 to 11: length, high octet first; 12: service choice"). A length is at most 16,384, so its high two octets are 0.
use crate::Report;
use npdu::{Header, Npdu};

#[derive(Clone, Copy)]
pub struct Heard<'a> {
    pub kind: Kind,
    pub number: u8,
    pub frame: u8,
    pub to: u8,
    pub from: u8,
    pub first: u8,
    pub invoke: u8,
    pub slot: u8,
    pub length: u16,
    pub choice: u8,
    pub data: &'a [u8],
    area: &'a [u8],
}

#[derive(Clone, Copy)]
pub enum Kind {
    Frame,
    Damage,
    Message,
    Segment,
    Complete,
    Refused,
    Network,
}

impl<'a> Heard<'a> {
    pub fn of(report: Report<'a>) -> Heard<'a> {
        let [
            kind,
            number,
            frame,
            to,
            from,
            first,
            invoke,
            slot,
            _,
            _,
            high,
            low,
            choice,
            ..
        ] = *report.octets;
        Heard {
            kind: match kind {
                1 => Kind::Frame,
                2 => Kind::Damage,
                3 => Kind::Message,
                4 => Kind::Segment,
                5 => Kind::Complete,
                6 => Kind::Refused,
                _ => Kind::Network,
            },
            number,
            frame,
            to,
            from,
            first,
            invoke,
            slot,
            length: u16::from_be_bytes([high, low]),
            choice,
            data: report.data,
            area: report.area,
        }
    }

    // The APDU's type: 0 confirmed request, 1 unconfirmed, 2 simple ack, 3 complex ack, 4 segment ack, 5 error, 6 reject, 7 abort.
    pub fn apdu(self) -> u8 {
        self.first / 16
    }

    // The frame's network header: a report of a message tells of a good one.
    pub fn header(self) -> Header {
        npdu::read(self.data).unwrap_or(Header {
            npdu: Npdu::ZERO,
            next: 0,
        })
    }

    // As many octets of the frame from a place on as the report says.
    pub fn octets(self, from: usize) -> &'a [u8] {
        values::span(self.data, from, usize::from(self.length))
    }

    // The parameters of a message that was rebuilt: "Slot s owns message area octets 16384 s to 16384 s + 16383".
    pub fn rebuilt(self) -> &'a [u8] {
        values::span(
            self.area,
            usize::from(self.slot) * 16384,
            usize::from(self.length),
        )
    }
}
