// A message in words: an unsegmented APDU, a segment, or a message that was rebuilt.
use crate::heading;
use crate::heard::Heard;
use apdu::{Edition, Pdu, SegmentAckPdu};
use words::Pen;
use words::names::{ABORTS, REJECTS};

// A segment ack: the segment's number, the window, whether it is negative, and who acknowledges.
fn segment_ack(pen: &mut Pen, p: SegmentAckPdu) {
    write!(pen, ": segment {}, window {}", p.number, p.window);
    if p.nak {
        pen.put(b", negative");
    }
    pen.put(if p.srv {
        b", by the server"
    } else {
        b", by the client"
    });
}

// What a PDU without parameters says.
fn bare(pen: &mut Pen, p: Pdu) {
    match p {
        Pdu::SegmentAck(q) => segment_ack(pen, q),
        Pdu::Reject(q) => write!(pen, ": {}", REJECTS.name(u64::from(q.reason))),
        Pdu::Abort(q) => write!(pen, ": {}", ABORTS.name(u64::from(q.reason))),
        Pdu::Request(_)
        | Pdu::Unconfirmed(_)
        | Pdu::SimpleAck(_)
        | Pdu::ComplexAck(_)
        | Pdu::Error(_) => {}
    }
}

// The parameters of an unsegmented APDU of this type; none where it has no parameters.
pub fn parameters(apdu: u8, s: &[u8]) -> Option<&[u8]> {
    let begin = match apdu {
        0 => 4,
        1 => 2,
        3 | 5 => 3,
        _ => return None,
    };
    Some(s.get(begin..).unwrap_or(&[]))
}

// Service parameters behind a colon.
fn params(pen: &mut Pen, r: Heard, s: &[u8], records: &mut [u8]) {
    pen.put(b": ");
    values::service::text(pen, r.apdu(), r.choice, s, records);
}

// What an unsegmented APDU says behind its heading. A header is read of kinds without parameters alone: no request, and the editions read them alike.
fn said(pen: &mut Pen, r: Heard, s: &[u8], records: &mut [u8]) {
    if let Some(t) = parameters(r.apdu(), s) {
        return params(pen, r, t, records);
    }
    if let Ok(p) = apdu::read(Edition::First, s) {
        bare(pen, p);
    }
}

// An unsegmented APDU: its octets stand behind the network header.
pub fn whole(pen: &mut Pen, r: Heard, records: &mut [u8]) {
    if heading::local(r) {
        heading::near(pen, r);
        return said(pen, r, r.octets(2), records);
    }
    let h = r.header();
    heading::message(pen, r, &h.npdu);
    said(pen, r, r.octets(h.next), records);
}

// A segment that was taken: its slot and the octets held so far.
pub fn segment(pen: &mut Pen, r: Heard) {
    pen.put(b"segment of ");
    heading::message(pen, r, &r.header().npdu);
    write!(pen, ", slot {}, {} octets held", r.slot, r.length);
}

// A message that was rebuilt.
pub fn complete(pen: &mut Pen, r: Heard, records: &mut [u8]) {
    pen.put(b"complete: ");
    heading::message(pen, r, &r.header().npdu);
    write!(pen, ", slot {}", r.slot);
    params(pen, r, r.rebuilt(), records);
}
