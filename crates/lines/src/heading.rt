// What is said of a message in front of its parameters: the PDU, stations with their network addresses, the invoke ID.
use crate::heard::Heard;
use npdu::Npdu;
use words::Pen;
use words::names::{CONFIRMED, KINDS, UNCONFIRMED};

// A network and the address on it, the first octets of seven.
fn route(pen: &mut Pen, network: u16, len: u8, octets: &[u8; 7]) {
    if network == 65535 {
        return pen.put(b" (every network)");
    }
    write!(pen, " (network {network}");
    if len != 0 {
        pen.put(b" address ");
        values::long::octets(pen, values::span(octets, 0, usize::from(len)));
    }
    pen.one(b')');
}

// The source's network address, where the header gives one.
fn source(pen: &mut Pen, h: &Npdu) {
    if h.source {
        route(pen, h.snet, h.slen, &h.sadr);
    }
}

// The destination's, likewise.
fn destination(pen: &mut Pen, h: &Npdu) {
    if h.dest {
        route(pen, h.dnet, h.dlen, &h.dadr);
    }
}

// From whom to whom a frame goes.
pub fn stations(pen: &mut Pen, from: u8, to: u8) {
    pen.number(from);
    pen.put(b" to ");
    pen.station(u64::from(to));
}

// Source and destination, a network address behind each where the header gives one.
pub fn routed(pen: &mut Pen, r: Heard, h: &Npdu) {
    pen.put(b", from ");
    pen.number(r.from);
    source(pen, h);
    pen.put(b" to ");
    pen.station(u64::from(r.to));
    destination(pen, h);
}

// The same as cells of a table.
pub fn cells(pen: &mut Pen, r: Heard, h: &Npdu) {
    pen.number(r.from);
    source(pen, h);
    pen.one(b',');
    pen.station(u64::from(r.to));
    destination(pen, h);
}

// The kind of PDU, behind its service where it has one. Services that are not confirmed have numbers of their own; an abort says who aborts.
pub fn pdu(pen: &mut Pen, r: Heard) {
    let kind = u32::from(r.apdu());
    let choice = u32::from(r.choice);
    match kind {
        1 => pen.name(UNCONFIRMED.name(u64::from(choice))),
        7 if r.first % 2 == 1 => pen.name(KINDS.name(8)),
        4 | 6 | 7 => pen.name(KINDS.name(u64::from(kind))),
        _ => {
            pen.name(CONFIRMED.name(u64::from(choice)));
            pen.name(KINDS.name(u64::from(kind)));
        }
    }
}

// Whether a message with a confirmed service came without a network address: two octets of network header, no source, no destination.
pub fn local(r: Heard) -> bool {
    matches!(r.apdu(), 0 | 2 | 3 | 5) && matches!(r.data, [_, control, ..] if *control < 8)
}

fn invoke(pen: &mut Pen, r: Heard) {
    pen.put(b", invoke ");
    pen.number(r.invoke);
}

// What the report of such a message says.
pub fn near(pen: &mut Pen, r: Heard) {
    pdu(pen, r);
    pen.put(b", from ");
    stations(pen, r.from, r.to);
    invoke(pen, r);
}

// What every report of an APDU says.
pub fn message(pen: &mut Pen, r: Heard, h: &Npdu) {
    pdu(pen, r);
    routed(pen, r, h);
    if r.apdu() != 1 {
        invoke(pen, r);
    }
}
