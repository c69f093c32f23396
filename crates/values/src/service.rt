// A service's parameters in words.
use crate::carried::Held;
use crate::{carried, item, list, span};
use items::Unlisted;
use octets::Refusal;
use services::{Fault, IAm, Service, Target, WhoIs};
use words::Pen;
use words::names::{CLASSES, CODES, OBJECTS, PROPERTIES, REFUSALS, SEGMENTATIONS};

// An object, its property and, where there is one, the index in brackets.
fn target(pen: &mut Pen, t: Target) {
    pen.name(OBJECTS.name(u64::from(t.object)));
    pen.one(b' ');
    pen.number(t.instance);
    pen.one(b' ');
    pen.name(PROPERTIES.name(u64::from(t.property)));
    if t.indexed {
        write!(pen, "[{}]", t.index);
    }
}

// A value's items, from the records that `items::list` writes of them.
fn listed(pen: &mut Pen, s: &[u8], records: &mut [u8]) {
    match items::list(s, records) {
        Ok(n) => list::text(pen, s, item::laid(records, n)),
        // Not met: room for 2,048 records is lent.
        Err(Unlisted::Small(_)) => refused(pen, Refusal::TooSmall, s),
        Err(Unlisted::Refused(x)) => refused(pen, x, s),
    }
}

// A property, its value and the priority to write it with, where there is one.
fn held(pen: &mut Pen, h: Held, s: &[u8], records: &mut [u8]) {
    target(pen, h.target);
    pen.put(b" = ");
    listed(pen, span(s, h.value.at, h.value.len), records);
    if let Some(priority) = h.priority {
        write!(pen, ", priority {priority}");
    }
}

fn who_is(pen: &mut Pen, w: WhoIs) {
    if w.limited {
        write!(pen, "devices {} to {}", w.low, w.high);
    } else {
        pen.put(b"every device");
    }
}

fn i_am(pen: &mut Pen, m: IAm) {
    let segmentation = SEGMENTATIONS.name(u64::from(m.segmentation));
    write!(
        pen,
        "device {}, vendor {}, APDUs to {} octets, {segmentation}",
        m.instance, m.vendor, m.longest
    );
}

fn fault(pen: &mut Pen, f: Fault) {
    write!(
        pen,
        "class {}, code {}",
        CLASSES.name(u64::from(f.class)),
        CODES.name(u64::from(f.code))
    );
}

// Parameters of a service that is not read here.
fn other(pen: &mut Pen, s: &[u8]) {
    write!(pen, "{} parameter octets", s.len());
}

// Parameters against their service's layout.
fn refused(pen: &mut Pen, x: Refusal, s: &[u8]) {
    other(pen, s);
    let number = x.number();
    write!(pen, ", {number}: {}", REFUSALS.name(u64::from(number)));
}

fn said(pen: &mut Pen, v: Service, s: &[u8], records: &mut [u8]) {
    if let Some(h) = carried::of(v) {
        return held(pen, h, s, records);
    }
    match v {
        Service::ReadProperty(t) => target(pen, t),
        Service::WhoIs(w) => who_is(pen, w),
        Service::IAm(m) => i_am(pen, m),
        Service::Error(f) => fault(pen, f),
        Service::ReadPropertyAck(_) | Service::WriteProperty(_) => {}
    }
}

// Whether a PDU of this kind and choice is one of the six services: of any other reading would say 43, after it went through all tags.
fn known(kind: u8, choice: u8) -> bool {
    match kind {
        1 => choice == 0 || choice == 8,
        3 => choice == 12,
        _ => choice == 12 || choice == 15,
    }
}

// The parameters, their tags good, of a PDU of this kind (0 confirmed request, 1 unconfirmed, 3 complex ack, 5 error) and choice. `records`: an area
// for the records of a value's items, lent; one for 2,048 of them is enough for all parameters that are read.
pub fn text(pen: &mut Pen, kind: u8, choice: u8, s: &[u8], records: &mut [u8]) {
    if !known(kind, choice) {
        return other(pen, s);
    }
    match services::read(kind, choice, s) {
        Ok(v) => said(pen, v, s, records),
        Err(x) => refused(pen, x, s),
    }
}
