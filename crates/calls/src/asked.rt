// The calls over octets and records: each is made with every area that a line can lend.
use crate::areas::{Area, INPUT, OUTPUT};
use crate::print;
use crate::text::Line;
use hitchbarley::{header_calls, item_calls, service_calls};

#[derive(Clone, Copy)]
pub enum Call {
    NpduRead,
    NpduWrite,
    ApduRead,
    ApduWrite,
    ItemsList,
    ItemNext,
    ItemStep,
    ItemsWrite,
    ServiceWrite,
    ServiceRead,
}

impl Call {
    pub fn named(name: &[u8]) -> Option<Call> {
        match name {
            b"npdu-read" => Some(Call::NpduRead),
            b"npdu-write" => Some(Call::NpduWrite),
            b"apdu-read" => Some(Call::ApduRead),
            b"apdu-write" => Some(Call::ApduWrite),
            b"items-list" => Some(Call::ItemsList),
            b"item-next" => Some(Call::ItemNext),
            b"item-step" => Some(Call::ItemStep),
            b"items-write" => Some(Call::ItemsWrite),
            b"service-write" => Some(Call::ServiceWrite),
            b"service-read" => Some(Call::ServiceRead),
            _ => None,
        }
    }

    // The two about an APDU by the edition that the line says.
    fn make(self, line: Line, one: &[u8], two: &[u8], out: &mut [u8], n: &mut usize) -> u8 {
        match self {
            Call::NpduRead => header_calls::hb_npdu_read(one, out, n),
            Call::NpduWrite => header_calls::hb_npdu_write(one, out, n),
            Call::ApduRead => header_calls::hb_apdu_read(one, line.edition(), out, n),
            Call::ApduWrite => header_calls::hb_apdu_write(one, line.edition(), out, n),
            Call::ItemsList => item_calls::hb_items_list(one, out, n),
            Call::ItemNext => item_calls::hb_item_next(one, line.number(1), n),
            Call::ItemStep => item_calls::hb_item_step(one, line.number(1), out, n),
            Call::ItemsWrite => item_calls::hb_items_write(one, two, out, n),
            Call::ServiceWrite => service_calls::hb_service_write(one, two, out, n),
            Call::ServiceRead => {
                service_calls::hb_service_read(line.octet(1), line.octet(2), one, out)
            }
        }
    }

    // How many octets the line lends for output.
    fn size(self, line: Line) -> usize {
        match self {
            Call::ItemNext => 0,
            Call::ItemStep => line.number(2),
            Call::ServiceRead => line.number(3),
            _ => line.number(1),
        }
    }

    // The number that the call gives back.
    fn number(self, rt: &impl Print, n: usize) {
        match self {
            Call::NpduRead | Call::ApduRead | Call::ItemNext | Call::ItemStep => {
                print::named(rt, b" next ", n)
            }
            Call::ItemsList => print::named(rt, b" count ", n),
            Call::ServiceRead => {}
            _ => print::named(rt, b" wrote ", n),
        }
    }

    // The area that it was lent.
    fn area(self, rt: &impl Print, out: &[u8]) {
        match self {
            Call::NpduRead | Call::ApduRead | Call::ItemStep | Call::ServiceRead => {
                print::area(rt, b"  record", out)
            }
            Call::ItemsList => print::area(rt, b"  records", out),
            Call::ItemNext => {}
            _ => print::area(rt, b"  out", out),
        }
    }

    // With the line's octets; in a frame of its own, which the arrays take.
    #[inline(never)]
    pub fn line(self, rt: &impl Print, line: Line) {
        let mut one = [0; INPUT];
        let mut two = [0; INPUT];
        let mut out = [0xEE; OUTPUT];
        let one = Area::of(&mut one, line.group(1));
        let two = Area::of(&mut two, line.group(2));
        let mut out = Area::new(&mut out, self.size(line));
        let mut n: usize = 99;
        let r = self.make(line, one.shown(), two.shown(), out.lent(), &mut n);
        print::start(rt, r);
        self.number(rt, n);
        print::end(rt);
        self.area(rt, out.shown());
    }
}
