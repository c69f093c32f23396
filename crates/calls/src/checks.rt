// The check sums, whole and in parts; and the receiver by value.
use crate::areas::{Area, INPUT};
use crate::text::Line;
use crate::{print, receiver};
use hitchbarley::sum_calls;

// The calls over octets alone.
#[derive(Clone, Copy)]
pub enum Call {
    HeaderCheck,
    HeaderRun,
    DataCheck,
    DataRun,
    Receiver,
}

impl Call {
    pub fn named(name: &[u8]) -> Option<Call> {
        match name {
            b"header-check" => Some(Call::HeaderCheck),
            b"header-run" => Some(Call::HeaderRun),
            b"data-check" => Some(Call::DataCheck),
            b"data-run" => Some(Call::DataRun),
            b"receiver" => Some(Call::Receiver),
            _ => None,
        }
    }

    fn make(self, rt: &impl Print, register: usize, octets: &[u8]) {
        match self {
            Call::HeaderCheck => octet(rt, sum_calls::hb_header_check(octets)),
            Call::HeaderRun => octet(rt, sum_calls::hb_header_run((register % 256) as u8, octets)),
            Call::DataCheck => pair(rt, sum_calls::hb_data_check(octets)),
            Call::DataRun => pair(
                rt,
                sum_calls::hb_data_run((register % 65536) as u16, octets),
            ),
            Call::Receiver => receiver::all(rt, octets),
        }
    }

    // In a frame of its own, which the array takes.
    #[inline(never)]
    pub fn line(self, rt: &impl Print, line: Line) {
        let mut octets = [0; INPUT];
        let octets = Area::of(&mut octets, line.group(1));
        self.make(rt, line.number(1), octets.shown());
    }
}

fn octet(rt: &impl Print, x: u8) {
    show::text(rt, b"  ");
    show::octet(rt, x);
    print::end(rt);
}

// Two octets, the high one first.
fn pair(rt: &impl Print, x: u16) {
    let [high, low] = x.to_be_bytes();
    show::text(rt, b"  ");
    show::octet(rt, high);
    show::octet(rt, low);
    print::end(rt);
}
