// The listener between two calls: what it hears by, and what it counts.
use apdu::Edition;
use collector::lent::{self, Hushed};
use frames::{Link, Phase, Receiver};
use rebuild::Slots;

// `edition`: chosen once, for the whole input; `octets`: all that came; `framed`: those of frames, damaged ones too; `counts`: reports by kind.
#[derive(Drop)]
pub struct Ear {
    edition: Edition,
    link: Link,
    slots: Slots,
    pub store: [u8; 501],
    pub area: [u8; 65536],
    pub octets: u64,
    pub framed: u64,
    pub counts: [u64; 12],
}

// What one call eats of a piece, and its report.
#[derive(Clone, Copy)]
pub struct Heard {
    pub eaten: usize,
    pub report: Option<[u8; 16]>,
}

impl Ear {
    // A fresh one by an edition.
    pub fn new(edition: Edition) -> Ear {
        Ear {
            edition,
            link: Receiver::FRESH.link,
            slots: Slots::fresh(),
            store: [0; 501],
            area: [0; 65536],
            octets: 0,
            framed: 0,
            counts: [0; 12],
        }
    }

    // What one call eats. It refuses nothing: the areas have their sizes, the state was fresh.
    pub fn feed(&mut self, rest: &[u8]) -> Heard {
        let mut report = [0u8; 16];
        let Ok(f) = lent::feed(
            self.edition,
            self.link,
            self.slots,
            &mut self.store,
            rest,
            &mut report,
            &mut self.area,
        ) else {
            return Heard {
                eaten: 0,
                report: None,
            };
        };
        self.link = f.link;
        if f.moved {
            self.slots = f.slots;
        }
        self.octets = self.octets.wrapping_add(f.eaten as u64);
        if !f.reported {
            return Heard {
                eaten: f.eaten,
                report: None,
            };
        }
        self.count(report[0]);
        self.framed = self
            .framed
            .wrapping_add(length(report[0], report[1], f.link));
        Heard {
            eaten: f.eaten,
            report: Some(report),
        }
    }

    // The end of the input, and its report.
    pub fn silence(&mut self) -> Option<[u8; 16]> {
        let mut report = [0u8; 16];
        self.framed = self.framed.wrapping_add(begun(self.link));
        match lent::silence(self.link, self.slots, &mut report) {
            Ok(Hushed { reported: true, .. }) => {
                self.count(report[0]);
                Some(report)
            }
            _ => None,
        }
    }

    // One more of a report's kind.
    fn count(&mut self, kind: u8) {
        let k = usize::from(kind);
        if k < 12 {
            self.counts[k] = self.counts[k].wrapping_add(1);
        }
    }
}

// The octets of the frame that a report ends: a header damaged by its check or its length has no data.
fn length(kind: u8, number: u8, link: Link) -> u64 {
    if kind == 2 && number < 3 {
        return 8;
    }
    match frames::length_of(link.head) {
        0 => 8,
        n => u64::from(n) + 10,
    }
}

// The octets of a frame that a silence cuts off.
fn begun(link: Link) -> u64 {
    match link.phase {
        Phase::Header(n) => u64::from(n) + 2,
        Phase::Data(n) => u64::from(n) + 8,
        Phase::Hunting | Phase::Preamble => 0,
    }
}
