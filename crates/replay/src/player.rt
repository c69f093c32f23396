// The replay between two calls, and what is told of a call.
use apdu::Edition;
use frames::{Link, Receiver};
use lines::Report;
use listening::output::Output;
use octets::Refusal;
use playback::lent;
use rebuild::Slots;

// `edition`: chosen once, for the whole file; `records`: eaten so far, from the file's first on; `refused`: whether one of them ended the replay;
// `items`: an area for the records of a value's items, as `listening` has it.
#[derive(Drop)]
pub struct Player {
    edition: Edition,
    link: Link,
    slots: Slots,
    store: [u8; 501],
    area: [u8; 65536],
    records: u64,
    refused: bool,
    items: [u8; 24576],
    pub out: Output,
}

impl Player {
    pub fn new(edition: Edition) -> Player {
        Player {
            edition,
            link: Receiver::FRESH.link,
            slots: Slots::fresh(),
            store: [0; 501],
            area: [0; 65536],
            records: 0,
            refused: false,
            items: [0; 24576],
            out: Output::new(),
        }
    }

    // Whole records, none behind a refused one: what a call leaves after a report is offered again. Each report eats a record, so no more calls than
    // octets are needed.
    pub fn piece(&mut self, rt: &(impl Print + Eprint), s: &[u8]) {
        let mut rest = s;
        for _ in 0..s.len() {
            if self.refused || self.out.stopped() {
                break;
            }
            let mut report = [0u8; 16];
            let w = lent::replay(
                self.edition,
                self.link,
                self.slots,
                &mut self.store,
                rest,
                &mut report,
                &mut self.area,
            );
            self.link = w.link;
            if w.moved {
                self.slots = w.slots;
            }
            self.records = self.records.wrapping_add(w.eaten as u64);
            if let Err(e) = w.answer {
                self.refuse(rt, e);
                break;
            }
            if !w.reported {
                break;
            }
            self.tell(rt, &report);
            rest = rest
                .get(w.eaten.saturating_mul(playback::SIZE)..)
                .unwrap_or(b"");
        }
    }

    // The record that ends the replay, by its number in the file. No other number than 67 comes: the areas have their sizes, the state was fresh.
    fn refuse(&mut self, rt: &(impl Print + Eprint), e: Refusal) {
        self.refused = true;
        let number = e.number();
        let record = self.records.wrapping_add(1);
        let mut pen = self.out.pen();
        write!(
            pen,
            "record {record}: refused, {number}: kind above 2, third or fourth octet not 0, or a silence with a value\n"
        );
        let at = pen.at();
        self.out.told(rt, at);
    }

    // What is told of a report.
    fn tell(&mut self, rt: &(impl Print + Eprint), octets: &[u8; 16]) {
        let report = Report {
            octets,
            data: &self.store,
            area: &self.area,
        };
        let mut pen = self.out.pen();
        report.recorded(&mut pen, self.records, &mut self.items);
        let at = pen.at();
        self.out.told(rt, at);
    }
}
