// Listens: reads trunk octets from a file or standard input, as a capture or a serial port hands them over, and prints a line for each report,
// or with --csv a row for each value. Raw octets carry no silences, so the end of the input is the only one that is heard.
#![tactic(auto)]

mod closing;
mod ear;
pub mod output;
pub mod wish;

use ear::Ear;
use lines::Report;
use output::Output;
use std::env::Env;
use std::fs::Files;
use std::io::Read;
use wish::Wish;

// A listener at work. `records`: an area for the records of a value's items, 12 octets each: for as many items as all parameters that are read may
// have, 2,048.
#[derive(Drop)]
struct Listener {
    csv: bool,
    octets: bool,
    ear: Ear,
    records: [u8; 24576],
    out: Output,
}

// The rows of a report; where the area is full it is written out, and the rows go on: with an item a turn, so no more turns than items are needed.
fn rows(
    rt: &(impl Print + Eprint),
    heard: u64,
    report: Report,
    records: &mut [u8; 24576],
    out: &mut Output,
) {
    let mut from = 0;
    for _ in 0..2049 {
        let mut pen = out.pen();
        let next = report.rows(&mut pen, heard, from, records);
        let at = pen.at();
        out.told(rt, at);
        match next {
            Some(next) if !out.stopped() => from = next,
            _ => return,
        }
    }
}

impl Listener {
    fn new(w: Wish) -> Listener {
        Listener {
            csv: w.csv,
            octets: w.octets,
            ear: Ear::new(w.edition),
            records: [0; 24576],
            out: Output::new(),
        }
    }

    // A table begins with its first line.
    fn head(&mut self) {
        if self.csv {
            let mut pen = self.out.pen();
            lines::table::head(&mut pen);
            let at = pen.at();
            self.out.keep(at);
        }
    }

    // The line or the rows of a report.
    fn tell(&mut self, rt: &(impl Print + Eprint), octets: &[u8; 16]) {
        let heard = self.ear.octets;
        let report = Report {
            octets,
            data: &self.ear.store,
            area: &self.ear.area,
        };
        if !self.csv {
            let mut pen = self.out.pen();
            report.line(&mut pen, heard, self.octets, &mut self.records);
            let at = pen.at();
            self.out.told(rt, at);
        } else if report.carries() {
            rows(rt, heard, report, &mut self.records, &mut self.out);
        }
    }

    // A piece: what a call leaves after a report is offered again. Each report eats an octet, so no more calls than octets are needed. What was told of
    // it is written out, so that a live trunk is seen as it speaks.
    fn piece(&mut self, rt: &(impl Print + Eprint), s: &[u8]) {
        let mut rest = s;
        for _ in 0..s.len() {
            let heard = self.ear.feed(rest);
            let Some(report) = heard.report else {
                break;
            };
            self.tell(rt, &report);
            if self.out.stopped() {
                break;
            }
            rest = rest.get(heard.eaten..).unwrap_or(b"");
        }
        self.out.flush(rt);
    }

    // All of the input, in more reads than any run has.
    fn all<R: Read>(&mut self, rt: &(impl Print + Eprint), input: &mut R) {
        let mut buf = [0u8; 65536];
        for _ in 0..u64::MAX {
            match input.read(&mut buf) {
                Ok(0) => break,
                Ok(n) => self.piece(rt, show::part(&buf, 0, n)),
                Err(x) => {
                    let _ = eprintln!(rt; "listen: reading: {x}");
                    break;
                }
            }
            if self.out.stopped() {
                break;
            }
        }
    }

    // The end of the input is a silence; then the closing line, which with --csv goes to standard error.
    fn end(&mut self, rt: &(impl Print + Eprint)) {
        if let Some(report) = self.ear.silence() {
            self.tell(rt, &report);
        }
        closing::line(rt, &self.ear, self.csv, &mut self.out);
    }
}

fn listen<R: Read>(rt: &(impl Print + Eprint), w: Wish, input: &mut R) {
    let mut listener = Listener::new(w);
    listener.head();
    listener.all(rt, input);
    listener.end(rt);
}

// Listens as the arguments ask for.
pub fn run<R: Print + Eprint + Env + Files + Input>(rt: &R) {
    let Some(w) = wish::read(rt) else {
        return wish::usage(rt);
    };
    match w.file {
        None => listen(rt, w, &mut rt.reader()),
        Some(file) => {
            if let Some(mut f) = wish::open(rt, file) {
                listen(rt, w, &mut f);
            }
        }
    }
}
