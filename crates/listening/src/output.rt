// What is told is gathered in an area, and written where half of it is full, where a piece is done, and at the end.
use words::Pen;

// `stopped`: nothing more can be written.
#[derive(Drop)]
pub struct Output {
    octets: [u8; 131072],
    at: usize,
    stopped: bool,
}

impl Output {
    pub fn new() -> Output {
        Output {
            octets: [0; 131072],
            at: 0,
            stopped: false,
        }
    }

    // To write on behind what is gathered.
    pub fn pen(&mut self) -> Pen<'_> {
        let at = self.at;
        Pen::new(&mut self.octets, at)
    }

    pub fn stopped(&self) -> bool {
        self.stopped
    }

    // Gathered up to this place.
    pub fn keep(&mut self, at: usize) {
        self.at = at;
    }

    // Writes out what is gathered; an output that takes no more is said, and the program stops.
    pub fn flush(&mut self, rt: &(impl Print + Eprint)) {
        if !self.stopped {
            if let Err(e) = rt.write_all(show::part(&self.octets, 0, self.at)) {
                let _ = eprintln!(rt; "standard output: {e}");
                self.stopped = true;
            }
        }
        self.at = 0;
    }

    // Gathered up to this place, and written where that is half of the area.
    pub fn told(&mut self, rt: &(impl Print + Eprint), at: usize) {
        self.at = at;
        if 65536 <= at {
            self.flush(rt);
        }
    }
}

// Octets to standard error; all that is said there is plain text.
pub fn aside(rt: &impl Eprint, s: &[u8]) {
    if let Ok(t) = str::from_utf8(s) {
        let _ = rt.eprint(t);
    }
}
