// What the arguments ask for.
use apdu::Edition;
use std::env::{Env, FillError};
use std::fs;
use std::fs::Files;

// `file`: the number of the argument that names the file; none for standard input.
#[derive(Clone, Copy)]
pub struct Wish {
    pub csv: bool,
    pub octets: bool,
    pub edition: Edition,
    pub file: Option<usize>,
}

impl Wish {
    // One word more; false where it is wrong. One that is longer than its area has no word, but its first octet.
    fn word(&mut self, i: usize, buf: &[u8; 4096], n: usize) -> bool {
        match show::part(buf, 0, n) {
            b"--csv" => self.csv = true,
            b"--octets" => self.octets = true,
            b"--later" => self.edition = Edition::Later,
            _ if buf[0] == b'-' || self.file.is_some() => return false,
            _ => self.file = Some(i),
        }
        true
    }
}

// None where a word is wrong.
pub fn read(rt: &impl Env) -> Option<Wish> {
    let mut w = Wish {
        csv: false,
        octets: false,
        edition: Edition::First,
        file: None,
    };
    for i in 1..usize::MAX {
        let mut buf = [0u8; 4096];
        let n = match rt.arg(i, &mut buf) {
            Ok(n) => n,
            Err(FillError::TooLong) => 0,
            Err(FillError::NotPresent) => break,
        };
        if !w.word(i, &buf, n) {
            return None;
        }
    }
    Some(w)
}

pub fn say(rt: &impl Eprint, s: &str) {
    let _ = rt.eprint(s);
}

// What --later means, to both programs.
pub fn later(rt: &impl Eprint) {
    say(
        rt,
        "--later: confirmed requests by the later edition: bits 6 to 4 of their second octet are the segments accepted\n(by that of 1995, as without it, they are zero bits: set, they are refused, 22).\n",
    );
}

pub fn usage(rt: &impl Eprint) {
    say(
        rt,
        "usage: listen [--later] [--octets] [FILE]    a line for each report, with --octets its 16 octets too\n",
    );
    say(
        rt,
        "       listen [--later] --csv [FILE]         a row for each value that was read or written\n",
    );
    later(rt);
    say(
        rt,
        "FILE holds trunk octets as they came; without one they are read from standard input.\n",
    );
    say(
        rt,
        "Such a recording has no silences, so a frame that was cut off hides the good ones behind it.\n",
    );
    say(
        rt,
        "A recording with silences in it (records of four octets) is read by replay FILE.\n",
    );
}

// The file to read; one that does not open is said.
pub fn open<R: Files + Env + Eprint>(rt: &R, file: usize) -> Option<R::File> {
    let mut buf = [0u8; 4096];
    let n = rt.arg(file, &mut buf).unwrap_or(0);
    let Ok(name) = str::from_utf8(show::part(&buf, 0, n)) else {
        say(rt, "the file's name is no UTF-8\n");
        return None;
    };
    match fs::open(rt, name) {
        Ok(f) => Some(f),
        Err(e) => {
            let _ = eprintln!(rt; "{name}: {e}");
            None
        }
    }
}
