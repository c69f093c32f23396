// Words on a line: text, numbers, and the standard's names for numbers, put into a lent area.
#![tactic(auto)]

pub mod names;

ghost use Rattle.std.specs.Prelude.{◌≡◌, ◌+◌, ◌<◌, ◌≤◌, length, min};

use crate::names::Name;
use std::fmt;

static DIGITS: [u8; 16] = *b"0123456789ABCDEF";

// An area to write in, and the place where the next octet goes.
#[derive(Drop)]
pub struct Pen<'a> {
    out: &'a mut [u8],
    at: usize,
    ghost inside: { at ≤ length out.now },
}

impl<'a> Pen<'a> {
    // A pen from a place of an area on; from the area's end where there is no such place.
    pub fn new(out: &'a mut [u8], at: usize) -> Pen<'a>
        ensures { result.at ≡ min at (length out.old) }
    {
        let at = at.min(out.len());
        Pen { out, at }
    }

    // The place after what was written.
    pub fn at(&self) -> usize
        ensures place { result ≡ self.now.at }
        ensures within { result ≤ length self.now.out.now }
    {
        self.at
    }

    // How many octets the area has from there on.
    pub fn room(&self) -> usize
        ensures { result + self.now.at ≡ length self.now.out.now }
    {
        self.out.len() - self.at
    }

    // What was written, from the area's front on.
    pub fn written(&self) -> &[u8]
        ensures { length result.now ≡ self.now.at }
    {
        &self.out[..self.at]
    }

    // Octets; what does not fit is not written at all.
    #[inline]
    pub fn put(&mut self, octets: &[u8])
        ensures fits { length octets.now + self.old.at ≤ length self.old.out.now → self.new.at ≡ self.old.at + length octets.now }
        ensures full { length self.old.out.now < length octets.now + self.old.at → self.new.at ≡ self.old.at }
    {
        if octets.len() <= self.room() {
            let end = self.at + octets.len();
            self.out[self.at..end].copy_from_slice(octets);
            self.at = end;
        }
    }

    // One octet.
    #[inline]
    pub fn one(&mut self, x: u8)
        ensures { self.new.at ≡ min (self.old.at + 1) (length self.old.out.now) }
    {
        if self.at < self.out.len() {
            self.out[self.at] = x;
            self.at += 1;
        }
    }

    // An octet as two hexadecimal digits.
    pub fn hex(&mut self, x: u8)
        ensures { self.old.at ≤ self.new.at }
    {
        self.one(DIGITS[usize::from(x / 16)]);
        self.one(DIGITS[usize::from(x % 16)]);
    }

    // A number in decimal, as `{}` writes it. It, names and stations are most of what is said of a trunk, and a format costs some hundred instructions.
    pub fn number<N: Into<u64>>(&mut self, n: N)
        ensures { self.old.at ≤ self.new.at }
    {
        let n = n.into();
        if n < 10 {
            return self.one(b'0' + n as u8);
        }
        self.put(itoa::Buffer::new().format(n).as_bytes());
    }

    // A number by its name, as `{}` writes it.
    pub fn name(&mut self, n: Name)
        ensures { self.old.at ≤ self.new.at }
    {
        if n.name.is_empty() {
            self.put(n.own.as_bytes());
            return self.number(n.number);
        }
        self.put(n.name.as_bytes());
    }

    // A station's number; 255 is all of them.
    pub fn station(&mut self, n: u64)
        ensures { self.old.at ≤ self.new.at }
    {
        match n {
            255 => self.put(b"all"),
            _ => self.number(n),
        }
    }

    // What `write!` calls: nothing fails, what does not fit is left out.
    pub fn write_fmt<D: fmt::Display + Drop>(&mut self, text: D) {
        let _ = fmt::Write::write_fmt(self, text);
    }
}

impl fmt::Write for Pen<'_> {
    fn write_str(&mut self, s: &str) -> fmt::Result {
        self.put(s.as_bytes());
        Ok(())
    }
}
