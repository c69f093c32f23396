// A line of the text: its name, its numbers, its groups of octets.

#[derive(Clone, Copy)]
pub struct Line<'a> {
    pub text: &'a [u8],
}

impl<'a> Line<'a> {
    // Its first word; an octet of 0 ends one too.
    pub fn name(self) -> &'a [u8] {
        self.text
            .split(|c| *c == 0 || *c == b' ')
            .next()
            .unwrap_or(b"")
    }

    // The decimal number that is its word behind so many others, 0 where there is none.
    pub fn number(self, k: usize) -> usize {
        self.text.split(|c| *c == b' ').nth(k).map_or(0, number)
    }

    // The number's low octet.
    pub fn octet(self, k: usize) -> u8 {
        (self.number(k) % 256) as u8
    }

    // The second as the edition of a fresh state or of a header: 0 is 1995, and so is none.
    pub fn edition(self) -> u8 {
        self.octet(2)
    }

    // What stands behind its first stroke, up to its second; or all behind its second.
    pub fn group(self, k: usize) -> &'a [u8] {
        self.text.splitn(3, |c| *c == b'/').nth(k).unwrap_or(b"")
    }
}

// The octet at a place, 0 where there is none.
fn at(s: &[u8], i: usize) -> u8 {
    s.get(i).copied().unwrap_or(0)
}

// One more decimal digit behind a number; the number as it is where it would not fit.
fn ten(n: usize, c: u8) -> usize {
    if n <= 1844674407370955160 {
        n * 10 + (c % 16) as usize
    } else {
        n
    }
}

// The decimal number at the front of a text.
fn number(s: &[u8]) -> usize {
    let mut n = 0;
    for c in s {
        if !c.is_ascii_digit() {
            break;
        }
        n = ten(n, *c);
    }
    n
}

// The value of a hexadecimal digit in capitals.
fn digit(c: u8) -> u8 {
    if c < 58 { c % 16 } else { (c % 16 + 9) % 16 }
}

// The octet that the two digits at the front are.
fn octet(s: &[u8]) -> u8 {
    digit(at(s, 0)) % 16 * 16 + digit(at(s, 1)) % 16
}

// How many times it is meant: as the number behind a star says, else once.
fn times(s: &[u8]) -> usize {
    match s.split_at_checked(3) {
        Some((word, count)) if word[2] == b'*' => number(count),
        _ => 1,
    }
}

// The octets of all words, laid; how many there are. A word's text goes on to the end.
pub fn words(s: &[u8], out: &mut [u8]) -> usize {
    let mut n: usize = 0;
    for i in 0..s.len() {
        if (i == 0 || s[i - 1] == b' ') && 48 <= s[i] {
            let many = times(&s[i..]).min(out.len().saturating_sub(n));
            lay_many(out, n, octet(&s[i..]), many);
            n = n.saturating_add(many);
        }
    }
    n
}

// An octet laid so many times from a place on, as far as there is room.
fn lay_many(out: &mut [u8], to: usize, x: u8, times: usize) {
    for o in out.iter_mut().skip(to).take(times) {
        *o = x;
    }
}

// Octets laid from a place on, as far as there is room.
pub fn lay(out: &mut [u8], to: usize, s: &[u8]) {
    for (o, x) in out.iter_mut().skip(to).zip(s) {
        *o = *x;
    }
}
