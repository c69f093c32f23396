// Contents of any length as text: octets, characters and bits. Where fewer than 96 octets of the area are left, the rest is cut and counted.
ghost use Rattle.std.specs.Prelude.{◌≤◌};

use words::Pen;

const ROOM: usize = 96;

// What is said of contents that were cut.
pub fn left(pen: &mut Pen, n: usize) {
    write!(pen, ".. {n} octets left");
}

// Octets as hexadecimal digits.
pub fn octets(pen: &mut Pen, c: &[u8]) {
    for (i, x) in c.iter().enumerate() {
        if pen.room() < ROOM {
            return left(pen, c.len() - i);
        }
        pen.hex(*x);
    }
}

// A character of a quoted text: controls as \xNN; a quote is written twice in a table and behind a backslash in a line, as is a backslash in both.
fn character(pen: &mut Pen, x: u8, table: bool) {
    match x {
        0..=31 | 127 => {
            pen.put(b"\\x");
            pen.hex(x);
        }
        b'"' if table => pen.put(b"\"\""),
        b'"' | b'\\' => pen.put(&[b'\\', x]),
        _ => pen.one(x),
    }
}

// Characters of one octet each in quotes: ASCII and UTF-8 as they stand.
fn plain(pen: &mut Pen, c: &[u8], table: bool) {
    pen.one(b'"');
    for (i, x) in c.iter().enumerate() {
        if pen.room() < ROOM {
            pen.put(b"\" ");
            return left(pen, c.len() - i);
        }
        character(pen, *x, table);
    }
    pen.one(b'"');
}

// A text: set 0 in quotes, another set as its number and octets.
pub fn characters(pen: &mut Pen, c: &[u8], table: bool) {
    match c {
        [] => {}
        [0, text @ ..] => plain(pen, text, table),
        [set, text @ ..] => {
            write!(pen, "set {set}: ");
            octets(pen, text);
        }
    }
}

// The first n bits of an octet, as digits.
fn digits(pen: &mut Pen, x: u8, n: usize)
    requires { n ≤ 8 }
{
    let mut digits = [b'0'; 8];
    for k in 0..8 {
        digits[k] = b'0' + (x << k) / 128;
    }
    pen.put(&digits[..n]);
}

// Bits, the first first; as many of the last octet as are used.
pub fn bits(pen: &mut Pen, c: &[u8]) {
    let [unused, octets @ ..] = c else {
        return;
    };
    for (i, x) in octets.iter().enumerate() {
        if pen.room() < ROOM {
            return left(pen, octets.len() - i);
        }
        if i + 1 < octets.len() {
            digits(pen, *x, 8);
        } else {
            digits(pen, *x, usize::from(8 - unused % 8));
        }
    }
}

// Octets as hexadecimal digits, each behind a space.
pub fn row(pen: &mut Pen, c: &[u8]) {
    for x in c {
        pen.one(b' ');
        pen.hex(*x);
    }
}
