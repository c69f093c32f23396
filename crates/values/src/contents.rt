// The contents of an application item as text, by its type.
use crate::long;
use words::Pen;
use words::names::{BOOLEANS, OBJECTS};

// Contents of at most four octets as a number.
fn whole(c: &[u8]) -> u32 {
    if 4 < c.len() {
        return 0;
    }
    octets::value(c, 0, c.len())
}

// The same in two's complement.
fn signed(c: &[u8]) -> i32 {
    match *c {
        [a] => i32::from(a.cast_signed()),
        [a, b] => i32::from(i16::from_be_bytes([a, b])),
        [a, b, c] => i32::from_be_bytes([a, b, c, 0]) >> 8,
        [a, b, c, d] => i32::from_be_bytes([a, b, c, d]),
        _ => 0,
    }
}

fn real(pen: &mut Pen, c: &[u8]) {
    if c.len() == 4 {
        let mut text = [0; 40];
        let n = decimals::real(c, &mut text);
        pen.put(&text[..n]);
    }
}

fn double(pen: &mut Pen, c: &[u8]) {
    if c.len() == 8 {
        let mut text = [0; 40];
        let n = decimals::double(c, &mut text);
        pen.put(&text[..n]);
    }
}

// A part of a date or a time: a word, or a number of two digits at least.
#[derive(Clone, Copy)]
enum Part {
    Word(&'static str),
    Number(u16),
}

impl Part {
    // Put without a format, which costs some hundred instructions.
    fn put(self, pen: &mut Pen) {
        match self {
            Part::Word(word) => pen.put(word.as_bytes()),
            Part::Number(n) => {
                if n < 10 {
                    pen.one(b'0');
                }
                pen.number(n);
            }
        }
    }
}

// 255 is any.
fn any(x: u8) -> Part {
    match x {
        255 => Part::Word("*"),
        _ => Part::Number(u16::from(x)),
    }
}

fn year(x: u8) -> Part {
    match x {
        255 => Part::Word("*"),
        _ => Part::Number(u16::from(x) + 1900),
    }
}

fn month(x: u8) -> Part {
    match x {
        13 => Part::Word("odd"),
        14 => Part::Word("even"),
        _ => any(x),
    }
}

fn day(x: u8) -> Part {
    match x {
        32 => Part::Word("last"),
        33 => Part::Word("odd"),
        34 => Part::Word("even"),
        _ => any(x),
    }
}

// A day of the week that is not said is no word.
fn weekday(x: u8) -> &'static str {
    match x {
        1 => " Monday",
        2 => " Tuesday",
        3 => " Wednesday",
        4 => " Thursday",
        5 => " Friday",
        6 => " Saturday",
        7 => " Sunday",
        _ => "",
    }
}

// Year, month, day and weekday; `*` is any.
fn date(pen: &mut Pen, c: &[u8]) {
    if let [y, m, d, w] = *c {
        year(y).put(pen);
        pen.one(b'-');
        month(m).put(pen);
        pen.one(b'-');
        day(d).put(pen);
        pen.put(weekday(w).as_bytes());
    }
}

// Hour, minute, second and hundredths; `*` is any.
fn time(pen: &mut Pen, c: &[u8]) {
    if let [h, m, s, hundredths] = *c {
        any(h).put(pen);
        pen.one(b':');
        any(m).put(pen);
        pen.one(b':');
        any(s).put(pen);
        pen.one(b'.');
        any(hundredths).put(pen);
    }
}

// An object's type by name, and its instance.
fn object(pen: &mut Pen, c: &[u8]) {
    let v = whole(c);
    write!(
        pen,
        "{} {}",
        OBJECTS.name(u64::from(v >> 22)),
        v & 0x3F_FFFF
    );
}

// The contents of an application item; `table`: as a cell of a table. A boolean is in its tag.
pub fn text(pen: &mut Pen, number: u8, value: u8, c: &[u8], table: bool) {
    match number {
        0 => pen.put(b"null"),
        1 => write!(pen, "{}", BOOLEANS.name(u64::from(value))),
        3 => write!(pen, "{}", signed(c)),
        4 => real(pen, c),
        5 => double(pen, c),
        6 => long::octets(pen, c),
        7 => long::characters(pen, c, table),
        8 => long::bits(pen, c),
        10 => date(pen, c),
        11 => time(pen, c),
        12 => object(pen, c),
        _ => pen.number(whole(c)),
    }
}
