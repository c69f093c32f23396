// Reals and doubles as decimal text: the shortest decimal that reads back as the same number.
#![tactic(auto)]

mod digits;
mod limbs;
mod narrow;
mod text;
mod wide;

ghost use Rattle.std.specs.Prelude.{◌+◌, ◌≤◌, ◌<◌, length};

use crate::text::Text;

// A number m times two to (up - down), one of them 0; nearest: half the way to the neighbour below, as a power of two and in quarters of the last bit.
#[derive(Clone, Copy)]
struct Binary {
    m: u64,
    up: usize,
    down: usize,
    nearest: usize,
    ghost shift: { up + down ≤ 1100 },
    ghost neighbour: { nearest ≤ up + 1 },
}

// A type of numbers. hidden: the bit that is not sent; special: the exponent of what is no number; one: that of a number whose last bit is worth one; spare: bits kept beside the exponent's.
#[derive(Clone, Copy)]
struct Format {
    hidden: u64,
    special: u64,
    one: usize,
    spare: usize,
    ghost fraction: { (0 < hidden) × (hidden ≤ 4503599627370496) },
    ghost exponent: { special ≤ 1100 + one },
    ghost shift: { one ≤ 1100 },
    ghost room: { spare ≤ 64 },
}

const REAL: Format = Format {
    hidden: 8388608,
    special: 255,
    one: 150,
    spare: 35,
};

const DOUBLE: Format = Format {
    hidden: 4503599627370496,
    special: 2047,
    one: 1075,
    spare: 64,
};

impl Format {
    // A number from its fields; that of the least fraction has a nearer neighbour below.
    fn number(&self, exponent: u64, fraction: u64) -> Binary
        requires { (exponent ≤ self.now.special) × (fraction < self.now.hidden) }
    {
        let (m, e) = if exponent == 0 {
            (fraction, 1)
        } else {
            (fraction + self.hidden, exponent as usize)
        };
        let up = e.saturating_sub(self.one);
        let least = fraction == 0 && 1 < exponent;
        Binary {
            m,
            up,
            down: self.one.saturating_sub(e),
            nearest: if least { up } else { up + 1 },
        }
    }

    // The limbs that hold a number.
    fn limbs(&self, b: &Binary) -> usize
        ensures { result ≤ 40 }
    {
        (b.up + b.down + self.spare) / 32 + 1
    }

    // The text of a number's bits, from the front of an area.
    fn text(&self, bits: u64, out: &mut [u8]) -> usize
        requires { 40 ≤ length out.old }
        ensures { result ≤ 40 }
    {
        let fraction = bits % self.hidden;
        let front = bits / self.hidden;
        let exponent = front % (self.special + 1);
        let mut text = Text::new(out.first_chunk_mut().unwrap());
        if exponent == self.special && fraction != 0 {
            text.word(b"nan");
            return text.len();
        }
        if self.special < front {
            text.push(b'-');
        }
        if exponent == self.special {
            text.word(b"inf");
        } else if exponent == 0 && fraction == 0 {
            text.push(b'0');
        } else {
            let b = self.number(exponent, fraction);
            let decimal = if narrow::fits(&b) {
                narrow::finite(&b)
            } else {
                wide::finite(&b, self.limbs(&b))
            };
            text.decimal(&decimal);
        }
        text.len()
    }
}

// The text of a Real, four octets, from the front of an area; the answer is its length.
pub fn real(o: &[u8], out: &mut [u8]) -> usize
    requires { (4 ≤ length o.now) × (40 ≤ length out.old) }
    ensures { result ≤ 40 }
{
    REAL.text(u64::from(octets::value(o, 0, 4)), out)
}

// The text of a Double, eight octets, from the front of an area; the answer is its length.
pub fn double(o: &[u8], out: &mut [u8]) -> usize
    requires { (8 ≤ length o.now) × (40 ≤ length out.old) }
    ensures { result ≤ 40 }
{
    let high = u64::from(octets::value(o, 0, 4));
    let low = u64::from(octets::value(o, 4, 4));
    DOUBLE.text(high * 4294967296 + low, out)
}
