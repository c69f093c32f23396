// Numbers that fit 64 bits, as those of most sensors do: the digits of `wide`, with one division for each.
ghost use Rattle.std.specs.Prelude.{◌≡◌, true, ◌+◌, ◌*◌, ◌≤◌, ◌<◌};
ghost use Rattle.decimals.specs.Narrow.{Reaches, Quotient, Power, Fits, Growing, Grown, Ready};

use crate::Binary;
use crate::digits::{self, Decimal, Figure, Ratio};

// r / s is the number, and plus / s and minus / s half the way to its neighbours.
#[derive(Drop)]
struct Narrow {
    r: u64,
    s: u64,
    plus: u64,
    minus: u64,
    even: bool,
    ghost ready: { Ready r s plus minus },
}

// What a number is held against, and where the point stands then.
#[derive(Drop)]
struct Whole {
    s: u64,
    point: usize,
}

// A digit, and what is left.
#[derive(Drop)]
struct Part {
    digit: u8,
    rest: u64,
}

// Whether t reaches s. An even number owns its bounds.
fn reaches(t: u64, s: u64, even: bool) -> bool
    ensures { Reaches t s result }
{
    if even { s <= t } else { s < t }
}

// How often s goes into r.
fn divide(r: u64, s: u64) -> Part
    requires { r < 10 * s }
    ensures { Quotient r s result.digit result.rest }
{
    Part {
        digit: (r / s) as u8,
        rest: r % s,
    }
}

// Two to a number.
fn power(bits: usize) -> u64
    requires { bits ≤ 60 }
    ensures { Power bits result }
{
    1u64 << bits
}

// The whole grows by tens until the number, with half the way to the next, is below it.
fn grow(near: u64, s: u64, even: bool) -> Whole
    requires { Growing near s }
    ensures { Grown near result.s }
{
    let mut t = s;
    let mut point: usize = 400;
    // Stays: (d) it ends by what has grown, not by a count.
    while reaches(near, t, even) {
        t *= 10;
        point += 1;
    }
    Whole { s: t, point }
}

// Whether a number fits, and is at least 2^-16: then at most four zeros stand between the point and its digits.
pub fn fits(b: &Binary) -> bool
    ensures { result ≡ true → Fits b.now.m b.now.up b.now.down }
{
    b.up <= 30
        && b.down <= 58
        && power(b.down + 2) / 262144 <= b.m
        && b.m <= 72057594037927936 / power(b.up + 2)
}

impl Ratio for Narrow {
    // Zeros in front are digits here.
    fn figure(&mut self) -> Figure {
        let Part { digit, rest } = divide(self.r * 10, self.s);
        let plus = self.plus * 10;
        let minus = self.minus * 10;
        let near = rest + plus;
        // Most digits stand clear of both bounds.
        if rest <= minus || self.s <= near {
            let low = reaches(minus, rest, self.even);
            let high = reaches(near, self.s, self.even);
            if low || high {
                return digits::last(digit, low, high, (rest * 2).cmp(&self.s));
            }
        }
        self.r = rest;
        self.plus = plus;
        self.minus = minus;
        Figure { digit, last: false }
    }
}

// The decimal of a number that fits.
pub fn finite(b: &Binary) -> Decimal
    requires { Fits b.now.m b.now.up b.now.down }
{
    let r = b.m * power(b.up + 2);
    let plus = power(b.up + 1);
    let minus = power(b.nearest);
    let even = b.m % 2 == 0;
    let whole = grow(r + plus, power(b.down + 2), even);
    let mut ratio = Narrow {
        r,
        s: whole.s,
        plus,
        minus,
        even,
    };
    Decimal::shortest(&mut ratio, whole.point)
}
