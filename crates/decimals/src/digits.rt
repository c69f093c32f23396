// The shortest digits of a number (Steele and White; Dragon4): a ratio is the number over a whole, with half the way to its neighbours beside it.
ghost use Rattle.std.specs.Prelude.{◌≤◌, ◌<◌, ◌+◌, ◌≡◌};

use crate::text;
use std::cmp::Ordering;

// A digit, and whether it ends the shortest decimal.
#[derive(Clone, Copy)]
pub struct Figure {
    pub digit: u8,
    pub last: bool,
    pub ghost decimal: { digit ≤ 9 },
}

// A number that gives its digits, one after the other.
pub trait Ratio {
    fn figure(&mut self) -> Figure;
}

// A decimal: 0.d1d2.. times ten to (point - 400). At most twenty digits are kept, where seventeen serve every double.
#[derive(Clone, Copy)]
pub struct Decimal {
    octets: [u8; 20],
    pub count: usize,
    pub point: usize,
    pub ghost kept: { count ≤ 20 },
}

impl Decimal {
    // Digits until one ends the shortest decimal.
    pub fn shortest<R: Ratio>(ratio: &mut R, point: usize) -> Decimal {
        let mut octets = [b'0'; 20];
        for k in 0..20 {
            let figure = ratio.figure();
            octets[k] = text::figure(figure.digit);
            if figure.last {
                return Decimal {
                    octets,
                    count: k + 1,
                    point,
                };
            }
        }
        Decimal {
            octets,
            count: 20,
            point,
        }
    }

    // The digit's octet at a place; past the last one a zero.
    pub fn shown(&self, i: usize) -> u8 {
        if i < 20 { self.octets[i] } else { b'0' }
    }
}

// One digit up.
fn up(d: u8) -> u8
    requires { d ≤ 9 }
    ensures { result ≤ 9 }
{
    if d < 9 { d + 1 } else { d }
}

// The nearer of a digit and the next, by how twice the rest compares with the whole; half way, the even one.
fn nearer(d: u8, half: Ordering) -> u8
    requires { d ≤ 9 }
    ensures { result ≤ 9 }
{
    match half {
        Ordering::Less => d,
        Ordering::Equal if d % 2 == 0 => d,
        _ => up(d),
    }
}

// The last digit: the one of the two that reads back, or the nearer where both do.
pub fn last(d: u8, low: bool, high: bool, half: Ordering) -> Figure
    requires { d ≤ 9 }
{
    let digit = match (low, high) {
        (_, false) => d,
        (false, true) => up(d),
        (true, true) => nearer(d, half),
    };
    Figure { digit, last: true }
}
