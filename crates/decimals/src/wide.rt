// Numbers of any size, by limbs: r / s is the number, and plus / s and minus / s half the way to its neighbours.
ghost use Rattle.std.specs.Prelude.{◌≤◌};
ghost use Rattle.decimals.specs.Narrow.{Exceeds};

use crate::Binary;
use crate::digits::{self, Decimal, Figure, Ratio};
use crate::limbs::Number;
use std::cmp::Ordering;

// Larger, or equal where equal will do: an even number owns its bounds.
fn exceeds(order: Ordering, even: bool) -> bool
    ensures { Exceeds order result }
{
    if even { order.is_ge() } else { order.is_gt() }
}

#[derive(Drop)]
struct Wide {
    r: Number,
    s: Number,
    plus: Number,
    minus: Number,
    even: bool,
}

impl Wide {
    // All in quarters of the last bit: r is four times the number, and the neighbours are half a bit away.
    fn new(b: &Binary, used: usize) -> Wide
        requires { used ≤ 40 }
    {
        let zero = Number {
            limbs: [0; 40],
            used,
        };
        let mut wide = Wide {
            r: zero,
            s: zero,
            plus: zero,
            minus: zero,
            even: b.m % 2 == 0,
        };
        wide.r.place(b.m, b.up + 2);
        wide.s.place(1, b.down + 2);
        wide.plus.place(1, b.up + 1);
        wide.minus.place(1, b.nearest);
        wide
    }

    // Ten times the number, and half the way to its neighbours with it.
    fn grow(&mut self) {
        self.r.scale(10);
        self.plus.scale(10);
        self.minus.scale(10);
    }

    // Whether t reaches s.
    fn whole(&self, t: &Number) -> bool {
        exceeds(t.compare(&self.s), self.even)
    }

    // How twice the number compares with s.
    fn half(&self) -> Ordering {
        let mut t = self.r;
        t.scale(2);
        t.compare(&self.s)
    }

    // Numbers of one and more: the whole grows by tens until the number is below it, even rounded up. Answers where the point stands then.
    fn down_to_one(&mut self) -> usize
        ensures { (400 ≤ result) × (result ≤ 800) }
    {
        let mut near = self.r;
        near.add(&self.plus);
        for point in 400..800 {
            if !self.whole(&near) {
                return point;
            }
            self.s.scale(10);
        }
        800
    }

    // Small numbers: the number grows by tens until its first digit stands behind the point.
    fn up_to_tenth(&mut self, from: usize) -> usize
        requires { from ≤ 800 }
        ensures { result ≤ 800 }
    {
        let mut near = self.r;
        near.add(&self.plus);
        for point in (0..from).rev() {
            near.scale(10);
            if self.whole(&near) {
                return point + 1;
            }
            self.grow();
        }
        0
    }
}

impl Ratio for Wide {
    fn figure(&mut self) -> Figure {
        self.grow();
        let digit = self.r.divide(&self.s);
        let low = exceeds(self.minus.compare(&self.r), self.even);
        let mut near = self.r;
        near.add(&self.plus);
        let high = self.whole(&near);
        if !low && !high {
            return Figure { digit, last: false };
        }
        digits::last(digit, low, high, self.half())
    }
}

// The decimal of a number, in so many limbs.
pub fn finite(b: &Binary, used: usize) -> Decimal
    requires { used ≤ 40 }
{
    let mut ratio = Wide::new(b, used);
    let above = ratio.down_to_one();
    let point = ratio.up_to_tenth(above);
    Decimal::shortest(&mut ratio, point)
}
