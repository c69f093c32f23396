// Big numbers: forty limbs of 32 bits, low limb first, of which the first are in use.
ghost use Rattle.std.specs.Prelude.{◌≡◌, ◌+◌, ◌*◌, ◌/◌, ◌%◌, ◌≤◌, ◌<◌};
ghost use Rattle.decimals.specs.Promises.{Scaled, Added, Taken, Compared};
ghost use Rattle.decimals.specs.Division.{Divided};

use std::cmp::Ordering;

#[derive(Clone, Copy)]
pub struct Number {
    pub limbs: [u32; 40],
    pub used: usize,
    pub ghost within: { used ≤ 40 },
}

// A limb times a factor, and what was carried.
fn product(x: u32, by: u32, carry: u32) -> u64
    ensures { result ≡ x * by + carry }
{
    (x as u64) * (by as u64) + (carry as u64)
}

// The limb of a sum or product.
fn low(t: u64) -> u32
    ensures { result ≡ t % 4294967296 }
{
    (t % 4294967296) as u32
}

// What it carries into the next limb.
fn high(t: u64) -> u32
    ensures { result ≡ t / 4294967296 }
{
    (t / 4294967296) as u32
}

// Two limbs and a carry.
fn sum(x: u32, y: u32, carry: u32) -> u64
    ensures { result ≡ x + y + carry }
{
    (x as u64) + (y as u64) + (carry as u64)
}

// What is left of a limb that lends y and a borrow, above 2^32: so that no difference falls below 0.
fn difference(x: u32, y: u32, borrow: u32) -> u64
    requires { borrow ≤ 1 }
    ensures { (result + y + borrow ≡ x + 4294967296) × (result < 8589934592) }
{
    (x as u64) + 4294967296 - (y as u64) - (borrow as u64)
}

// Whether a difference had to borrow: it stayed below 2^32.
fn borrowed(t: u64) -> u32
    requires { t < 8589934592 }
    ensures { (result ≤ 1) × (t % 4294967296 + 4294967296 ≡ t + result * 4294967296) }
{
    if t < 4294967296 { 1 } else { 0 }
}

// Two to a number below 32.
fn power(bits: u32) -> u32
    requires { bits < 32 }
{
    1u32 << bits
}

impl Number {
    // Stays: (c) the loops below go by index: tried in `add`, `self.limbs[..n].iter_mut().zip(&other.limbs)` is not covered (add_spec stays open: a field beside a ghost field is lent), and scale and subtract lend the same field.
    // m times two to a number of bits, into a number that is 0.
    pub fn place(&mut self, m: u64, bits: usize)
        requires { bits ≤ 1200 }
    {
        let at = bits / 32;
        self.limbs[at] = low(m);
        self.limbs[at + 1] = high(m);
        self.scale(power((bits % 32) as u32));
    }

    // Multiplies a number, and answers what does not fit its limbs.
    pub fn scale(&mut self, by: u32) -> u32
        ensures exact { Scaled self.old.limbs self.new.limbs self.old.used by result }
        ensures used { self.new.used ≡ self.old.used }
    {
        let mut carry: u32 = 0;
        for i in 0..self.used {
            let t = product(self.limbs[i], by, carry);
            self.limbs[i] = low(t);
            carry = high(t);
        }
        carry
    }

    // Adds a number, and answers what does not fit.
    pub fn add(&mut self, other: &Number) -> u32
        ensures exact { Added self.old.limbs other.now.limbs self.new.limbs self.old.used result }
        ensures used { self.new.used ≡ self.old.used }
    {
        let mut carry: u32 = 0;
        for i in 0..self.used {
            let t = sum(self.limbs[i], other.limbs[i], carry);
            self.limbs[i] = low(t);
            carry = high(t);
        }
        carry
    }

    // Takes a number off, and answers what was borrowed from beyond: 1 where it is larger.
    pub fn subtract(&mut self, other: &Number) -> u32
        ensures exact { Taken self.old.limbs other.now.limbs self.new.limbs self.old.used result }
        ensures used { self.new.used ≡ self.old.used }
    {
        let mut borrow: u32 = 0;
        for i in 0..self.used {
            let t = difference(self.limbs[i], other.limbs[i], borrow);
            self.limbs[i] = low(t);
            borrow = borrowed(t);
        }
        borrow
    }

    // How it compares with another, by its own limbs.
    pub fn compare(&self, other: &Number) -> Ordering
        ensures { Compared self.now.limbs other.now.limbs self.now.used result }
    {
        for i in (0..self.used).rev() {
            let order = self.limbs[i].cmp(&other.limbs[i]);
            if order.is_ne() {
                return order;
            }
        }
        Ordering::Equal
    }

    // Takes another off as often as it goes, and answers how often: at most nine times.
    pub fn divide(&mut self, by: &Number) -> u8
        ensures exact { Divided self.old.limbs by.now.limbs self.new.limbs self.old.used result }
        ensures used { self.new.used ≡ self.old.used }
    {
        for d in 0..9 {
            if self.compare(by).is_lt() {
                return d;
            }
            self.subtract(by);
        }
        9
    }
}
