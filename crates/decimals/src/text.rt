// A decimal as a person writes it, in at most forty octets.
ghost use Rattle.std.specs.Prelude.{◌≤◌, ◌<◌};

use crate::digits::Decimal;

#[derive(Drop)]
pub struct Text<'a> {
    octets: &'a mut [u8; 40],
    len: usize,
    ghost within: { len ≤ 40 },
}

// A digit's octet.
pub fn figure(d: u8) -> u8
    requires { d ≤ 9 }
{
    b'0' + d
}

impl<'a> Text<'a> {
    // No octet yet.
    pub fn new(octets: &'a mut [u8; 40]) -> Text<'a> {
        Text { octets, len: 0 }
    }

    // How many octets there are.
    pub fn len(&self) -> usize
        ensures { result ≤ 40 }
    {
        self.len
    }

    // One octet more.
    pub fn push(&mut self, b: u8) {
        if self.len < 40 {
            self.octets[self.len] = b;
            self.len += 1;
        }
    }

    // A word.
    pub fn word(&mut self, w: &[u8]) {
        for b in w {
            self.push(*b);
        }
    }

    // The digits from one place to another.
    fn run(&mut self, d: &Decimal, from: usize, to: usize) {
        for i in from..to {
            self.push(d.shown(i));
        }
    }

    // A point and the digits behind it, where there are any.
    fn part(&mut self, d: &Decimal, from: usize) {
        if from < d.count {
            self.push(b'.');
            self.run(d, from, d.count);
        }
    }

    // 0.00123
    fn small(&mut self, d: &Decimal, zeros: usize) {
        self.word(b"0.");
        for _ in 0..zeros {
            self.push(b'0');
        }
        self.run(d, 0, d.count);
    }

    // 123.4, 100
    fn large(&mut self, d: &Decimal, whole: usize) {
        self.run(d, 0, whole);
        self.part(d, whole);
    }

    // The digit of a number at 1, 10 or 100, unless only zeros stand before it.
    fn place(&mut self, n: usize, unit: usize)
        requires { 0 < unit }
    {
        if unit <= n {
            self.push(figure((n / unit % 10) as u8));
        }
    }

    // A number from 0 to 999.
    fn number(&mut self, n: usize) {
        self.place(n, 100);
        self.place(n, 10);
        self.push(figure((n % 10) as u8));
    }

    // 3.4028235e38, 5e-324
    fn scientific(&mut self, d: &Decimal) {
        self.run(d, 0, 1);
        self.part(d, 1);
        self.push(b'e');
        if d.point < 401 {
            self.push(b'-');
        }
        self.number(d.point.abs_diff(401));
    }

    // The digits in the notation for their point: plain from 0.00001 to below 10000000000000000.
    pub fn decimal(&mut self, d: &Decimal) {
        match d.point {
            396..=400 => self.small(d, 400 - d.point),
            401..=416 => self.large(d, d.point - 400),
            _ => self.scientific(d),
        }
    }
}
