// Areas to lend.
use crate::text;

// How many octets an area for output has, and one for a group of octets.
pub const OUTPUT: usize = 65537;

pub const INPUT: usize = 32768;

// Octets of which so many are lent. They stand where the line is answered, so that none is moved.
#[derive(Drop)]
pub struct Area<'a> {
    octets: &'a mut [u8],
    size: usize,
}

impl<'a> Area<'a> {
    // So many of the octets as they are.
    pub fn new(octets: &'a mut [u8], size: usize) -> Area<'a> {
        Area { octets, size }
    }

    // The octets of a group's words.
    pub fn of(octets: &'a mut [u8], group: &[u8]) -> Area<'a> {
        let mut area = Area::new(octets, 0);
        area.lay(group);
        area
    }

    // Those of another group from now on.
    pub fn lay(&mut self, group: &[u8]) {
        self.size = text::words(group, self.octets);
    }

    // So many times an octet from now on.
    pub fn fill(&mut self, x: u8, size: usize) {
        self.size = size;
        self.lent().fill(x);
    }

    // What is lent: all where it has no more.
    pub fn lent(&mut self) -> &mut [u8] {
        let n = self.size.min(self.octets.len());
        &mut self.octets[..n]
    }

    // What is shown: nothing where it has no more.
    pub fn shown(&self) -> &[u8] {
        show::part(self.octets, 0, self.size)
    }
}
