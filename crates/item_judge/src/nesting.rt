// The open groups, by their numbers.
ghost use Rattle.std.specs.Prelude.{ℕ, List, ◌≡◌, [], ◌∷◌, ◌≤◌, ◌<◌, length};
ghost use Rattle.item_judge.specs.Kinds.{stack, innermost, without, groups_after};

use crate::{Groups, Record};
use std::marker::Model;

// Their numbers, the innermost last, and how many they are: in a clause, the list of the numbers, innermost first.
#[derive(Drop)]
pub struct Open {
    groups: Groups,
}

impl Model for Open {
    ghost Value = { List ℕ };

    ghost view = { λ g. stack g.groups.numbers g.groups.depth };

    ghost invariant = { λ g. g.groups.depth ≤ 16 };
}

impl Open {
    // No group is open.
    pub fn none() -> Open
        ensures { result ≡ [] }
    {
        Open {
            groups: Groups {
                numbers: [0; 16],
                depth: 0,
            },
        }
    }

    // How many are open.
    pub fn depth(&self) -> usize
        ensures { result ≡ length self.now }
    {
        self.groups.depth
    }

    // The innermost group's number.
    pub fn innermost(&self) -> Option<u8>
        ensures { result ≡ innermost self.now }
    {
        if self.groups.depth == 0 {
            return None;
        }
        Some(self.groups.numbers[self.groups.depth - 1])
    }

    // A group of number n is opened.
    fn open(&mut self, n: u8)
        requires { length self.old < 16 }
        ensures { self.new ≡ n ∷ self.old }
    {
        self.groups.numbers[self.groups.depth] = n;
        self.groups.depth += 1;
    }

    // The innermost group is closed.
    fn close(&mut self)
        requires { 0 < length self.old }
        ensures { self.new ≡ without self.old }
    {
        self.groups.depth -= 1;
    }

    // A good record is passed.
    #[tactic(auto, using(octets::specs::Rules::tests), unfolding(crate::specs::Kinds::groups_after))]
    pub fn pass(&mut self, r: Record)
        requires { (r.kind ≡ 2 → length self.old < 16) × (r.kind ≡ 3 → 0 < length self.old) }
        ensures { self.new ≡ groups_after r.kind r.number self.old }
    {
        match r.kind {
            2 => self.open(r.number),
            3 => self.close(),
            _ => {}
        }
    }
}
