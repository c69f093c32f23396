// The contents that a record names: that they lie in the source, and that they are those of their type.
ghost use Rattle.std.specs.Prelude.{◌≡◌, ◌≤◌, length};
ghost use Rattle.item_judge.specs.Kinds.{inside_test, type_rule};

// Whether contents lie in the source; where there are none the place is not looked at.
#[tactic(auto, using(octets::specs::Rules::tests), unfolding(crate::specs::Kinds::inside_test))]
pub fn inside(source: &[u8], place: usize, len: usize) -> bool
    ensures { result ≡ inside_test (length source.now) place len }
{
    len == 0 || place <= source.len() && len <= source.len() - place
}

// Whether contents are those of a type n.
pub fn of_type(source: &[u8], n: u8, place: usize, len: usize) -> bool
    requires { n ≤ 12 }
    ensures { result ≡ type_rule source.now n place len }
{
    tags::contents::fits(n, len) && tags::contents::contents(source, place, n, len).is_ok()
}
